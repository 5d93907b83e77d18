// How similar two addresses are, the leading bits that they share; and the points for them, from how many addresses share exactly so many with a newcomer's.
#![tactic(auto)]

ghost use Rattle.std.specs.Prelude.{◌≡◌, ◌*◌, ◌-◌, ◌^◌, ◌≤◌, length};
ghost use Rattle.std.specs.Int.Bits.{bit_and, bit_xor};
ghost use Rattle.octets.specs.Numbers.{number};
ghost use Rattle.octets.specs.Runs.{part};
ghost use Rattle.record.specs.Layout.{address_size_v6};
ghost use Rattle.similarity.specs.Bits.{shared};
ghost use Rattle.similarity.specs.Points.{sum, points_from};

// A word whose first n bytes are ones and the others zeros. For no bytes the shift is as wide as the word.
fn mask(n: usize) -> u64
    requires { n ≤ 8 }
    ensures { result ≡ 2 ^ 64 - 2 ^ (64 - 8 * n) }
{
    u64::MAX.unbounded_shl(64 - 8 * n as u32)
}

// Leading zeros of a word: each shift until nothing is left takes one of its other bits. The compiler makes one instruction of the loop. Shifts are the form that is asked for here (docs/SPECIFICATION.md), so it
// is not the library's method.
fn leading_zeros(word: u64) -> usize
    ensures { result ≡ shared 64 word 0 }
{
    let mut tail = word;
    let mut zeros = 64;
    while tail > 0 {
        tail = tail >> 1;
        zeros -= 1;
    }
    zeros
}

// Where the first n bytes of two words differ: what stands behind them is masked out.
fn differing(x: u64, y: u64, n: usize) -> u64
    requires { n ≤ 8 }
    ensures { result ≡ bit_and (bit_xor x y) (2 ^ 64 - 2 ^ (64 - 8 * n)) }
{
    (x ^ y) & mask(n)
}

// Leading bits that two addresses share. An address is read by words of eight bytes, and what stands behind it in a word is masked out: of IPv4 that is half of
// the first word and all of the second. What depends on the length alone is worked out before a loop over entries, so an entry costs the same in both families.
pub fn shared_bits(x: &[u8], y: &[u8], bytes: usize) -> usize
    requires { (bytes ≤ address_size_v6) × (address_size_v6 ≤ length x.now) × (address_size_v6 ≤ length y.now) }
    ensures { result ≡ shared (8 * bytes) (number (part 0 bytes x.now)) (number (part 0 bytes y.now)) }
{
    let front = bytes.min(8);
    let first = differing(octets::read_u64(x, 0), octets::read_u64(y, 0), front);
    if first != 0 {
        return leading_zeros(first);
    }
    let second = differing(
        octets::read_u64(x, 8),
        octets::read_u64(y, 8),
        bytes - front,
    );
    if second != 0 {
        return 8 * front + leading_zeros(second);
    }
    8 * bytes
}

// How many i from 1 up have more than live / 2^i addresses that share at least i bits, where `totals` has how many share exactly 0, 1, and so on.
// `near` share at least i bits. What is left of the halved number stays 0 once it is 0, so no shift is ever as wide as the number.
#[tactic(auto, using(crate::proofs::Levels::points_start, crate::proofs::Bits::passing_le))]
pub fn points(totals: &[u16], live: usize) -> usize
    requires { (1 ≤ length totals.now) × (sum totals.now ≡ live) }
    ensures { result ≡ points_from totals.now live }
{
    let mut near = live - totals[0] as usize;
    let mut rest = live;
    let mut found = 0;
    for total in &totals[1..] {
        rest >>= 1;
        if rest < near {
            found += 1;
        }
        near -= *total as usize;
    }
    found
}
