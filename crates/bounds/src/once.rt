// That each pair stands once, in a time that whoever chooses services and addresses cannot make long: records are looked up by a keyed hash of their pair, in
// chains through those that share a slot. What is answered depends on neither the key nor the hash.
ghost use Rattle.std.specs.Prelude.{◌≡◌, ◌+◌, ◌*◌, ◌≤◌, min, length, if◌then◌else◌};
ghost use Rattle.octets.specs.Runs.{same};
ghost use Rattle.record.specs.Layout.{address_size_v6, pair_size, bound_size};
ghost use Rattle.cache.specs.Chunks.{chunks};
ghost use Rattle.bounds.specs.Bounds.{most_bounds};
ghost use Rattle.bounds.specs.Hashing.{fold, product, service_sum, pair_sum, slot_of};
ghost use Rattle.bounds.specs.Chains.{pair_of, Chained, Met};
ghost use Rattle.bounds.specs.Told.{sound, Told};

use super::Form;
use record::layout;

// Slots of the table: it takes 2 bytes of the stack for each, and 2 for each record.
const SLOTS: usize = 4_096;

const LINKS: usize = super::MOST_BOUNDS + 1;
// A half of a word.
const HALF: u64 = 4_294_967_296;

// The keys of the hash, one for each word of a pair.
#[derive(Clone, Copy)]
pub struct Keys {
    pub first: u64,
    pub second: u64,
    pub third: u64,
    pub fourth: u64,
    pub fifth: u64,
    pub sixth: u64,
}

// The next of a row of numbers (multiply with carry).
fn next_key(x: u64) -> u64 {
    x % HALF * 4_294_957_665 + x / HALF
}

// The keys of a seed.
fn keys_of(seed: u64) -> Keys {
    let first = next_key(seed.wrapping_add(0x9e37_79b9_7f4a_7c15));
    let second = next_key(first);
    let third = next_key(second);
    let fourth = next_key(third);
    let fifth = next_key(fourth);
    Keys {
        first,
        second,
        third,
        fourth,
        fifth,
        sixth: next_key(fifth),
    }
}

// The two halves of a word, multiplied.
fn fold(x: u64) -> u64
    ensures { result ≡ fold x }
{
    x % HALF * (x / HALF)
}

// A word under a key.
fn product(key: u64, x: u64) -> u64
    ensures { result ≡ product key x }
{
    fold(x.wrapping_add(key))
}

// The sum of products over a service's words.
fn service_sum(keys: Keys, pair: &[u8]) -> u64
    requires { 32 ≤ length pair.now }
    ensures { result ≡ service_sum keys pair.now }
{
    let one = product(keys.first, octets::word_u64(pair, 0));
    let two = product(keys.second, octets::word_u64(pair, 8));
    let three = product(keys.third, octets::word_u64(pair, 16));
    let four = product(keys.fourth, octets::word_u64(pair, 24));
    one.wrapping_add(two).wrapping_add(three.wrapping_add(four))
}

// And over an address's: the last word ends where the pair ends, and overlaps the service where the address is short.
fn pair_sum(keys: Keys, pair: &[u8]) -> u64
    requires { 32 ≤ length pair.now }
    ensures { result ≡ pair_sum keys pair.now }
{
    let end = pair.len();
    let last = product(keys.sixth, octets::word_u64(pair, end - 8));
    let sum = service_sum(keys, pair).wrapping_add(last);
    if end < 48 {
        return sum;
    }
    let fifth = product(keys.fifth, octets::word_u64(pair, end - 16));
    sum.wrapping_add(fifth)
}

// The slot of a pair: the sum, folded once more, so that pairs in a row do not come to stand in a row.
fn slot_of(keys: Keys, pair: &[u8]) -> usize
    requires { 32 ≤ length pair.now }
    ensures { result ≡ slot_of keys pair.now }
{
    (fold(pair_sum(keys, pair)) / 67_108_864 % SLOTS as u64) as usize
}

// Whether the pair behind the first n records is that of one of them, which then is on the chain of its slot. (The loop follows `nexts` and counts nothing:
// there is no slice to walk, and an iterator over the chain would say no more than `p` does.)
fn is_chained(address: usize, bounds: &[u8], n: usize, first: u16, nexts: &[u16; LINKS]) -> bool
    requires address_le_address_size_v6 { (address ≤ address_size_v6) × (n + 1 ≤ most_bounds) × (bound_size address * (n + 1) ≤ length bounds.now) }
    requires chained { Chained (pair_of address bounds.now) n (pair_of address bounds.now (n + 1)) first nexts.now }
    ensures { Met (pair_of address bounds.now) n (pair_of address bounds.now (n + 1)) result }
{
    let width = layout::BOUND_FIXED + address;
    let size = layout::IDENTIFIER_SIZE + address;
    let own = width * n + layout::PAIR_AT;
    let mut p = usize::from(first);
    while p > 0 {
        let at = width * (p - 1) + layout::PAIR_AT;
        if super::is_pair(&bounds[at..at + size], &bounds[own..own + size]) {
            return true;
        }
        p = usize::from(nexts[p]);
    }
    false
}

// The index of the first record of a pair, with the one at i looked at too.
fn first_of(index: usize, i: usize, other: &[u8], pair: &[u8]) -> usize
    requires { (length other.now ≡ length pair.now) × (8 ≤ length pair.now) }
    ensures { result ≡ (if same other.now pair.now then min index i else index) }
{
    if super::is_pair(other, pair) {
        index.min(i)
    } else {
        index
    }
}

// The walk: each record's until, whether its pair is the one asked for, and that pair among those before it. (By index: it is what the table of slots holds.)
fn walk(address: usize, bounds: &[u8], n: usize, seed: u64, pair: &[u8]) -> Option<Form>
    requires { (address ≤ address_size_v6) × (n ≤ most_bounds) × (bound_size address * n ≤ length bounds.now) × (length pair.now ≡ pair_size address) }
    ensures { Told address pair.now (chunks (bound_size address) n bounds.now) (sound address (chunks (bound_size address) n bounds.now)) result }
{
    let width = layout::BOUND_FIXED + address;
    let size = layout::IDENTIFIER_SIZE + address;
    let keys = keys_of(seed);
    let mut heads = [0u16; SLOTS];
    let mut nexts = [0u16; LINKS];
    let mut least = super::LAST_UNTIL;
    let mut index = n;
    for i in 0..n {
        let start = width * i + layout::PAIR_AT;
        let end = start + size;
        let until = octets::read_u64(bounds, end);
        if until > super::LAST_UNTIL {
            return None;
        }
        least = least.min(until);
        index = first_of(index, i, &bounds[start..end], pair);
        let slot = slot_of(keys, &bounds[start..end]);
        let first = heads[slot];
        if is_chained(address, bounds, i, first, &nexts) {
            return None;
        }
        nexts[i + 1] = first;
        heads[slot] = (i + 1) as u16;
    }
    Some(Form { least, index })
}

// Whether no until of n records is too large, and no pair stands twice. Where there is none, no table is cleared.
pub fn check(address: usize, bounds: &[u8], n: usize, seed: u64, pair: &[u8]) -> Option<Form>
    requires { (address ≤ address_size_v6) × (n ≤ most_bounds) × (bound_size address * n ≤ length bounds.now) × (length pair.now ≡ pair_size address) }
    ensures { Told address pair.now (chunks (bound_size address) n bounds.now) (sound address (chunks (bound_size address) n bounds.now)) result }
{
    if n == 0 {
        return Some(Form {
            least: super::LAST_UNTIL,
            index: 0,
        });
    }
    walk(address, bounds, n, seed, pair)
}
