// The compression function of SHA-256 (FIPS 180-4 section 6.2.2): a hash value and a block in, the next hash value out. It equals its definition
// in specs/ for every hash value and every block.
#![tactic(auto)]

ghost use Rattle.std.specs.Prelude.{◌≡◌, ◌+◌, ◌≤◌, length};
ghost use Rattle.compression.specs.Compression.{words_of, scheduled, rounds as rounds_of, turns, added, compressed};

use round::{State, add, table, turn};
use std::array;

// Step 3: eight rounds, from a round on that is known when the program is built: the compiler then writes all sixty-four out, with their constants as
// numbers and the working variables in registers.
fn eight<const FIRST: usize>(start: State) -> State
    requires { FIRST + 8 ≤ 64 }
    ensures { result ≡ turns 8 FIRST start }
{
    let k = table();
    let mut s = start;
    for i in 0..8 {
        s = turn(s, k[FIRST + i]);
    }
    s
}

// Steps 1 and 3: the sixty-four rounds, with the schedule worked out beside them.
fn rounds(start: State) -> [u32; 8]
    ensures { result ≡ rounds_of 64 (scheduled 48 start.w) start.v }
{
    let a = eight::<0>(start);
    let b = eight::<8>(a);
    let c = eight::<16>(b);
    let d = eight::<24>(c);
    let e = eight::<32>(d);
    let f = eight::<40>(e);
    let g = eight::<48>(f);
    let last = eight::<56>(g);
    last.v
}

// Section 5.2.1: the words of a block.
fn parse(block: &[u8]) -> [u32; 16]
    requires { length block.now ≡ 64 }
    ensures { result ≡ words_of 16 block.now }
{
    array::from_fn(|t| octets::read_u32(block, 4 * t))
}

// Step 4: each word of the hash value plus its working variable.
fn sums(h: [u32; 8], v: [u32; 8]) -> [u32; 8]
    ensures { result ≡ added h v }
{
    array::from_fn(|i| add(h[i], v[i]))
}

// The hash value after one block more.
pub fn compress(h: [u32; 8], block: &[u8]) -> [u32; 8]
    requires { length block.now ≡ 64 }
    ensures { result ≡ compressed h block.now }
{
    let w = parse(block);
    sums(h, rounds(State { v: h, w }))
}
