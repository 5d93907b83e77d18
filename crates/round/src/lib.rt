// One round of SHA-256 (FIPS 180-4 section 6.2.2): the working variables and the words of the schedule that a round starts from in, those of the
// next out. Each function equals its definition in specs/.
#![tactic(auto)]

ghost use Rattle.std.specs.Prelude.{◌≡◌};
ghost use Rattle.round.specs.Words.{constants};
ghost use Rattle.round.specs.Turn.{T₁, T₂, stepped, shifted, turned};

mod words;

pub use words::add;
use words::{big_sigma0, big_sigma1, ch, maj, small_sigma0, small_sigma1};

// Section 4.2.2: the round constants.
const K: [u32; 64] = [
    0x428a2f98, 0x71374491, 0xb5c0fbcf, 0xe9b5dba5, 0x3956c25b, 0x59f111f1, 0x923f82a4, 0xab1c5ed5,
    0xd807aa98, 0x12835b01, 0x243185be, 0x550c7dc3, 0x72be5d74, 0x80deb1fe, 0x9bdc06a7, 0xc19bf174,
    0xe49b69c1, 0xefbe4786, 0x0fc19dc6, 0x240ca1cc, 0x2de92c6f, 0x4a7484aa, 0x5cb0a9dc, 0x76f988da,
    0x983e5152, 0xa831c66d, 0xb00327c8, 0xbf597fc7, 0xc6e00bf3, 0xd5a79147, 0x06ca6351, 0x14292967,
    0x27b70a85, 0x2e1b2138, 0x4d2c6dfc, 0x53380d13, 0x650a7354, 0x766a0abb, 0x81c2c92e, 0x92722c85,
    0xa2bfe8a1, 0xa81a664b, 0xc24b8b70, 0xc76c51a3, 0xd192e819, 0xd6990624, 0xf40e3585, 0x106aa070,
    0x19a4c116, 0x1e376c08, 0x2748774c, 0x34b0bcb5, 0x391c0cb3, 0x4ed8aa4a, 0x5b9cca4f, 0x682e6ff3,
    0x748f82ee, 0x78a5636f, 0x84c87814, 0x8cc70208, 0x90befffa, 0xa4506ceb, 0xbef9a3f7, 0xc67178f2,
];

// What a round starts from: the working variables a to h, and sixteen words of the schedule, the round's own first.
#[derive(Clone, Copy)]
pub struct State {
    pub v: [u32; 8],
    pub w: [u32; 16],
}

// The table of round constants.
pub fn table() -> [u32; 64]
    ensures { result ≡ constants }
{
    K
}

fn t1(v: [u32; 8], k: u32, w: u32) -> u32
    ensures { result ≡ T₁ v k w }
{
    add(
        add(add(add(v[7], big_sigma1(v[4])), ch(v[4], v[5], v[6])), k),
        w,
    )
}

fn t2(v: [u32; 8]) -> u32
    ensures { result ≡ T₂ v }
{
    add(big_sigma0(v[0]), maj(v[0], v[1], v[2]))
}

// Step 3: one round. The next round waits for e, so e comes first.
fn step(v: [u32; 8], k: u32, w: u32) -> [u32; 8]
    ensures { result ≡ stepped v k w }
{
    let t = t1(v, k, w);
    let e = add(v[3], t);
    [add(t, t2(v)), v[0], v[1], v[2], e, v[4], v[5], v[6]]
}

// Step 1: of sixteen words of the schedule, those from the next on. They are written out: `copy_within` and `rotate_left` move them in memory, and a
// block then takes three times as long.
fn shift(w: [u32; 16]) -> [u32; 16]
    ensures { result ≡ shifted w }
{
    let next = add(
        add(add(small_sigma1(w[14]), w[9]), small_sigma0(w[1])),
        w[0],
    );
    [
        w[1], w[2], w[3], w[4], w[5], w[6], w[7], w[8], w[9], w[10], w[11], w[12], w[13], w[14],
        w[15], next,
    ]
}

// A round with its constant.
pub fn turn(s: State, k: u32) -> State
    ensures { result ≡ turned s k }
{
    let v = s.v;
    let w = s.w;
    let after = step(v, k, w[0]);
    let rest = shift(w);
    State { v: after, w: rest }
}
