// One reader of chunks for all programs: the first byte of a chunk tells its length, input comes in pieces of any length, and a program takes whole
// chunks alone. `gather` fills the program's buffer from a piece and tells whether the chunk is whole; the lengths, and what is made of a
// whole chunk, are the program's own. specs/Chunks.antt has what such a program reads and prints, specs/Feeding.antt what its calls do, and the proofs the laws
// of its turns and of its loop, over any lengths and any step; proofs/Pieces.antt has that the pieces make no difference.
#![tactic(auto)]

ghost use Rattle.std.specs.Prelude.{◌≡◌, ◌≤◌, ◌<◌, eqb, length, get_or};
ghost use Rattle.octets.specs.Runs.{both};
ghost use Rattle.reader.specs.Gathering.{first_of, Gathering};
ghost use Rattle.reader.specs.Feeding.{goes};

// What gathering answers: whether the chunk is whole, how many of its bytes are in the buffer, and the place behind the bytes that were used. The numbers count
// in either case, so that no Option or enum of the two cases would be plainer.
#[derive(Clone, Copy)]
pub struct Gathered {
    pub whole: bool,
    pub have: usize,
    pub used: usize,
}

// The first byte of the buffer, or 0 where it has none: a chunk's length is told of a byte, as the definitions of a program have it.
pub fn front(rest: &[u8]) -> u8
    ensures { result ≡ get_or rest.now 0 0 }
{
    rest.first().copied().unwrap_or(0)
}

// Whether a program goes on: it has not stopped, its own buffers fit, that of the chunk under way has its length, and fewer than the chunk's `size` bytes are there.
#[tactic(auto, unfolding(crate::specs::Feeding::goes))]
pub fn goes_on(
    stopped: bool,
    fit: bool,
    have: usize,
    rest: &[u8],
    buffer: usize,
    size: usize,
) -> bool
    ensures { result ≡ goes stopped fit have (length rest.now) buffer size }
{
    !stopped && fit && rest.len() == buffer && (have == 0 || have < size)
}

// Whether all that came was taken, by a program that goes on or not: nothing is under way.
pub fn complete(goes: bool, have: usize) -> bool
    ensures { result ≡ both goes (eqb have 0) }
{
    goes && have == 0
}

// The first byte of the chunk under way.
pub fn first(rest: &[u8], have: usize, piece: &[u8], at: usize) -> u8
    requires { (at < length piece.now) × (1 ≤ length rest.now) }
    ensures { result ≡ first_of rest.now have piece.now at }
{
    if have != 0 { rest[0] } else { piece[at] }
}

// Copies from the piece what the chunk of `size` bytes still lacks, or all that is left of the piece.
pub fn gather(rest: &mut [u8], have: usize, piece: &[u8], at: usize, size: usize) -> Gathered
    requires { (have ≤ size) × (size ≤ length rest.old) × (at ≤ length piece.now) }
    ensures { Gathering rest.old have piece.now at size result rest.new }
{
    let n = (size - have).min(piece.len() - at);
    octets::copy(rest, have, &piece[at..at + n]);
    Gathered {
        whole: have + n == size,
        have: have + n,
        used: at + n,
    }
}
