// The replay program (document 02, order 1): reads a key and the records of a recorded day from standard input, plays each visit over a freshly opened
// cache of 256 slots, and writes a line for each and the summary. A turn is one read, one call of `playback` and one write; what is written, whatever the
// reads give, is then the replay of the whole input (`replay_in_pieces` of `playback`). 2^64 - 1 bytes and reads, less a block, count as the end of the input. A read
// that fails ends the replay with `STOP`, and a write that fails ends it at once; both leave a line on standard error.
#![tactic(auto)]

ghost use Rattle.std.specs.Prelude.{◌≡◌, ◌≤◌, IfOk, length};

use registrar::Family;
use streams::Stopped;

// A block of input, and an output with room for every line of one and for the end, in bytes.
const BLOCK: usize = 1_024;

const OUTPUT: usize = playback::LINE * BLOCK + playback::LINE;

fn main(rt: HostRuntime) {
    let input = rt.stdin();
    let output = rt.stdout();
    let errors = rt.stderr();
    let mut key = [0u8; playback::KEY];
    let mut rest = [0u8; playback::REST];
    let mut cache = [0u8; playback::CACHE];
    let mut tickets = [0u8; playback::TICKETS];
    let mut tallies = [0u64; playback::TALLIES];
    let mut block = [0u8; BLOCK];
    let mut out = [0u8; OUTPUT];
    let _ = registrar::open(&mut cache, Family::V4);
    let mut state = playback::start();
    let turn = |piece: &[u8]|
        requires { length piece.now ≤ BLOCK }
        ensures { IfOk result (λ used. used ≡ length piece.now) }
    {
        let fed = playback::feed(
            state,
            &mut key,
            &mut rest,
            &mut cache,
            &mut tickets,
            &mut tallies,
            piece,
            &mut out,
        );
        prove!(fed.used == piece.len());
        state = fed.replay;
        streams::write(
            output,
            errors,
            &out[..fed.written],
            b"replay: standard output",
        )?;
        Ok(fed.used)
    };
    let read = streams::each_read(input, errors, &mut block, b"replay: standard input", turn);
    if read == Err(Stopped::Turn) {
        return;
    }
    let last = playback::ended(state, read.is_err());
    let end = playback::finish(last, &key, &rest, &tickets, &tallies, &mut out);
    let _ = streams::write(output, errors, &out[0..end], b"replay: standard output");
}
