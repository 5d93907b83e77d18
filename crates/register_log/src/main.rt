// The log program (document 01, the end of "Both sides of each edge"): reads a key and records of asks, returns and lists from standard input, and
// writes a line for each, over a freshly opened cache of 256 slots. A turn is one read, one call of `events` and one write; what is written, whatever
// the reads give, is then the log of the whole input (`log_in_pieces` of `events`). 2^64 - 1 bytes and reads, less a block, count as the end of the input.
// A read that fails ends the log with `STOP`, and a write that fails ends it at once; both leave a line on standard error.
#![tactic(auto)]

ghost use Rattle.std.specs.Prelude.{◌≡◌, ◌≤◌, IfOk, length};

use registrar::Family;
use streams::Stopped;

// A block of input, and an output with room for every line of one, in bytes.
const BLOCK: usize = 1_024;

const OUTPUT: usize = events::LINE * BLOCK + events::LINE;

fn main(rt: HostRuntime) {
    let input = rt.stdin();
    let output = rt.stdout();
    let errors = rt.stderr();
    let mut key = [0u8; events::KEY];
    let mut rest = [0u8; events::REST];
    let mut cache = [0u8; events::CACHE];
    let mut block = [0u8; BLOCK];
    let mut out = [0u8; OUTPUT];
    let _ = registrar::open(&mut cache, Family::V4);
    let mut state = events::start();
    let turn = |piece: &[u8]|
        requires { length piece.now ≤ BLOCK }
        ensures { IfOk result (λ used. used ≡ length piece.now) }
    {
        let fed = events::feed(state, &mut key, &mut rest, &mut cache, piece, &mut out);
        prove!(fed.used == piece.len());
        state = fed.log;
        streams::write(output, errors, &out[..fed.written], b"log: standard output")?;
        Ok(fed.used)
    };
    let read = streams::each_read(input, errors, &mut block, b"log: standard input", turn);
    if read == Err(Stopped::Turn) {
        return;
    }
    let end = events::finish(events::ended(state, read.is_err()), &key, &rest, &mut out);
    let _ = streams::write(output, errors, &out[0..end], b"log: standard output");
}
