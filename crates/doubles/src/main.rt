// The comparison with simulators' doubles (document 02, order 11): reads records of kind 15 from standard input and writes a line for each. A turn is one read, one call of
// `comparison` and one write; what is written, whatever the reads give, is then what is printed of the whole input (`comparison_in_pieces` of `comparison`). 2^64 - 1 bytes
// and reads, less a block, count as the end of the input. A read that fails ends it with `STOP`, and a write that fails ends it at once; both leave a line on standard error.
#![tactic(auto)]

ghost use Rattle.std.specs.Prelude.{◌≡◌, ◌≤◌, IfOk, length};

use streams::Stopped;

// A block of input, and an output with room for a line for every byte of one, in bytes.
const BLOCK: usize = 4_096;

const OUTPUT: usize = comparison::LINE * BLOCK + comparison::LINE;

fn main(rt: HostRuntime) {
    let input = rt.stdin();
    let output = rt.stdout();
    let errors = rt.stderr();
    let mut rest = [0u8; comparison::REST];
    let mut block = [0u8; BLOCK];
    let mut out = [0u8; OUTPUT];
    let mut state = comparison::start();
    let turn = |piece: &[u8]|
        requires { length piece.now ≤ BLOCK }
        ensures { IfOk result (λ used. used ≡ length piece.now) }
    {
        let fed = comparison::feed(state, &mut rest, piece, &mut out);
        prove!(fed.used == piece.len());
        state = fed.comparison;
        streams::write(
            output,
            errors,
            &out[..fed.written],
            b"doubles: standard output",
        )?;
        Ok(fed.used)
    };
    let read = streams::each_read(input, errors, &mut block, b"doubles: standard input", turn);
    if read == Err(Stopped::Turn) {
        return;
    }
    let end = comparison::finish(comparison::ended(state, read.is_err()), &rest, &mut out);
    let _ = streams::write(output, errors, &out[0..end], b"doubles: standard output");
}
