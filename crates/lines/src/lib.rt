// Lines of text in lent bytes, for every program that prints: words, numbers in decimal, and `STOP`. Each function writes from a place on and answers the
// place behind what it wrote; what stands in other places stays. A cursor of buffer and place would be no
// plainer: each contract, here and above, is over the whole buffer before and after, which `LineWritten` says of the two.
#![tactic(auto)]

ghost use Rattle.std.specs.Prelude.{◌+◌, ◌≤◌, length};
ghost use Rattle.lines.specs.Lines.{decimal, most_digits, stop_line, LineWritten};

// The most digits of a number.
pub const DIGITS: usize = 20;

pub fn text(out: &mut [u8], to: usize, words: &[u8]) -> usize
    requires { to + length words.now ≤ length out.old }
    ensures { LineWritten words.now out.old to result out.new }
{
    octets::copy(out, to, words);
    to + words.len()
}

#[tactic(auto, using(crate::proofs::Printing::fewest_most, crate::proofs::Printing::decimal_digits))]
pub fn number(out: &mut [u8], to: usize, n: u64) -> usize
    requires { to + most_digits ≤ length out.old }
    ensures { LineWritten (decimal n) out.old to result out.new }
{
    let mut digits = [0u8; DIGITS];
    let k = io::decimal(n, &mut digits);
    text(out, to, &digits[..k])
}

// The last line of an input that was cut or has an unknown record.
pub fn stopped(out: &mut [u8]) -> usize
    requires { length stop_line ≤ length out.old }
    ensures { LineWritten stop_line out.old 0 result out.new }
{
    text(out, 0, b"STOP\n")
}
