// Standard input and output of the programs that read to the end and answer as they go: a read that tells a failure from the end, the loop of reads to the end, a write
// that tells whether all was taken, and a line on standard error where one failed, since a program has no exit status. What is read and written no contract can say.
#![tactic(auto)]

ghost use Rattle.std.specs.Prelude.{◌≡◌, ◌≤◌, Some, Ok, IfOk, IfSome, length};
ghost use Rattle.io.specs.Counts.{IsPrefixLen};

use std::io::{Error, ErrorKind, Read, Stderr, Stdin, Stdout, Write};

// Reading or writing failed, which a line on standard error has told.
#[derive(Clone, Copy)]
pub struct Failed;

// What stopped the turns before the end of the input: a read that failed, or a turn.
#[derive(Clone, Copy, PartialEq, Eq)]
pub enum Stopped {
    Reading,
    Turn,
}

// Reads standard input to its end, a block at a time, and has `turn` take what each read gave, until a read or a turn fails. A turn tells how many bytes it used, which are
// all that it was given, and here all that were read. 2^64 - 1 bytes and reads, less a block, count as the end of the input.
pub fn each_read<const BLOCK: usize, F: FnMut(&[u8]) -> Result<usize, Failed>>(
    input: Stdin,
    errors: Stderr,
    block: &mut [u8; BLOCK],
    name: &[u8],
    mut turn: F,
) -> Result<(), Stopped>
    requires callable { (state : F) (piece : _) → length piece.now ≤ BLOCK → F.pre state piece }
    requires uses_all { (state : F) (piece : _) (used : _) → F.post state piece (Ok used) → used ≡ length piece.now }
    ensures { result ≡ Err Stopped.Turn → (state : F) × (piece : _) × (failed : Failed) × F.post state piece (Err failed) }
{
    // No `for` counts this: what is left falls by what was read, so that bytes and reads end it together.
    let mut left = u64::MAX;
    while left > BLOCK as u64 {
        let count = match read(input, errors, block, name) {
            Ok(Some(count)) => count,
            Ok(None) => break,
            Err(_) => return Err(Stopped::Reading),
        };
        let Ok(used) = turn(&block[..count]) else {
            return Err(Stopped::Turn);
        };
        prove!(used == count);
        left -= count as u64 + 1;
    }
    Ok(())
}

// Reads some of standard input: how many bytes stand at the front of the block, 0 where it was interrupted and is to be tried again; none at the end. Where that
// fails, `name` and the reason are a line on standard error.
pub fn read(
    input: Stdin,
    errors: Stderr,
    block: &mut [u8],
    name: &[u8],
) -> Result<Option<usize>, Failed>
    ensures { IfOk result (λ got. IfSome got (λ count. IsPrefixLen count block.new)) }
{
    let mut from = input;
    match from.read(block) {
        Ok(0) => Ok(None),
        Ok(count) => Ok(Some(count)),
        Err(error) => missed(errors, error, name),
    }
}

// What a read gave that was interrupted or failed: no bytes.
fn missed(errors: Stderr, error: Error, name: &[u8]) -> Result<Option<usize>, Failed>
    ensures { IfOk result (λ got. got ≡ Some 0) }
{
    if error.kind() == ErrorKind::Interrupted {
        return Ok(Some(0));
    }
    tell(errors, error, name);
    Err(Failed)
}

// Writes all of the bytes to standard output; none are always taken. Where that fails, `name` and the reason are a line on standard error.
pub fn write(output: Stdout, errors: Stderr, bytes: &[u8], name: &[u8]) -> Result<(), Failed>
    ensures { length bytes.now ≡ 0 → result ≡ Ok tt }
{
    if bytes.len() == 0 {
        return Ok(());
    }
    match output.write_all(bytes) {
        Ok(()) => Ok(()),
        Err(error) => {
            tell(errors, error, name);
            Err(Failed)
        }
    }
}

// The longest reason.
const REASON: usize = 256;

// Writes a line to standard error: the name, a colon and the reason. That this fails is told nowhere.
fn tell(errors: Stderr, error: Error, name: &[u8]) {
    let mut text = [0u8; REASON];
    let mut left = &mut text[..];
    let _ = write!(left, "{error}");
    let used = REASON.saturating_sub(left.len());
    let _ = errors.write_all(name);
    let _ = errors.write_all(b": ");
    let _ = errors.write_all(&text[..words(&text[..used])]);
    let _ = errors.write_all(b"\n");
}

// How many bytes of the reason stand before its number, as in `Is a directory (os error 21)`; all of them where it has none.
fn words(reason: &[u8]) -> usize
    ensures { result ≤ length reason.now }
{
    match reason.iter().rposition(|byte| *byte == b'(') {
        Some(i) => i.saturating_sub(1),
        None => reason.len(),
    }
}
