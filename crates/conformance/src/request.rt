// A request of the input: a head of 83 bytes, then its parts. The head has a byte each for the call, for how the cache and the output are shown, whether
// the told number is shown, whether the signature is vouched for, whether the cache is filled anew, and what the output is filled with; then the port, how
// many bytes follow the head, the lengths that the cache and the output are lent and shown with, three numbers, and for each of eight parts where it begins
// in the request and its length. What is shorter than the longest request is read as zeros.
ghost use Rattle.std.specs.Prelude.{◌≤◌};

use std::io::{Read, Stdin};

// The head, and the longest request.
pub const HEAD: usize = 83;

pub const SIZE: usize = 4_096;

pub const CALL: u8 = 0;

pub const CACHE_SHOWN: u8 = 1;

pub const OUTPUT_SHOWN: u8 = 2;

pub const TOLD_SHOWN: u8 = 3;

pub const VOUCHED: u8 = 4;

pub const ANEW: u8 = 5;

pub const FILL: u8 = 6;

pub const PORT: u8 = 7;

pub const REST: u8 = 9;

pub const CACHE_LENT: u8 = 11;

pub const CACHE_SIZE: u8 = 15;

pub const OUTPUT_LENT: u8 = 19;

pub const OUTPUT_SIZE: u8 = 23;

// The numbers and the parts that a call is given, in the order of its parameters. Before the parts stand what the line begins with, what stands between the
// answer and what is shown, and the bytes that the cache begins with; where there are none it is as the last call left it.
pub const FIRST: u8 = 27;

pub const SECOND: u8 = 35;

pub const THIRD: u8 = 43;

pub const LABEL: u8 = 51;

pub const BETWEEN: u8 = 55;

pub const CACHE: u8 = 59;

pub const A: u8 = 63;

pub const B: u8 = 67;

pub const C: u8 = 71;

pub const D: u8 = 75;

pub const E: u8 = 79;

// Reads a request from standard input; whether there was one.
pub(crate) fn read(input: Stdin, r: &mut [u8]) -> bool {
    if read_head(input, r) {
        read_rest(input, r)
    } else {
        false
    }
}

fn read_head(input: Stdin, r: &mut [u8]) -> bool {
    let mut from = input;
    if r.len() < HEAD {
        return false;
    }
    from.read_exact(&mut r[0..HEAD]).is_ok()
}

fn read_rest(input: Stdin, r: &mut [u8]) -> bool {
    let mut from = input;
    if r.len() < HEAD {
        return false;
    }
    let n = usize::from(short(r, REST)).min(r.len() - HEAD);
    from.read_exact(&mut r[HEAD..HEAD + n]).is_ok()
}

pub(crate) fn byte(r: &[u8], at: u8) -> u8 {
    if r.len() < SIZE {
        return 0;
    }
    r[at as usize]
}

pub(crate) fn short(r: &[u8], at: u8) -> u16 {
    if r.len() < SIZE {
        return 0;
    }
    octets::read_u16(r, at as usize)
}

pub(crate) fn number(r: &[u8], at: u8) -> u64 {
    if r.len() < SIZE {
        return 0;
    }
    octets::read_u64(r, at as usize)
}

fn wide(r: &[u8], at: u8) -> u32 {
    if r.len() < SIZE {
        return 0;
    }
    octets::read_u32(r, at as usize)
}

// A length of the request, or `most` where that is less.
pub(crate) fn length(r: &[u8], at: u8, most: usize) -> usize
    ensures { result ≤ most }
{
    (wide(r, at) as usize).min(most)
}

// The same of a number of eight bytes.
pub(crate) fn places(r: &[u8], at: u8, most: usize) -> usize
    ensures { result ≤ most }
{
    (number(r, at) as usize).min(most)
}

// No bytes where the part would not end in the request.
pub(crate) fn part<'a>(r: &'a [u8], at: u8) -> &'a [u8] {
    let place = wide(r, at);
    let from = (place / 65_536) as usize;
    let n = (place % 65_536) as usize;
    if from > r.len() {
        return &r[0..0];
    }
    if n > r.len() - from {
        return &r[0..0];
    }
    &r[from..from + n]
}
