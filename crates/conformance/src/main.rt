// Makes the calls that standard input lists and prints a line for each, so that a definition which the code agrees with and the document does not is seen:
// records, caches and messages byte for byte, every refusal of every call, alone and with the next one of that call, in both families of addresses; waits
// over 128 bits; and the short logs of CASES.md. Both the files `stdin` and `stdout` are written by the independent implementation of host/rust/tests, and
// never by this program.
#![tactic(auto)]

mod calls;
mod fields;
mod logs;
mod print;
mod request;

use std::io::{Stdin, Stdout};

// More lines than any input has.
const LINES: u32 = 1_000_000;

// Ends a line; a log's last line has an end of its own.
fn end(out: Stdout, r: &[u8]) {
    if request::byte(r, request::CALL) != calls::LOG {
        print::text(out, b"\n");
    }
}

// Reads a request, makes its call and prints its line; whether there was one.
fn line(input: Stdin, out: Stdout, cache: &mut [u8; calls::CACHE]) -> bool {
    let mut r = [0u8; request::SIZE];
    if !request::read(input, &mut r) {
        return false;
    }
    calls::make(out, &r, cache);
    end(out, &r);
    true
}

fn main(rt: HostRuntime) {
    let mut cache = [calls::FILL; calls::CACHE];
    for _ in 0..LINES {
        if !line(rt.stdin(), rt.stdout(), &mut cache) {
            return;
        }
    }
}
