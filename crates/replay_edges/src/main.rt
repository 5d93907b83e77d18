// The short recorded days of CASES.md, replayed one by one under their names. Standard input has them as cases of 600 bytes: the lengths of the name and of the day in
// two bytes each, the name in 60 bytes, the day in the rest. `stdin` and `stdout` are written by tools/make_edges.py from the independent model, and never by this program.
#![tactic(auto)]

use registrar::Family;
use std::io::{Read, Stdin, Stdout};

const NAME: usize = 60;

const DAY: usize = 536;

const CASE: usize = 4 + NAME + DAY;
// More cases than any input has.
const CASES: u32 = 10_000;

// Writes the lines of a whole day, for which the output has room.
fn replay(output: Stdout, day: &[u8]) {
    let mut key = [0u8; playback::KEY];
    let mut rest = [0u8; playback::REST];
    let mut cache = [0u8; playback::CACHE];
    let mut tickets = [0u8; playback::TICKETS];
    let mut tallies = [0u64; playback::TALLIES];
    let mut out = [0u8; playback::END];
    let _ = registrar::open(&mut cache, Family::V4);
    let fed = playback::feed(
        playback::start(),
        &mut key,
        &mut rest,
        &mut cache,
        &mut tickets,
        &mut tallies,
        day,
        &mut out,
    );
    let written = fed.written;
    let _ = output.write_all(&out[0..written]);
    let end = playback::finish(fed.replay, &key, &rest, &tickets, &tallies, &mut out);
    let _ = output.write_all(&out[0..end]);
}

// Reads a case and replays it; whether there was one.
fn case(input: Stdin, output: Stdout) -> bool {
    let mut from = input;
    let mut c = [0u8; CASE];
    if from.read_exact(&mut c).is_err() {
        return false;
    }
    let name = octets::read_u16(&c, 0) as usize;
    let day = octets::read_u16(&c, 2) as usize;
    if name > NAME {
        return false;
    }
    if day > DAY {
        return false;
    }
    let _ = output.write_all(&c[4..4 + name]);
    replay(output, &c[4 + NAME..4 + NAME + day]);
    true
}

fn main(rt: HostRuntime) {
    for _ in 0..CASES {
        if !case(rt.stdin(), rt.stdout()) {
            return;
        }
    }
}
