// A short log, run through `events`. The parts of the request are fed as pieces of their own, and their lines are printed as they come.
use super::request::{A, B, C, D, E};
use super::{print, request};
use events::Log;
use std::io::Stdout;
use unglassot::calls;

// Feeds a piece of the input to the log, and prints its lines: the output holds those of each piece here.
fn feed(
    out: Stdout,
    log: Log,
    key: &mut [u8; events::KEY],
    rest: &mut [u8; events::REST],
    cache: &mut [u8; events::CACHE],
    piece: &[u8],
) -> Log {
    let mut lines = [0u8; 1_024];
    let fed = events::feed(log, key, rest, cache, piece, &mut lines);
    let written = fed.written.min(1_024);
    print::text(out, &lines[0..written]);
    fed.log
}

// Prints the last line.
fn end(out: Stdout, log: Log, key: &[u8; events::KEY], rest: &[u8; events::REST]) {
    let mut lines = [0u8; events::LINE];
    let written = events::finish(log, key, rest, &mut lines).min(events::LINE);
    print::text(out, &lines[0..written]);
}

pub(crate) fn show(out: Stdout, r: &[u8]) {
    let mut key = [0u8; events::KEY];
    let mut rest = [0u8; events::REST];
    let mut cache = [0u8; events::CACHE];
    calls::unglassot_open(&mut cache, 4);
    let one = feed(
        out,
        events::start(),
        &mut key,
        &mut rest,
        &mut cache,
        request::part(r, A),
    );
    let two = feed(
        out,
        one,
        &mut key,
        &mut rest,
        &mut cache,
        request::part(r, B),
    );
    let three = feed(
        out,
        two,
        &mut key,
        &mut rest,
        &mut cache,
        request::part(r, C),
    );
    let four = feed(
        out,
        three,
        &mut key,
        &mut rest,
        &mut cache,
        request::part(r, D),
    );
    let five = feed(
        out,
        four,
        &mut key,
        &mut rest,
        &mut cache,
        request::part(r, E),
    );
    end(out, five, &key, &rest);
}
