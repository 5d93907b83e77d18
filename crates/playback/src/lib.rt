// The replay of a recorded day (document 02, order 1): visits of advertisers, read from pieces of input, each played as a REGISTER over a cache with the
// ticket that the replay holds, a line each (`visits`); at the end a line for each advertiser. `feed` takes a piece of any length, `finish` gives the end; both answer
// every state, output and input. Between two pieces the struct `Replay` and what the caller lends keep the day: the key, the record under way, the
// cache, the tickets and the tallies. However the input is cut, what is written is the replay of the whole input: `replay_in_pieces` (proofs/Pieces.antt).
#![tactic(auto)]

ghost use Rattle.std.specs.Prelude.{◌≡◌, true, false, cond, [], ◌+◌, ◌≤◌, ◌<◌, length, is_none, unwrap_or};
ghost use Rattle.octets.specs.Runs.{both};
ghost use Rattle.settings.specs.Settings.{key_size};
ghost use Rattle.record.specs.Layout.{kind_of};
ghost use Rattle.reader.specs.Chunks.{complete as completed};
ghost use Rattle.reader.specs.Feeding.{progress, is_going_on, reading_of, Taking, Turning, Feeding, KeyLeft};
ghost use Rattle.lines.specs.Lines.{LineWritten};
ghost use Rattle.ledger.specs.Ledger.{tickets_size, tallies_size};
ghost use Rattle.visits.specs.Day.{longest, chunk_size};
ghost use Rattle.playback.specs.Replay.{replay_program, memory_is, in_step, hand_is, fed_is, started, ended_by, finished_in};

use record::layout;

// The lengths of the buffers: a key, a record under way, the tickets, the tallies (numbers), the longest line, and the end.
pub const KEY: usize = settings::KEY_SIZE;

pub const REST: usize = visits::VISIT;

pub const TICKETS: usize = ledger::TICKETS;

pub const TALLIES: usize = ledger::TALLIES;

pub const LINE: usize = visits::LINE;

pub const END: usize = visits::END;
// The length of the replay's cache: a head and its slots.
pub const CACHE: usize = layout::HEAD_SIZE
    + (layout::ENTRY_FIXED + layout::ADDRESS_SIZE) * settings::PROGRAM_CAPACITY;

// How far a replay is: whether the key was read, whether the replay stopped, and how many bytes of the key or the record under way are in the
// buffer.
#[derive(Clone, Copy)]
pub struct Replay {
    pub keyed: bool,
    pub stopped: bool,
    pub have: usize,
}

// What feed answers: the replay, how many bytes of the piece it used, and how many bytes of lines it wrote.
#[derive(Clone, Copy)]
pub struct Fed {
    pub replay: Replay,
    pub used: usize,
    pub written: usize,
}

// A replay of which nothing was read.
pub fn start() -> Replay
    ensures { result ≡ started }
{
    Replay {
        keyed: false,
        stopped: false,
        have: 0,
    }
}

// The length of the chunk that starts with a byte: the key's, then a record's.
fn chunk_size(keyed: bool, first: u8) -> usize
    ensures { result ≡ chunk_size keyed first }
{
    if !keyed {
        return KEY;
    }
    visits::size(first)
}

// Whether the key's buffer, the tickets and the tallies have their lengths.
fn in_step(key: &[u8], tickets: &[u8], tallies: &[u64]) -> bool
    ensures { result ≡ in_step key.now tickets.now tallies.now }
{
    if key.len() != KEY {
        return false;
    }
    if tickets.len() != TICKETS {
        return false;
    }
    tallies.len() == TALLIES
}

// Whether the replay goes on: it has not stopped, and is in step with its buffers.
fn goes_on(replay: Replay, key: &[u8], rest: &[u8], tickets: &[u8], tallies: &[u64]) -> bool
    ensures { result ≡ is_going_on replay_program (hand_is replay key.now rest.now [] tickets.now tallies.now) }
{
    let fit = in_step(key, tickets, tallies);
    let size = chunk_size(replay.keyed, reader::front(rest));
    reader::goes_on(replay.stopped, fit, replay.have, rest, REST, size)
}

// Takes a whole chunk: the key is kept, a visit is played. Answers the place behind the lines, or none where the visit stops the replay.
fn take_chunk(
    keyed: bool,
    key: &mut [u8],
    cache: &mut [u8],
    tickets: &mut [u8],
    tallies: &mut [u64],
    chunk: &[u8],
    out: &mut [u8],
    to: usize,
) -> Option<usize>
    requires key_len { (length key.old ≡ key_size) × (length tickets.old ≡ tickets_size) × (length tallies.old ≡ tallies_size) }
    requires chunk_len { (length chunk.now ≡ chunk_size keyed (kind_of chunk.now)) × (1 ≤ length chunk.now) × (to + longest ≤ length out.old) }
    ensures taking { Taking replay_program (memory_is keyed key.old cache.old tickets.old tallies.old) chunk.now out.old to (memory_is true key.new cache.new tickets.new tallies.new) (is_none result) (unwrap_or result to) out.new }
    ensures key { keyed ≡ true → key.new ≡ key.old }
{
    if !keyed {
        octets::copy(key, 0, chunk);
        return Some(to);
    }
    if !visits::playable(tallies, chunk) {
        return None;
    }
    Some(visits::play(key, cache, tickets, tallies, chunk, out, to))
}

// A replay that stops.
fn stop(keyed: bool, used: usize, written: usize) -> Fed
    ensures { result ≡ record { replay = record { keyed = keyed; stopped = true; have = 0 }; used = used; written = written } }
{
    let replay = Replay {
        keyed,
        stopped: true,
        have: 0,
    };
    Fed {
        replay,
        used,
        written,
    }
}

// A replay that goes on, with `have` bytes under way.
fn go(keyed: bool, have: usize, used: usize, written: usize) -> Fed
    ensures { result ≡ record { replay = record { keyed = keyed; stopped = false; have = have }; used = used; written = written } }
{
    let replay = Replay {
        keyed,
        stopped: false,
        have,
    };
    Fed {
        replay,
        used,
        written,
    }
}

// A replay behind a whole chunk, which began with the lines' end at `to` and ends at place `used` of the piece: where the chunk stops it, all of the piece counts as read.
fn behind(taken: Option<usize>, to: usize, used: usize, all: usize) -> Fed
    ensures { result ≡ record { replay = record { keyed = true; stopped = is_none taken; have = 0 }; used = cond (is_none taken) all used; written = unwrap_or taken to } }
{
    match taken {
        Some(end) => go(true, 0, used, end),
        None => stop(true, all, to),
    }
}

// Reads on to the end of the chunk under way, or of the piece. A byte that no chunk starts with, or a visit that is not played, stops the replay, and the
// rest of the piece counts as read.
fn turn(
    replay: Replay,
    key: &mut [u8],
    rest: &mut [u8],
    cache: &mut [u8],
    tickets: &mut [u8],
    tallies: &mut [u64],
    piece: &[u8],
    at: usize,
    out: &mut [u8],
    to: usize,
) -> Fed
    requires { (is_going_on replay_program (hand_is replay key.old rest.old [] tickets.old tallies.old) ≡ true) × (at < length piece.now) × (to + longest ≤ length out.old) }
    ensures turning { Turning replay_program piece.now (progress (hand_is replay key.old rest.old cache.old tickets.old tallies.old) at to) out.old (fed_is result key.new rest.new cache.new tickets.new tallies.new) out.new }
    ensures key { KeyLeft replay.keyed result.replay.keyed key.old key.new }
{
    let keyed = replay.keyed;
    let have = replay.have;
    let size = chunk_size(keyed, reader::first(rest, have, piece, at));
    if size == 0 {
        return stop(keyed, piece.len(), to);
    }
    let gathered = reader::gather(rest, have, piece, at, size);
    if !gathered.whole {
        return go(keyed, gathered.have, gathered.used, to);
    }
    let taken = take_chunk(keyed, key, cache, tickets, tallies, &rest[..size], out, to);
    behind(taken, to, gathered.used, piece.len())
}

// Reads a piece of input, of any length, and writes the lines of the visits that it ends to the front of the output. It stops early only where
// the output has no room for the longest line: call it again with the rest of the piece and an empty output. A replay that is out of step
// with its buffers stops.
pub fn feed(
    replay: Replay,
    key: &mut [u8],
    rest: &mut [u8],
    cache: &mut [u8],
    tickets: &mut [u8],
    tallies: &mut [u64],
    piece: &[u8],
    out: &mut [u8],
) -> Fed
    ensures feeding { Feeding replay_program (hand_is replay key.old rest.old cache.old tickets.old tallies.old) piece.now out.old (fed_is result key.new rest.new cache.new tickets.new tallies.new) out.new }
    ensures key { KeyLeft replay.keyed result.replay.keyed key.old key.new }
{
    if !goes_on(replay, key, rest, tickets, tallies) {
        return stop(replay.keyed, piece.len(), 0);
    }
    let mut state = replay;
    let mut at = 0;
    let mut to = 0;
    // No `for` counts this: each turn says how far it read.
    while at < piece.len() {
        if out.len() - to < LINE {
            break;
        }
        let fed = turn(
            state, key, rest, cache, tickets, tallies, piece, at, out, to,
        );
        at = fed.used;
        to = fed.written;
        let next = fed.replay;
        state = next;
    }
    Fed {
        replay: state,
        used: at,
        written: to,
    }
}

// The replay at the end of its input: one whose input could not be read to its end stops.
pub fn ended(replay: Replay, failed: bool) -> Replay
    ensures { result ≡ ended_by failed replay }
{
    if !failed {
        return replay;
    }
    let fed = stop(replay.keyed, 0, 0);
    fed.replay
}

// Whether the input ended behind the key or a record.
fn complete(replay: Replay, key: &[u8], rest: &[u8], tickets: &[u8], tallies: &[u64]) -> bool
    ensures { result ≡ both replay.keyed (completed (reading_of replay_program (hand_is replay key.now rest.now [] tickets.now tallies.now) [])) }
{
    if !replay.keyed {
        return false;
    }
    reader::complete(goes_on(replay, key, rest, tickets, tallies), replay.have)
}

// The end of the input, to the front of the output: the summary, or `STOP`. An output without room for a line of each advertiser gets nothing.
pub fn finish(
    replay: Replay,
    key: &[u8],
    rest: &[u8],
    tickets: &[u8],
    tallies: &[u64],
    out: &mut [u8],
) -> usize
    ensures { LineWritten (finished_in replay key.now rest.now tickets.now tallies.now out.old) out.old 0 result out.new }
{
    if out.len() < END {
        return 0;
    }
    if !complete(replay, key, rest, tickets, tallies) {
        return lines::stopped(out);
    }
    visits::summary(out, tallies)
}
