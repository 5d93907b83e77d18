// The log: records of asks, returns and lists, read from pieces of input, answered over a registrar's cache, a line each (document 01, the end
// of "Both sides of each edge"). `feed` takes a piece of any length, `finish` gives the last line; both answer every state, output and
// input. The state between two pieces is the struct `Log` and two buffers that the caller lends, for the key and for the record under way. However the input
// is cut, what is written is what the log of the whole input prints: `log_in_pieces` (proofs/Pieces.antt).
#![tactic(auto)]

ghost use Rattle.std.specs.Prelude.{◌≡◌, true, false, [], ◌+◌, ◌≤◌, ◌<◌, length};
ghost use Rattle.octets.specs.Runs.{both};
ghost use Rattle.settings.specs.Settings.{key_size};
ghost use Rattle.record.specs.Layout.{kind_of};
ghost use Rattle.reader.specs.Chunks.{complete as completed};
ghost use Rattle.reader.specs.Feeding.{progress, is_going_on, reading_of, Taking, Turning, Feeding, KeyLeft};
ghost use Rattle.lines.specs.Lines.{LineWritten};
ghost use Rattle.answers.specs.Lines.{longest_line};
ghost use Rattle.events.specs.Log.{chunk_size, log_program, state_is, hand_is, fed_is, started, ended_by, finished_in};

use answers::records;
pub use answers::records::{write_ask, write_list, write_return};
use record::layout;

// The lengths of the buffers of a key and of a record under way, and of the longest line.
pub const KEY: usize = settings::KEY_SIZE;

pub const REST: usize = records::RETURN;

pub const LINE: usize = answers::LINE;
// The length of the log's cache: a head and its slots.
pub const CACHE: usize = layout::HEAD_SIZE
    + (layout::ENTRY_FIXED + layout::ADDRESS_SIZE) * settings::PROGRAM_CAPACITY;

// How far a log is: whether the key was read, whether the log stopped, how many bytes of the key or the record under way are in the buffer,
// and how many records were answered.
#[derive(Clone, Copy)]
pub struct Log {
    pub keyed: bool,
    pub stopped: bool,
    pub have: usize,
    pub count: u64,
}

// What feed answers: the log, how many bytes of the piece it used, and how many bytes of lines it wrote.
#[derive(Clone, Copy)]
pub struct Fed {
    pub log: Log,
    pub used: usize,
    pub written: usize,
}

// What taking a chunk leaves: the number of records, and the place behind the lines.
#[derive(Clone, Copy)]
struct Taken {
    count: u64,
    to: usize,
}

// A log of which nothing was read.
pub fn start() -> Log
    ensures { result ≡ started }
{
    Log {
        keyed: false,
        stopped: false,
        have: 0,
        count: 0,
    }
}

// The length of the chunk that starts with a byte: the key's, then a record's.
fn chunk_size(keyed: bool, count: u64, first: u8) -> usize
    ensures { result ≡ chunk_size keyed count first }
{
    if !keyed {
        return KEY;
    }
    if count == u64::MAX {
        return 0;
    }
    records::size(first)
}

// Whether the log goes on: it has not stopped, and is in step with its buffers.
fn goes_on(log: Log, key: &[u8], rest: &[u8]) -> bool
    ensures { result ≡ is_going_on log_program (hand_is log key.now rest.now []) }
{
    let size = chunk_size(log.keyed, log.count, reader::front(rest));
    reader::goes_on(log.stopped, key.len() == KEY, log.have, rest, REST, size)
}

// Takes a whole chunk: the key is kept, a record is answered.
fn take_chunk(
    keyed: bool,
    key: &mut [u8],
    cache: &mut [u8],
    count: u64,
    chunk: &[u8],
    out: &mut [u8],
    to: usize,
) -> Taken
    requires key_len { (length key.old ≡ key_size) × (length chunk.now ≡ chunk_size keyed count (kind_of chunk.now)) }
    requires in_bounds { (1 ≤ length chunk.now) × (to + longest_line ≤ length out.old) }
    ensures taking { Taking log_program (state_is keyed key.old cache.old count) chunk.now out.old to (state_is true key.new cache.new result.count) false result.to out.new }
    ensures key { keyed ≡ true → key.new ≡ key.old }
{
    if !keyed {
        octets::copy(key, 0, chunk);
        return Taken { count, to };
    }
    let end = answers::answer(cache, key, chunk, out, to);
    Taken {
        count: count + 1,
        to: end,
    }
}

// A log that stops.
fn stop(keyed: bool, count: u64, used: usize, written: usize) -> Fed
    ensures { result ≡ record { log = record { keyed = keyed; stopped = true; have = 0; count = count }; used = used; written = written } }
{
    let log = Log {
        keyed,
        stopped: true,
        have: 0,
        count,
    };
    Fed { log, used, written }
}

// Reads on to the end of the chunk under way, or of the piece. A byte that no chunk starts with stops the log, and the rest of the piece counts
// as read.
fn turn(
    log: Log,
    key: &mut [u8],
    rest: &mut [u8],
    cache: &mut [u8],
    piece: &[u8],
    at: usize,
    out: &mut [u8],
    to: usize,
) -> Fed
    requires { (is_going_on log_program (hand_is log key.old rest.old []) ≡ true) × (at < length piece.now) × (to + longest_line ≤ length out.old) }
    ensures turning { Turning log_program piece.now (progress (hand_is log key.old rest.old cache.old) at to) out.old (fed_is result key.new rest.new cache.new) out.new }
    ensures key { KeyLeft log.keyed result.log.keyed key.old key.new }
{
    let keyed = log.keyed;
    let have = log.have;
    let count = log.count;
    let size = chunk_size(keyed, count, reader::first(rest, have, piece, at));
    if size == 0 {
        return stop(keyed, count, piece.len(), to);
    }
    let gathered = reader::gather(rest, have, piece, at, size);
    if !gathered.whole {
        let next = Log {
            keyed,
            stopped: false,
            have: gathered.have,
            count,
        };
        return Fed {
            log: next,
            used: gathered.used,
            written: to,
        };
    }
    let taken = take_chunk(keyed, key, cache, count, &rest[..size], out, to);
    let next = Log {
        keyed: true,
        stopped: false,
        have: 0,
        count: taken.count,
    };
    Fed {
        log: next,
        used: gathered.used,
        written: taken.to,
    }
}

// Reads a piece of input, of any length, and writes the lines of the records that it ends to the front of the output. It stops early only where
// the output has no room for the longest line: call it again with the rest of the piece and an empty output. A log that is out of step
// with its buffers stops.
pub fn feed(
    log: Log,
    key: &mut [u8],
    rest: &mut [u8],
    cache: &mut [u8],
    piece: &[u8],
    out: &mut [u8],
) -> Fed
    ensures feeding { Feeding log_program (hand_is log key.old rest.old cache.old) piece.now out.old (fed_is result key.new rest.new cache.new) out.new }
    ensures key { KeyLeft log.keyed result.log.keyed key.old key.new }
{
    if !goes_on(log, key, rest) {
        return stop(log.keyed, log.count, piece.len(), 0);
    }
    let mut state = log;
    let mut at = 0;
    let mut to = 0;
    // No `for` counts this: each turn says how far it read.
    while at < piece.len() {
        if out.len() - to < LINE {
            break;
        }
        let fed = turn(state, key, rest, cache, piece, at, out, to);
        at = fed.used;
        to = fed.written;
        let next = fed.log;
        state = next;
    }
    Fed {
        log: state,
        used: at,
        written: to,
    }
}

// The log at the end of its input: one whose input could not be read to its end stops.
pub fn ended(log: Log, failed: bool) -> Log
    ensures { result ≡ ended_by failed log }
{
    if !failed {
        return log;
    }
    let fed = stop(log.keyed, log.count, 0, 0);
    fed.log
}

// Whether the input ended behind the key or a record.
fn complete(log: Log, key: &[u8], rest: &[u8]) -> bool
    ensures { result ≡ both log.keyed (completed (reading_of log_program (hand_is log key.now rest.now []) [])) }
{
    if !log.keyed {
        return false;
    }
    reader::complete(goes_on(log, key, rest), log.have)
}

// The last line, at the end of the input, to the front of the output: `END` with the number of records, or `STOP`. An output without room for the
// longest line gets none.
pub fn finish(log: Log, key: &[u8], rest: &[u8], out: &mut [u8]) -> usize
    ensures { LineWritten (finished_in log key.now rest.now out.old) out.old 0 result out.new }
{
    if out.len() < LINE {
        return 0;
    }
    if complete(log, key, rest) {
        return answers::end_line(out, log.count);
    }
    lines::stopped(out)
}
