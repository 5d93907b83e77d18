// Simulators' waits compared with ours (document 02, order 11): records read from pieces of input, a line each. `feed` takes a piece of any length, `finish` writes what comes at the
// end; both answer every state, output and input. The state between two pieces is the struct `Comparison` and a buffer that the caller lends, for the record
// under way. However the input is cut, what is written is what is printed of the whole input: `comparison_in_pieces` (proofs/Pieces.antt).
#![tactic(auto)]

ghost use Rattle.std.specs.Prelude.{◌≡◌, true, false, [], ◌++◌, ◌+◌, ◌≤◌, ◌<◌, length};
ghost use Rattle.record.specs.Layout.{kind_of, simulated_size};
ghost use Rattle.reader.specs.Chunks.{complete as completed};
ghost use Rattle.reader.specs.Feeding.{progress, is_going_on, reading_of, Taking, Turning, Feeding};
ghost use Rattle.lines.specs.Lines.{decimal, most_digits, LineWritten};
ghost use Rattle.comparison.specs.Records.{simulated_of, is_in_order, ours, recipe, word_same, space, difference, verdict, compared_line, line_of, line_limit};
ghost use Rattle.comparison.specs.Comparing.{size_in, comparison_program, hand_is, fed_is, started, ended_by, finished_in};

use record::layout;

// The lengths of the buffer of a record under way, and of the room for a line: three numbers, a word, a sign, a space and a newline.
pub const REST: usize = layout::SIMULATED_SIZE;

pub const LINE: usize = lines::DIGITS + 6 + 1 + lines::DIGITS + 1 + lines::DIGITS + 1;
// The largest capacity, and the levels of an IPv4 address.
const CAPACITY: u16 = settings::MAX_CAPACITY as u16;

const LEVELS: u8 = 32;
// The bits of the infinity: those of every number that is finite and has no sign are below.
const INFINITY: u64 = 0x7ff0_0000_0000_0000;

// A simulator's wait, by the bits of a double, and what it was worked out from: capacity C, occupancy c, serving s, similarity p.
#[derive(Clone, Copy)]
pub struct Simulated {
    pub capacity: u16,
    pub occupancy: u16,
    pub serving: u16,
    pub similarity: u8,
    pub bits: u64,
}

// How far a comparison is: whether it stopped, how many bytes of the record under way are in the buffer, and how many lines were written.
#[derive(Clone, Copy)]
pub struct Comparison {
    pub stopped: bool,
    pub have: usize,
    pub count: u64,
}

// What feed answers: the comparison, how many bytes of the piece it used, and how many bytes of lines it wrote.
#[derive(Clone, Copy)]
pub struct Fed {
    pub comparison: Comparison,
    pub used: usize,
    pub written: usize,
}

// A comparison of which nothing was read.
pub fn start() -> Comparison
    ensures { result ≡ started }
{
    Comparison {
        stopped: false,
        have: 0,
        count: 0,
    }
}

// The fields of a whole record.
fn read(chunk: &[u8]) -> Simulated
    requires { length chunk.now ≡ simulated_size }
    ensures { result ≡ simulated_of chunk.now }
{
    Simulated {
        capacity: octets::read_u16(chunk, layout::SIMULATED_CAPACITY_AT),
        occupancy: octets::read_u16(chunk, layout::SIMULATED_OCCUPANCY_AT),
        serving: octets::read_u16(chunk, layout::SIMULATED_SERVING_AT),
        similarity: chunk[layout::SIMULATED_SIMILARITY_AT],
        bits: octets::read_u64(chunk, layout::SIMULATED_WAIT_AT),
    }
}

// Whether a record is not bad.
fn in_order(told: Simulated) -> bool
    ensures { result ≡ is_in_order told }
{
    if told.capacity < 1 {
        return false;
    }
    if told.capacity > CAPACITY {
        return false;
    }
    if told.occupancy >= told.capacity {
        return false;
    }
    if told.serving > told.occupancy {
        return false;
    }
    if told.similarity > LEVELS {
        return false;
    }
    told.bits < INFINITY
}

// A number, and what stands behind it.
fn number_and(out: &mut [u8], to: usize, n: u64, words: &[u8]) -> usize
    requires { to + (most_digits + length words.now) ≤ length out.old }
    ensures { LineWritten (decimal n ++ words.now) out.old to result out.new }
{
    let at = lines::number(out, to, n);
    lines::text(out, at, words)
}

// The line's number, and whether ours and theirs are the same.
fn tell(out: &mut [u8], to: usize, n: u64, ours: u64, theirs: u64) -> usize
    requires { to + (most_digits + length word_same) ≤ length out.old }
    ensures { LineWritten (decimal n ++ verdict ours theirs) out.old to result out.new }
{
    if ours == theirs {
        return number_and(out, to, n, b" SAME ");
    }
    number_and(out, to, n, b" DIFF ")
}

// Ours less theirs, and a space.
fn subtract(out: &mut [u8], to: usize, ours: u64, theirs: u64) -> usize
    requires { to + (1 + most_digits + 1) ≤ length out.old }
    ensures { LineWritten (difference ours theirs ++ space) out.old to result out.new }
{
    if ours < theirs {
        let at = lines::text(out, to, b"-");
        return number_and(out, at, theirs - ours, b" ");
    }
    number_and(out, to, ours - theirs, b" ")
}

// The line of a record that is in order.
fn compare(out: &mut [u8], to: usize, n: u64, ours: u64, theirs: u64, wait: u64) -> usize
    requires { to + line_limit ≤ length out.old }
    ensures { LineWritten (compared_line n ours theirs wait) out.old to result out.new }
{
    let at = tell(out, to, n, ours, theirs);
    let behind = subtract(out, at, ours, theirs);
    number_and(out, behind, wait, b"\n")
}

// The bits of our wait. They may be told, and subtracted, because the wait of a record that is in order is finite, not 0 and without a sign.
fn our_bits(told: Simulated) -> u64
    requires { is_in_order told ≡ true }
    ensures { result ≡ ours told }
{
    let settings = double_wait::settings_for(told.capacity);
    let wait = double_wait::wait(settings, told.occupancy, told.serving, told.similarity);
    f64::to_bits(wait)
}

// The recipe's wait, in milliseconds.
fn recipe_wait(told: Simulated) -> u64
    requires { is_in_order told ≡ true }
    ensures { result ≡ recipe told }
{
    let wait = wait::wait(
        LEVELS as u64,
        told.capacity as u64,
        told.occupancy as u64,
        told.serving as u64,
        told.similarity as u64,
    );
    wait.0
}

// The line of a record.
fn write_line(out: &mut [u8], to: usize, n: u64, told: Simulated) -> usize
    requires { to + line_limit ≤ length out.old }
    ensures { LineWritten (line_of n told) out.old to result out.new }
{
    if !in_order(told) {
        return number_and(out, to, n, b" BAD\n");
    }
    let ours = our_bits(told);
    let wait = recipe_wait(told);
    compare(out, to, n, ours, told.bits, wait)
}

// The length of the record that starts with a byte, behind so many lines.
fn chunk_size(count: u64, first: u8) -> usize
    ensures { result ≡ size_in count first }
{
    if count == u64::MAX {
        return 0;
    }
    if first == layout::SIMULATED_KIND {
        return REST;
    }
    0
}

// Whether the comparison goes on: it has not stopped, and is in step with its buffer.
fn goes_on(comparison: Comparison, rest: &[u8]) -> bool
    ensures { result ≡ is_going_on comparison_program (hand_is comparison rest.now) }
{
    let size = chunk_size(comparison.count, reader::front(rest));
    reader::goes_on(comparison.stopped, true, comparison.have, rest, REST, size)
}

// Takes a whole record: its line is written.
fn take_record(count: u64, chunk: &[u8], out: &mut [u8], to: usize) -> usize
    requires { (length chunk.now ≡ size_in count (kind_of chunk.now)) × (1 ≤ length chunk.now) × (to + line_limit ≤ length out.old) }
    ensures { Taking comparison_program count chunk.now out.old to (count + 1) false result out.new }
{
    write_line(out, to, count + 1, read(chunk))
}

// A comparison that stops.
fn stop(count: u64, used: usize, written: usize) -> Fed
    ensures { result ≡ record { comparison = record { stopped = true; have = 0; count = count }; used = used; written = written } }
{
    let comparison = Comparison {
        stopped: true,
        have: 0,
        count,
    };
    Fed {
        comparison,
        used,
        written,
    }
}

// Reads on to the end of the record under way, or of the piece. A byte that no record starts with stops the comparison, and the rest of the piece counts
// as read.
fn turn(
    comparison: Comparison,
    rest: &mut [u8],
    piece: &[u8],
    at: usize,
    out: &mut [u8],
    to: usize,
) -> Fed
    requires { (is_going_on comparison_program (hand_is comparison rest.old) ≡ true) × (at < length piece.now) × (to + line_limit ≤ length out.old) }
    ensures { Turning comparison_program piece.now (progress (hand_is comparison rest.old) at to) out.old (fed_is result rest.new) out.new }
{
    let have = comparison.have;
    let count = comparison.count;
    let size = chunk_size(count, reader::first(rest, have, piece, at));
    if size == 0 {
        return stop(count, piece.len(), to);
    }
    let gathered = reader::gather(rest, have, piece, at, size);
    if !gathered.whole {
        let next = Comparison {
            stopped: false,
            have: gathered.have,
            count,
        };
        return Fed {
            comparison: next,
            used: gathered.used,
            written: to,
        };
    }
    let end = take_record(count, &rest[..size], out, to);
    let next = Comparison {
        stopped: false,
        have: 0,
        count: count + 1,
    };
    Fed {
        comparison: next,
        used: gathered.used,
        written: end,
    }
}

// Reads a piece of input, of any length, and writes the lines of the records that it ends to the front of the output. It stops early only where
// the output has no room for a line: call it again with the rest of the piece and an empty output. A comparison that is out of step
// with its buffer stops.
pub fn feed(comparison: Comparison, rest: &mut [u8], piece: &[u8], out: &mut [u8]) -> Fed
    ensures { Feeding comparison_program (hand_is comparison rest.old) piece.now out.old (fed_is result rest.new) out.new }
{
    if !goes_on(comparison, rest) {
        return stop(comparison.count, piece.len(), 0);
    }
    let mut state = comparison;
    let mut at = 0;
    let mut to = 0;
    // No `for` counts this: each turn says how far it read.
    while at < piece.len() {
        if out.len() - to < LINE {
            break;
        }
        let fed = turn(state, rest, piece, at, out, to);
        at = fed.used;
        to = fed.written;
        let next = fed.comparison;
        state = next;
    }
    Fed {
        comparison: state,
        used: at,
        written: to,
    }
}

// The comparison at the end of its input, whose reading may have failed.
pub fn ended(comparison: Comparison, failed: bool) -> Comparison
    ensures { result ≡ ended_by failed comparison }
{
    if failed {
        return Comparison {
            stopped: true,
            have: 0,
            count: comparison.count,
        };
    }
    comparison
}

// Whether the input ended behind a record.
fn complete(comparison: Comparison, rest: &[u8]) -> bool
    ensures { result ≡ completed (reading_of comparison_program (hand_is comparison rest.now) []) }
{
    reader::complete(goes_on(comparison, rest), comparison.have)
}

// What comes at the end of the input, to the front of the output: nothing, or `STOP`. An output without room for a line gets nothing.
pub fn finish(comparison: Comparison, rest: &[u8], out: &mut [u8]) -> usize
    ensures { LineWritten (finished_in comparison rest.now out.old) out.old 0 result out.new }
{
    if out.len() < LINE {
        return 0;
    }
    if complete(comparison, rest) {
        return 0;
    }
    lines::stopped(out)
}
