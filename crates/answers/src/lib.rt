// One step of a log (document 01, the end of "Both sides of each edge"): a whole record of an ask, a return or a list is answered, by a line and in
// the cache. Each function that writes a line does so from a place of the output on, and answers the place behind it. `records` has the records of a log.
#![tactic(auto)]

pub mod records;

ghost use Rattle.std.specs.Prelude.{◌≡◌, ◌++◌, ◌+◌, ◌≤◌, length};
ghost use Rattle.record.specs.Layout.{kind_of};
ghost use Rattle.listing.specs.Listed.{as_listed};
ghost use Rattle.admission.specs.Registered.{as_registered};
ghost use Rattle.lines.specs.Lines.{decimal, LineWritten};
ghost use Rattle.answers.specs.Records.{ask_size, return_size, list_size, record_size, ad_of_record, ticket_of_record};
ghost use Rattle.answers.specs.Lines.{word_wait, ended, ok_line, no_line, end_line, longest_line};
ghost use Rattle.answers.specs.Answers.{as_numbered, register_line, list_line, register_step, list_step, step_of, Answering};

use record::{Refusal, layout};
use registrar::Decision;

// The length of a list buffer.
const LIST_BUFFER: usize = settings::MOST_LISTED * records::AD;

// The longest word, and the longest line: two numbers, the word and a newline.
const WORD: usize = 6;

pub const LINE: usize = lines::DIGITS + WORD + lines::DIGITS + 1;

// The ad of an ask or a return: its kind, then the body.
fn ad_of_record(event: &[u8]) -> [u8; records::AD]
    requires { ask_size ≤ length event.now }
    ensures { result ≡ ad_of_record event.now }
{
    let mut ad = [0u8; records::AD];
    ad[0] = layout::AD_KIND;
    octets::copy(&mut ad, 1, &event[layout::ASK_BODY_AT..records::ASK]);
    ad
}

fn ticket_of_record(event: &[u8]) -> [u8; layout::TICKET_SIZE]
    requires { return_size ≤ length event.now }
    ensures { result ≡ ticket_of_record event.now }
{
    let mut ticket = [0u8; layout::TICKET_SIZE];
    ticket[0] = layout::TICKET_KIND;
    octets::copy(&mut ticket, 1, &event[records::ASK..records::RETURN]);
    ticket
}

// A line of a clock, a word and a number.
fn numbered(out: &mut [u8], to: usize, clock: u64, word: &[u8], n: u64) -> usize
    requires { (to + longest_line ≤ length out.old) × (length word.now ≤ length word_wait) }
    ensures { LineWritten (ended (decimal clock ++ word.now) n) out.old to result out.new }
{
    let at = lines::number(out, to, clock);
    let behind = lines::text(out, at, word);
    let last = lines::number(out, behind, n);
    lines::text(out, last, b"\n")
}

fn ok(out: &mut [u8], to: usize, clock: u64) -> usize
    requires { to + longest_line ≤ length out.old }
    ensures { LineWritten (ok_line clock) out.old to result out.new }
{
    let at = lines::number(out, to, clock);
    lines::text(out, at, b" OK\n")
}

// The last line of a log that was read to its end.
pub fn end_line(out: &mut [u8], n: u64) -> usize
    requires { longest_line ≤ length out.old }
    ensures { LineWritten (end_line n) out.old 0 result out.new }
{
    let at = lines::text(out, 0, b"END ");
    let last = lines::number(out, at, n);
    lines::text(out, last, b"\n")
}

// The line of a refusal.
#[tactic(auto, unfolding(crate::specs::Lines::no_line))]
fn refused(out: &mut [u8], to: usize, clock: u64, refusal: u8) -> usize
    requires { to + longest_line ≤ length out.old }
    ensures { LineWritten (no_line clock refusal) out.old to result out.new }
{
    numbered(out, to, clock, b" NO ", u64::from(refusal))
}

// REGISTER's answer, with the number of a refusal in place of the refusal.
pub fn by_number(answer: Result<Decision, Refusal>) -> Result<Decision, u8>
    ensures { as_numbered result ≡ as_registered answer }
{
    match answer {
        Ok(decision) => Ok(decision),
        Err(refusal) => Err(refusal.number()),
    }
}

// The line of what REGISTER answers, for every number of a refusal, also one that is not of the table.
pub fn register_line(out: &mut [u8], to: usize, clock: u64, answer: Result<Decision, u8>) -> usize
    requires { to + longest_line ≤ length out.old }
    ensures { LineWritten (register_line clock (as_numbered answer)) out.old to result out.new }
{
    match answer {
        Ok(Decision::Confirmed(_)) => ok(out, to, clock),
        Ok(Decision::Wait(wait, _)) => numbered(out, to, clock, b" WAIT ", wait.0),
        Err(refusal) => refused(out, to, clock, refusal),
    }
}

fn list_line(out: &mut [u8], to: usize, clock: u64, answer: Result<usize, Refusal>) -> usize
    requires { to + longest_line ≤ length out.old }
    ensures { LineWritten (list_line clock (as_listed answer)) out.old to result out.new }
{
    match answer {
        Ok(listed) => numbered(out, to, clock, b" ADS ", listed as u64),
        Err(refusal) => refused(out, to, clock, refusal.number()),
    }
}

// An ask, whose ticket is empty, or a return.
fn register(
    cache: &mut [u8],
    key: &[u8],
    event: &[u8],
    ticket: &[u8],
    out: &mut [u8],
    to: usize,
) -> usize
    requires { (ask_size ≤ length event.now) × (to + longest_line ≤ length out.old) }
    ensures { Answering (register_step key.now cache.old event.now ticket.now) cache.new out.old to result out.new }
{
    let clock = octets::read_u64(event, layout::LOG_CLOCK_AT);
    let vouched = event[layout::VOUCHED_AT] == 1;
    let ad = ad_of_record(event);
    let mut reply = [0u8; layout::TICKET_SIZE];
    let answer = registrar::register(
        cache,
        key,
        settings::USUAL_WINDOW,
        clock,
        &ad,
        vouched,
        ticket,
        &mut reply,
    );
    register_line(out, to, clock, by_number(answer))
}

fn list(cache: &[u8], event: &[u8], out: &mut [u8], to: usize) -> usize
    requires { (length event.now ≡ list_size) × (to + longest_line ≤ length out.old) }
    ensures { LineWritten (list_step cache.now event.now).line out.old to result out.new }
{
    let clock = octets::read_u64(event, layout::LOG_CLOCK_AT);
    let mut ads = [0u8; LIST_BUFFER];
    let answer = listing::get_ads(
        cache,
        clock,
        &event[layout::LIST_SERVICE_AT..layout::LIST_SIZE],
        &mut ads,
    );
    list_line(out, to, clock, answer)
}

// Answers a whole event of a log: its line goes into the output from place `to`, and the place behind it is answered.
pub fn answer(cache: &mut [u8], key: &[u8], event: &[u8], out: &mut [u8], to: usize) -> usize
    requires event_len { (length event.now ≡ record_size (kind_of event.now)) × (1 ≤ length event.now) }
    requires longest_line_in_bounds { to + longest_line ≤ length out.old }
    ensures { Answering (step_of key.now cache.old event.now) cache.new out.old to result out.new }
{
    let kind = event[0];
    if kind == layout::ASK_KIND {
        return register(cache, key, event, &event[..0], out, to);
    }
    if kind == layout::RETURN_KIND {
        let ticket = ticket_of_record(event);
        return register(cache, key, event, &ticket, out, to);
    }
    list(cache, event, out, to)
}
