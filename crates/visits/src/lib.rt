// A visit of a recorded day (document 02, order 1): its record, its REGISTER over a cache with the ticket that the ledger holds for its advertiser, what the ledger
// keeps behind the answer, its line; and the summary, a line for each advertiser. `play` plays a visit that is `playable`; `playback` reads a day of them.
#![tactic(auto)]

ghost use Rattle.std.specs.Prelude.{◌≡◌, ◌∷◌, ◌+◌, ◌≤◌, ◌<◌, length};
ghost use Rattle.record.specs.Layout.{ad_kind, address_size, visit_size};
ghost use Rattle.admission.specs.Registered.{as_registered};
ghost use Rattle.admission.specs.Deciding.{outcome};
ghost use Rattle.lines.specs.Lines.{most_digits, LineWritten};
ghost use Rattle.ledger.specs.Ledger.{advertisers, tickets_size, tallies_size, most_visits, countable, count_in, time_by, last_in};
ghost use Rattle.visits.specs.Visits.{record_size, visit_in};
ghost use Rattle.visits.specs.Day.{longest, end_size, visit_line, time_text, summary_line};
ghost use Rattle.visits.specs.Memory.{outcome_in, memory_summary};
ghost use Rattle.visits.specs.Playing.{Playing};

use record::{Refusal, layout};
use registrar::Decision;

const AD: usize = layout::AD_FIXED + layout::ADDRESS_SIZE;

pub const VISIT: usize = layout::VISIT_FIXED + layout::ADDRESS_SIZE;
// The lengths of the longest line and of the summary.
pub const LINE: usize = lines::DIGITS + 1 + answers::LINE;

pub const END: usize = LINE * ledger::ADVERTISERS;

// The length of a record of a kind, or 0 for a kind that no day has: the definitions of a program tell so that it stops.
pub fn size(kind: u8) -> usize
    ensures { result ≡ record_size kind }
{
    if kind == layout::VISIT_KIND {
        return VISIT;
    }
    if kind == layout::REVISIT_KIND {
        return VISIT;
    }
    0
}

// The ad of a visit: its kind, then the body.
fn ad_of_visit(event: &[u8]) -> [u8; AD]
    requires { length event.now ≡ (visit_size address_size) }
    ensures { result ≡ ad_kind ∷ (visit_in event.now).body }
{
    let mut ad = [0u8; AD];
    ad[0] = layout::AD_KIND;
    octets::copy(&mut ad, 1, &event[layout::VISIT_BODY_AT..VISIT]);
    ad
}

// The visit's REGISTER, under the window that the day was recorded under.
fn call(
    cache: &mut [u8],
    key: &[u8],
    tickets: &[u8],
    event: &[u8],
    reply: &mut [u8],
) -> Result<Decision, Refusal>
    requires { (length tickets.now ≡ tickets_size) × (length event.now ≡ (visit_size address_size)) × ((visit_in event.now).advertiser < advertisers) }
    ensures { outcome (as_registered result) cache.new reply.new ≡ outcome_in key.now cache.old tickets.now (visit_in event.now) reply.old }
{
    let clock = octets::read_u64(event, layout::VISIT_CLOCK_AT);
    let vouched = event[layout::VISIT_VOUCHED_AT] == 1;
    let ad = ad_of_visit(event);
    let who = event[layout::ADVERTISER_AT] as usize;
    let n = ledger::brought(tickets, who, event[0] == layout::REVISIT_KIND);
    let slot = who * layout::TICKET_SIZE;
    registrar::register(
        cache,
        key,
        settings::RECORDED_WINDOW,
        clock,
        &ad,
        vouched,
        &tickets[slot..slot + n],
        reply,
    )
}

// The line of a visit: the advertiser's number, a space, the registrar's line.
fn visit_line(
    out: &mut [u8],
    to: usize,
    n: usize,
    clock: u64,
    answer: Result<Decision, Refusal>,
) -> usize
    requires { to + longest ≤ length out.old }
    ensures { LineWritten (visit_line n clock (as_registered answer)) out.old to result out.new }
{
    let at = lines::number(out, to, n as u64);
    let behind = lines::text(out, at, b" ");
    answers::register_line(out, behind, clock, answers::by_number(answer))
}

// Plays a visit: its line goes into the output from place `to`, and the place behind it is answered.
pub fn play(
    key: &[u8],
    cache: &mut [u8],
    tickets: &mut [u8],
    tallies: &mut [u64],
    event: &[u8],
    out: &mut [u8],
    to: usize,
) -> usize
    requires tickets_len { (length tickets.old ≡ tickets_size) × (length event.now ≡ (visit_size address_size)) × ((visit_in event.now).advertiser < advertisers) }
    requires tallies_len { (length tallies.old ≡ tallies_size) × (count_in (visit_in event.now).advertiser tallies.old < most_visits) × (to + longest ≤ length out.old) }
    ensures { Playing key.now cache.old tickets.old tallies.old event.now out.old to result cache.new tickets.new tallies.new out.new }
{
    let n = event[layout::ADVERTISER_AT] as usize;
    let clock = octets::read_u64(event, layout::VISIT_CLOCK_AT);
    let mut reply = [0u8; layout::TICKET_SIZE];
    let answer = call(cache, key, tickets, event, &mut reply);
    ledger::keep_ticket(tickets, n, answer, &reply);
    ledger::tally(tallies, n, clock, answer);
    visit_line(out, to, n, clock, answer)
}

// Whether a visit is played: its number is an advertiser's, and it can be counted.
pub fn playable(tallies: &[u64], event: &[u8]) -> bool
    requires { (length tallies.now ≡ tallies_size) × (length event.now ≡ (visit_size address_size)) }
    ensures { result ≡ countable (visit_in event.now).advertiser (count_in (visit_in event.now).advertiser tallies.now) }
{
    ledger::countable(tallies, event[layout::ADVERTISER_AT] as usize)
}

// The clock of the last confirmation, or a dash.
fn time(out: &mut [u8], to: usize, confirmed: u64, clock: u64) -> usize
    requires { to + most_digits ≤ length out.old }
    ensures { LineWritten (time_text (time_by confirmed clock)) out.old to result out.new }
{
    if confirmed == 0 {
        return lines::text(out, to, b"-");
    }
    lines::number(out, to, clock)
}

// The summary's line of an advertiser, if there was a visit.
fn summary_line(out: &mut [u8], to: usize, n: usize, tallies: &[u64]) -> usize
    requires { (length tallies.now ≡ tallies_size) × (n < advertisers) × (to + longest ≤ length out.old) }
    ensures { LineWritten (summary_line n (count_in n tallies.now) (last_in n tallies.now)) out.old to result out.new }
{
    let count = tallies[n * 3];
    if count == 0 {
        return to;
    }
    let a = lines::number(out, to, n as u64);
    let b = lines::text(out, a, b" ");
    let c = lines::number(out, b, count);
    let d = lines::text(out, c, b" ");
    let e = time(out, d, tallies[n * 3 + 1], tallies[n * 3 + 2]);
    lines::text(out, e, b"\n")
}

// The summary: a line for each advertiser that visited, by rising number.
pub fn summary(out: &mut [u8], tallies: &[u64]) -> usize
    requires { (length tallies.now ≡ tallies_size) × (end_size ≤ length out.old) }
    ensures { LineWritten (memory_summary tallies.now) out.old 0 result out.new }
{
    let mut to = 0;
    for n in 0..ledger::ADVERTISERS {
        to = summary_line(out, to, n, tallies);
    }
    to
}
