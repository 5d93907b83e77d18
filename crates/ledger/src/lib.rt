// The ledger of a recorded day (document 02, order 1): for each advertiser's number the ticket that is held for it, and its tally, which is how many visits were
// counted, whether one was confirmed, and the clock of the last that was. What an answer does to both. Not here: the calls that are answered, and the lines.
#![tactic(auto)]

ghost use Rattle.std.specs.Prelude.{◌≡◌, cond, ◌≤◌, ◌<◌, length, set};
ghost use Rattle.octets.specs.Runs.{part};
ghost use Rattle.record.specs.Layout.{ticket_size};
ghost use Rattle.admission.specs.Registered.{as_registered};
ghost use Rattle.ledger.specs.Ledger.{advertisers, slot_at, tickets_size, brought_in, tickets_after, tallies_size, most_visits, countable as is_countable, count_in, tallied, tallies_after};

use admission::Decision;
use record::{Refusal, layout};

// How many advertisers there are: their numbers are below.
pub const ADVERTISERS: usize = 64;

// The lengths of the tickets, in bytes, and of the tallies, in numbers.
pub const TICKETS: usize = ADVERTISERS * layout::TICKET_SIZE;

pub const TALLIES: usize = ADVERTISERS * 3;

// The length of the ticket that an advertiser brings, from its slot: 0 for a first ask, and where none is held.
pub fn brought(tickets: &[u8], n: usize, returns: bool) -> usize
    requires { (length tickets.now ≡ tickets_size) × (n < advertisers) }
    ensures { (result ≤ ticket_size) × (part (slot_at n) result tickets.now ≡ brought_in returns n tickets.now) }
{
    if !returns {
        return 0;
    }
    if tickets[n * layout::TICKET_SIZE] == 0 {
        return 0;
    }
    layout::TICKET_SIZE
}

// Keeps the ticket of an advertiser, or drops it: a slot whose first byte is 0 holds none.
fn hold(tickets: &mut [u8], n: usize, kept: bool)
    requires { (length tickets.old ≡ tickets_size) × (n < advertisers) }
    ensures { tickets.new ≡ cond kept tickets.old (set tickets.old (slot_at n) 0) }
{
    if !kept {
        tickets[n * layout::TICKET_SIZE] = 0;
    }
}

// The ticket held behind an answer: a refusal keeps it, a confirmation drops it, a WAIT replaces it.
pub fn keep_ticket(tickets: &mut [u8], n: usize, answer: Result<Decision, Refusal>, reply: &[u8])
    requires { (length tickets.old ≡ tickets_size) × (n < advertisers) × (length reply.now ≡ ticket_size) }
    ensures { tickets.new ≡ tickets_after (as_registered answer) n reply.now tickets.old }
{
    match answer {
        Err(_) => hold(tickets, n, true),
        Ok(Decision::Confirmed(_)) => hold(tickets, n, false),
        Ok(Decision::Wait(_, _)) => octets::copy(tickets, n * layout::TICKET_SIZE, reply),
    }
}

// Writes an advertiser's tally.
fn write_tally(tallies: &mut [u64], n: usize, visits: u64, confirmed: u64, last: u64)
    requires { (length tallies.old ≡ tallies_size) × (n < advertisers) }
    ensures { tallies.new ≡ tallied n visits confirmed last tallies.old }
{
    tallies[n * 3] = visits;
    tallies[n * 3 + 1] = confirmed;
    tallies[n * 3 + 2] = last;
}

// Counts a visit, whatever the answer, and notes a confirmation and its clock.
pub fn tally(tallies: &mut [u64], n: usize, clock: u64, answer: Result<Decision, Refusal>)
    requires { (length tallies.old ≡ tallies_size) × (n < advertisers) × (count_in n tallies.old < most_visits) }
    ensures { tallies.new ≡ tallies_after (as_registered answer) n clock tallies.old }
{
    let visits = tallies[n * 3];
    let confirmed = tallies[n * 3 + 1];
    let last = tallies[n * 3 + 2];
    match answer {
        Err(_) => write_tally(tallies, n, visits + 1, confirmed, last),
        Ok(Decision::Confirmed(_)) => write_tally(tallies, n, visits + 1, 1, clock),
        Ok(Decision::Wait(_, _)) => write_tally(tallies, n, visits + 1, confirmed, last),
    }
}

// Whether a visit of a number can be counted: the number is an advertiser's, and its tally can grow.
pub fn countable(tallies: &[u64], n: usize) -> bool
    requires { length tallies.now ≡ tallies_size }
    ensures { result ≡ is_countable n (count_in n tallies.now) }
{
    if n >= ADVERTISERS {
        return false;
    }
    tallies[n * 3] < u64::MAX
}
