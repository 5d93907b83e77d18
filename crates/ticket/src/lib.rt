// A ticket's record: kind, hash of the ad 32, first 8, issued 8, wait 8, tag 32 (document 02, order 4). The tag is HMAC-SHA-256 of the 57
// bytes before it under the registrar's key, and a caller never hands one in. read_ticket and write_ticket answer on every input, with what was
// asked for or with a refusal, which leaves a lent buffer as it was. Times are in milliseconds.
#![tactic(auto)]

ghost use Rattle.std.specs.Prelude.{◌≡◌, true, List, ℕ, length};
ghost use Rattle.octets.specs.Runs.{put};
ghost use Rattle.record.specs.Layout.{ticket_size, ticket_body, first, issued, wait};
ghost use Rattle.record.specs.Refusals.{code, refusal, reply};
ghost use Rattle.sha256.specs.Hmac.{states_of};
ghost use Rattle.ticket.specs.Tickets.{ad_hash, ticket_fields, ticket_in, tagged_of, ticket_of, ticket_rows, is_formed, ticket_read_rows, as_ticket_read, ticket_read, ticket_write_rows, ticket_written};

use record::{Refusal, layout};
use sha256::KeyStates;

#[derive(Clone, Copy)]
pub struct Ticket {
    pub hash: [u8; layout::HASH_SIZE],
    pub first: u64,
    pub issued: u64,
    pub wait: u64,
}

// What a ticket for an ad is bound to: the hash of the whole ad, from its kind on.
pub fn ad_hash(ad: &[u8]) -> [u8; layout::HASH_SIZE]
    ensures { result ≡ ad_hash ad.now }
{
    sha256::sha256(&ad[layout::KIND_AT..])
}

pub fn read_first(ticket: &[u8]) -> u64
    requires { length ticket.now ≡ ticket_size }
    ensures { result ≡ first (ticket_body ticket.now) }
{
    octets::read_u64(ticket, layout::FIRST_AT)
}

pub fn read_issued(ticket: &[u8]) -> u64
    requires { length ticket.now ≡ ticket_size }
    ensures { result ≡ issued (ticket_body ticket.now) }
{
    octets::read_u64(ticket, layout::ISSUED_AT)
}

pub fn read_wait(ticket: &[u8]) -> u64
    requires { length ticket.now ≡ ticket_size }
    ensures { result ≡ wait (ticket_body ticket.now) }
{
    octets::read_u64(ticket, layout::WAIT_AT)
}

// Whether a ticket has its length and its kind: all others are refused for their form.
pub fn is_formed(ticket: &[u8]) -> bool
    ensures { result ≡ is_formed ticket.now }
{
    ticket.len() == layout::TICKET_SIZE && ticket[0] == layout::TICKET_KIND
}

// The check of a ticket that is formed, by the states of the key: its tag, then its times. `latest` is the latest time at which it may have been issued.
pub fn check_ticket(states: KeyStates, ticket: &[u8], latest: u64) -> Result<(), Refusal>
    requires { is_formed ticket.now ≡ true }
    ensures { (key : List ℕ) → states ≡ states_of key → code result ≡ refusal (ticket_rows latest key ticket.now) }
{
    let tag = sha256::tag(states, &ticket[0..layout::TAGGED_SIZE]);
    if !sha256::same_tag(&tag, &ticket[layout::TAGGED_SIZE..layout::TICKET_SIZE]) {
        return Err(Refusal::TicketTag);
    }
    if !times::is_timely(
        read_first(ticket),
        read_issued(ticket),
        read_wait(ticket),
        latest,
    ) {
        return Err(Refusal::TicketTimes);
    }
    Ok(())
}

// The fields of a ticket that passed its check.
fn fields(ticket: &[u8]) -> Ticket
    requires { length ticket.now ≡ ticket_size }
    ensures { result ≡ ticket_in (ticket_body ticket.now) }
{
    let hash = octets::array(ticket, layout::HASH_AT);
    let first = read_first(ticket);
    let issued = read_issued(ticket);
    let wait = read_wait(ticket);
    Ticket {
        hash,
        first,
        issued,
        wait,
    }
}

fn check_read(key: &[u8], ticket: &[u8]) -> Result<(), Refusal>
    ensures { code result ≡ refusal (ticket_read_rows key.now ticket.now) }
{
    if key.len() != settings::KEY_SIZE {
        return Err(Refusal::Length);
    }
    if !is_formed(ticket) {
        return Err(Refusal::TicketForm);
    }
    check_ticket(sha256::key_states(key), ticket, settings::LAST_CLOCK)
}

// Reads the fields of a ticket under a key.
pub fn read_ticket(key: &[u8], ticket: &[u8]) -> Result<Ticket, Refusal>
    ensures { as_ticket_read result ≡ ticket_read key.now ticket.now }
{
    check_read(key, ticket)?;
    Ok(fields(ticket))
}

// The bytes that the tag is over.
fn fill_tagged(out: &mut [u8], ticket: &Ticket)
    requires { length out.old ≡ ticket_size }
    ensures { out.new ≡ put 0 (tagged_of ticket.now) out.old }
{
    out[0] = layout::TICKET_KIND;
    octets::copy(out, layout::HASH_AT, &ticket.hash);
    octets::write_u64(out, layout::FIRST_AT, ticket.first);
    octets::write_u64(out, layout::ISSUED_AT, ticket.issued);
    octets::write_u64(out, layout::WAIT_AT, ticket.wait);
}

// Writes a ticket, by the states of the key, into a buffer of just its length.
pub fn fill_ticket(states: KeyStates, out: &mut [u8], ticket: &Ticket)
    requires { length out.old ≡ ticket_size }
    ensures { (key : List ℕ) → states ≡ states_of key → out.new ≡ ticket_of key ticket.now }
{
    fill_tagged(out, ticket);
    let tag = sha256::tag(states, &out[0..layout::TAGGED_SIZE]);
    octets::copy(out, layout::TAGGED_SIZE, &tag);
}

// The check of fields to be written: the lengths of the key, the buffer and the hash, then the times.
fn check_fields(
    key: &[u8],
    out: &[u8],
    hash: &[u8],
    first: u64,
    issued: u64,
    wait: u64,
) -> Result<(), Refusal>
    ensures { code result ≡ refusal (ticket_write_rows key.now out.now (ticket_fields hash.now first issued wait)) }
{
    if key.len() != settings::KEY_SIZE {
        return Err(Refusal::Length);
    }
    if out.len() != layout::TICKET_SIZE {
        return Err(Refusal::Length);
    }
    if hash.len() != layout::HASH_SIZE {
        return Err(Refusal::Length);
    }
    if !times::is_timely(first, issued, wait, settings::LAST_CLOCK) {
        return Err(Refusal::TicketTimes);
    }
    Ok(())
}

// Writes a ticket's fields under a key into a lent buffer, or refuses them and leaves it as it was.
pub fn write_ticket(
    key: &[u8],
    out: &mut [u8],
    hash: &[u8],
    first: u64,
    issued: u64,
    wait: u64,
) -> Result<(), Refusal>
    ensures { reply (code result) out.new ≡ ticket_written key.now out.old (ticket_fields hash.now first issued wait) }
{
    check_fields(key, out, hash, first, issued, wait)?;
    let states = sha256::key_states(key);
    let ticket = Ticket {
        hash: octets::array(hash, 0),
        first,
        issued,
        wait,
    };
    fill_ticket(states, out, &ticket);
    Ok(())
}
