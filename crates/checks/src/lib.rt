// The checks of REGISTER: refusals 1, 18, 2, 3, 4, 13, 14, 5, 20 and 6 to 11, in that order, which is the table's. A call that passes them all is answered with
// what was found on the way, so that the entries are walked, the ticket is read, the ad is hashed and the key's states are made once. Not here: 19, which needs the wait.
#![tactic(auto)]

ghost use Rattle.std.specs.Prelude.{◌≡◌, [], ◌∷◌, true, not, ◌≤◌, length};
ghost use Rattle.octets.specs.Runs.{both};
ghost use Rattle.settings.specs.Settings.{most_window, last_clock};
ghost use Rattle.times.specs.Times.{timely, is_window};
ghost use Rattle.record.specs.Layout.{address_size_v6, ad_size, hash_size, ticket_size, ticket_body, first, issued, wait};
ghost use Rattle.record.specs.Refusals.{row, refusal, code};
ghost use Rattle.cache.specs.Cache.{Sound};
ghost use Rattle.cache.specs.Rows.{cache_rows};
ghost use Rattle.ticket.specs.Tickets.{ad_hash};
ghost use Rattle.checks.specs.Request.{request, belongs, unbounded};
ghost use Rattle.checks.specs.Rows.{length_rows, vouched_rows, stamp_rows, bound_rows, return_rows, own_rows, Verdict, CheckedAs};

use cache::Shape;
use load::Counts;
use record::{Refusal, layout};
use sha256::KeyStates;

// What a call of REGISTER goes by beside its slices and its shape: for how many milliseconds after it is due a ticket is taken, whether the ad's stamp is judged,
// and what its caller found in the lower bounds: whether they are of their form, the floor under the wait that is used, and whether there is room for a ticket's
// bound.
#[derive(Clone, Copy)]
pub struct Terms {
    pub window: u64,
    pub judged: bool,
    pub formed: bool,
    pub floor: u64,
    pub room: bool,
}

impl Terms {
    // What a call goes by that knows no lower bounds: nothing is wrong with their form, no wait has a floor and no ticket lacks room.
    pub fn unbounded(window: u64, judged: bool) -> Terms
        ensures { result ≡ unbounded window judged }
    {
        Terms {
            window,
            judged,
            formed: true,
            floor: 0,
            room: true,
        }
    }
}

// What the checks find where they refuse nothing: what was counted for the ad, when its advertiser first asked, the ad's hash, and for a return the key's states,
// which its ticket was checked by. A first request has no ticket to check, and so no states.
#[derive(Clone, Copy)]
pub struct Checked {
    pub found: Counts,
    pub first: u64,
    pub hash: [u8; layout::HASH_SIZE],
    pub states: Option<KeyStates>,
}

// Refusal 2, of the registration window.
fn check_window(window: u64) -> Result<(), Refusal>
    ensures { code result ≡ refusal (row 2 (not (is_window window)) ∷ []) }
{
    if times::is_window(window) {
        return Ok(());
    }
    Err(Refusal::Length)
}

// Refusal 2, of the key's length, that of the reply's buffer, which is not read, and the registration window.
fn check_length(window: u64, key: &[u8], reply: &[u8]) -> Result<(), Refusal>
    ensures { code result ≡ refusal (length_rows window key.now reply.now) }
{
    if key.len() != settings::KEY_SIZE {
        return Err(Refusal::Length);
    }
    if reply.len() != layout::TICKET_SIZE {
        return Err(Refusal::Length);
    }
    check_window(window)
}

// Refusal 5.
pub fn check_vouched(vouched: bool) -> Result<(), Refusal>
    ensures { code result ≡ refusal (vouched_rows vouched) }
{
    if !vouched {
        return Err(Refusal::Unvouched);
    }
    Ok(())
}

// Refusals 18, 2 to 4, 13, 14 and 5, of a request by itself that has passed 1, which is asked by the walk that counts. The clock is read off a cache that is
// well formed, and so behind 1.
fn check_request(
    shape: Shape,
    terms: Terms,
    cache: &[u8],
    key: &[u8],
    clock: u64,
    ad: &[u8],
    vouched: bool,
    reply: &[u8],
) -> Result<(), Refusal>
    requires sound { Sound shape }
    requires passed { 0 ≡ refusal (cache_rows shape cache.now) }
    ensures { code result ≡ refusal (own_rows shape terms cache.now key.now clock ad.now vouched reply.now) }
{
    let address = shape.address;
    let kind = shape.kinds.ad;
    if !terms.formed {
        return Err(Refusal::Bounds);
    }
    check_length(terms.window, key, reply)?;
    cache::check_clock(cache, clock)?;
    record::ad::check_ad(ad, address, kind)?;
    check_vouched(vouched)
}

// Refusal 20: where stamps are judged, the ad's is after the clock or has grown too old.
fn check_stamp(judged: bool, address: usize, clock: u64, ad: &[u8]) -> Result<(), Refusal>
    requires { (address ≤ address_size_v6) × (length ad.now ≡ ad_size address) }
    ensures { code result ≡ refusal (stamp_rows judged address clock ad.now) }
{
    if !judged {
        return Ok(());
    }
    let stamp = octets::read_u64(ad, layout::STAMP_FIXED + address);
    if !times::is_fresh(clock, stamp) {
        return Err(Refusal::Stamp);
    }
    Ok(())
}

// Whether a ticket belongs to an ad of this hash: the one on it is the same, to the last byte.
fn belongs_to(ticket: &[u8], hash: &[u8]) -> bool
    requires { (length ticket.now ≡ ticket_size) × (length hash.now ≡ hash_size) }
    ensures { result ≡ belongs ticket.now hash.now }
{
    octets::equal(
        &ticket[layout::HASH_AT..layout::FIRST_AT],
        &hash[0..layout::HASH_SIZE],
    )
}

// Refusals 10 and 11, of a ticket that passed its own check, for an ad of this hash.
fn check_bound(window: u64, clock: u64, hash: &[u8], ticket: &[u8]) -> Result<(), Refusal>
    requires ticket_len { (length ticket.now ≡ ticket_size) × (length hash.now ≡ hash_size) }
    requires clock_le_last_clock { (clock ≤ last_clock) × (window ≤ most_window) }
    requires ticket_value { timely clock (first (ticket_body ticket.now)) (issued (ticket_body ticket.now)) (wait (ticket_body ticket.now)) ≡ true }
    ensures { code result ≡ refusal (bound_rows window clock hash.now ticket.now) }
{
    if !belongs_to(ticket, hash) {
        return Err(Refusal::OtherAd);
    }
    let due = ticket::read_issued(ticket) + ticket::read_wait(ticket);
    if !times::in_window(window, due, clock) {
        return Err(Refusal::OutsideWindow);
    }
    Ok(())
}

// Refusals 7 to 11, of a ticket that is brought, beside what was counted for the ad.
fn check_return(
    terms: Terms,
    found: Counts,
    key: &[u8],
    clock: u64,
    ad: &[u8],
    ticket: &[u8],
) -> Result<Checked, Refusal>
    requires { (clock ≤ last_clock) × (terms.window ≤ most_window) }
    ensures { Verdict (refusal (return_rows terms.window key.now clock ad.now ticket.now)) found (first (ticket_body ticket.now)) (ad_hash ad.now) key.now true result }
{
    if !ticket::is_formed(ticket) {
        return Err(Refusal::TicketForm);
    }
    let states = sha256::key_states(key);
    ticket::check_ticket(states, ticket, clock)?;
    let hash = ticket::ad_hash(ad);
    check_bound(terms.window, clock, &hash, ticket)?;
    let first = ticket::read_first(ticket);
    Ok(Checked {
        found,
        first,
        hash,
        states: Some(states),
    })
}

// Whether a call is worth a count: not where 18 or 5 is given, or one before them.
fn is_counted(terms: Terms, vouched: bool) -> bool
    ensures { result ≡ both terms.formed vouched }
{
    terms.formed && vouched
}

// The first refusal whose condition is true, or what a call without one is answered from. `reply` is the buffer for a ticket, and is not read.
pub fn check(
    shape: Shape,
    terms: Terms,
    cache: &[u8],
    key: &[u8],
    clock: u64,
    ad: &[u8],
    vouched: bool,
    ticket: &[u8],
    reply: &[u8],
) -> Result<Checked, Refusal>
    requires { Sound shape }
    ensures { CheckedAs shape terms (request cache.now key.now clock ad.now vouched ticket.now reply.now) result }
{
    let wanted = is_counted(terms, vouched);
    let found = load::count(shape, cache, clock, ad, wanted)?;
    check_request(shape, terms, cache, key, clock, ad, vouched, reply)?;
    check_stamp(terms.judged, shape.address, clock, ad)?;
    if found.held != 0 {
        return Err(Refusal::AlreadyHeld);
    }
    if ticket.len() == 0 {
        let hash = ticket::ad_hash(ad);
        return Ok(Checked {
            found,
            first: clock,
            hash,
            states: None,
        });
    }
    check_return(terms, found, key, clock, ad, ticket)
}
