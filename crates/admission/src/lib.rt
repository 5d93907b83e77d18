// What REGISTER does once its checks are passed: the wait that is used for an advertisement, refusal 19, and the answer by a wait, with the cache and the
// ticket that it leaves. Not here: the checks.
#![tactic(auto)]

ghost use Rattle.std.specs.Prelude.{◌≡◌, true, IfSome, ◌≤◌, ◌<◌, max, length};
ghost use Rattle.settings.specs.Settings.{last_clock};
ghost use Rattle.sha256.specs.Hmac.{states_of};
ghost use Rattle.record.specs.Layout.{ad_size, ticket_size};
ghost use Rattle.record.specs.Refusals.{refusal, code};
ghost use Rattle.ticket.specs.Tickets.{ad_hash, ticket_fields, ticket_of};
ghost use Rattle.cache.specs.Cache.{Sound, capacity_of, clock_of, well_formed};
ghost use Rattle.cache.specs.Expiry.{cleared};
ghost use Rattle.upkeep.specs.Moves.{moved};
ghost use Rattle.load.specs.Counts.{counts_in};
ghost use Rattle.wait.specs.Wait.{InRange, wait_of};
ghost use Rattle.admission.specs.Admission.{bits, wait_in, holding, Stays};
ghost use Rattle.admission.specs.Deciding.{space_rows, outcome, judged};
ghost use Rattle.admission.specs.Ready.{Ready};
ghost use Rattle.admission.specs.Registered.{as_decided};

use cache::Shape;
use load::Counts;
use record::{Refusal, layout};
use sha256::KeyStates;
use ticket::Ticket;
use times::Millis;

// What REGISTER answers a call that it does not refuse: CONFIRMED and WAIT tell last how many held entries changed their place in the call.
#[derive(Clone, Copy)]
pub enum Decision {
    Confirmed(usize),
    Wait(Millis, usize),
}

// The wait that is used, of the cache as it is and what was counted in it for an advertisement: the recipe's, or the floor where that is longer.
pub fn wait_for(shape: Shape, floor: u64, cache: &[u8], found: Counts) -> Millis
    requires sound { Sound shape }
    requires cache_value { well_formed shape cache.now ≡ true }
    requires in_range { InRange (bits shape) (capacity_of cache.now) found.live found.service found.similarity }
    ensures { result.0 ≡ max (wait_of (bits shape) (capacity_of cache.now) found.live found.service found.similarity) floor }
{
    let bytes = shape.address;
    let capacity = cache::capacity(cache) as u64;
    let recipe = wait::wait(
        8 * bytes as u64,
        capacity,
        found.live as u64,
        found.service as u64,
        found.similarity as u64,
    );
    Millis(recipe.0.max(floor))
}

// Refusal 19: a ticket would be issued, since the wait is not stayed, and there is no room for its bound.
pub fn check_space(room: bool, wait: Millis, stayed: Millis) -> Result<(), Refusal>
    ensures { code result ≡ refusal (space_rows room wait.0 stayed.0) }
{
    if room {
        return Ok(());
    }
    if times::is_over(wait, stayed) {
        return Ok(());
    }
    Err(Refusal::BoundsFull)
}

// Admits an advertisement where so many entries are live and so many gone: the gone leave, and it is held with the clock as its accepted time. Answers how many
// entries that moves; the newcomer is none of them.
fn admit(shape: Shape, cache: &mut [u8], clock: u64, live: usize, gone: usize, ad: &[u8]) -> usize
    requires sound { Sound shape }
    requires cache_value { well_formed shape cache.old ≡ true }
    requires cache_bound { (clock_of cache.old ≤ clock) × (clock ≤ last_clock) }
    requires ad_len { length ad.now ≡ ad_size shape.address }
    requires ad_bound { (counts_in shape cache.old clock ad.now).live < capacity_of cache.old }
    requires stays { Stays shape clock cache.old live gone }
    ensures cache { cache.new ≡ holding shape clock ad.now cache.old }
    ensures moves { result ≡ moved 1 cache.old cache.new }
{
    upkeep::expire(shape, cache, clock, gone);
    upkeep::append(shape, cache, clock, ad);
    upkeep::count_moved(gone, live)
}

// The key's states for a ticket: those that the ticket which was brought was checked by, or, where none was, made now.
fn states_for(key: &[u8], states: Option<KeyStates>) -> KeyStates
    requires { IfSome states (λ s. s ≡ states_of key.now) }
    ensures { result ≡ states_of key.now }
{
    match states {
        Some(known) => known,
        None => sha256::key_states(key),
    }
}

// Puts an advertiser off: the expired leave, and the reply gets a ticket to come back with, for the ad of the hash. Answers how many entries that moves.
fn postpone(
    shape: Shape,
    cache: &mut [u8],
    key: &[u8],
    states: Option<KeyStates>,
    clock: u64,
    live: usize,
    gone: usize,
    hash: [u8; layout::HASH_SIZE],
    first: u64,
    wait: Millis,
    reply: &mut [u8],
) -> usize
    requires sound { Sound shape }
    requires cache_value { well_formed shape cache.old ≡ true }
    requires cache_bound { (clock_of cache.old ≤ clock) × (clock ≤ last_clock) }
    requires reply_len { length reply.old ≡ ticket_size }
    requires stays { Stays shape clock cache.old live gone }
    requires states_value { IfSome states (λ s. s ≡ states_of key.now) }
    ensures cache { cache.new ≡ cleared shape clock cache.old }
    ensures moves { result ≡ moved 0 cache.old cache.new }
    ensures reply { reply.new ≡ ticket_of key.now (ticket_fields hash first clock wait.0) }
{
    upkeep::expire(shape, cache, clock, gone);
    let known = states_for(key, states);
    let ticket = Ticket {
        hash,
        first,
        issued: clock,
        wait: wait.0,
    };
    ticket::fill_ticket(known, reply, &ticket);
    upkeep::count_moved(gone, live)
}

// Answers a call that has no refusal, by the wait that is used, which is not below the recipe's, and by the time of the first request: who has stayed so
// long is confirmed, an equal time is enough, and all others wait. `live` is how many entries are, `hash` the ad's, and `states` the key's where they are known already.
pub fn decide(
    shape: Shape,
    wait: Millis,
    first: u64,
    live: usize,
    cache: &mut [u8],
    key: &[u8],
    states: Option<KeyStates>,
    clock: u64,
    ad: &[u8],
    hash: [u8; layout::HASH_SIZE],
    reply: &mut [u8],
) -> Decision
    requires ready { Ready shape cache.old clock ad.now reply.old }
    requires first_le_clock { (first ≤ clock) × (hash ≡ ad_hash ad.now) }
    requires live_value { live ≡ (counts_in shape cache.old clock ad.now).live }
    requires ad_bound { wait_in shape cache.old clock ad.now ≤ wait.0 }
    requires states_value { IfSome states (λ s. s ≡ states_of key.now) }
    ensures { outcome (as_decided result) cache.new reply.new ≡ judged shape wait.0 first cache.old key.now clock ad.now reply.old }
{
    let stayed = Millis(clock - first);
    let gone = cache::count(cache) - live;
    if times::is_over(wait, stayed) {
        let moves = admit(shape, cache, clock, live, gone, ad);
        return Decision::Confirmed(moves);
    }
    let left = times::remaining(wait, stayed);
    let moves = postpone(
        shape, cache, key, states, clock, live, gone, hash, first, left, reply,
    );
    Decision::Wait(left, moves)
}
