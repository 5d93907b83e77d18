// The calls of the small-registrar profile for a host: the parameters and numbers of the full calls (calls.rt), but for the window, which is the usual one. A capacity
// above 64 is refusal 1 of each.
ghost use Rattle.std.specs.Prelude.{◌≡◌, eqb};
ghost use Rattle.cache.specs.Cache.{shape_of, small};
ghost use Rattle.listing.specs.Listing.{small_answer, small_buffer};
ghost use Rattle.search.specs.Newest.{small_newest_at};
ghost use Rattle.checks.specs.Request.{request, small_terms};
ghost use Rattle.admission.specs.Deciding.{moves_or};
ghost use Rattle.withdrawal.specs.Withdrawing.{withdrawal, withdrawn};
ghost use Rattle.registrar.specs.Registering.{registered_small};
ghost use Rattle.codes.specs.Codes.{minus, place_number, offset_or, listed_number};
ghost use Rattle.bounded.specs.Bounded.{registered_bounded};
ghost use Rattle.unglassot.specs.Host.{small_opened_by, HostKept, HostKeptWithin};

use record::Refusal;

// Makes an empty cache of all of the bytes, for addresses of IPv4 (`family` 4) or IPv6 (6).
pub fn unglassot_small_open(cache: &mut [u8], family: u64) -> i64
    ensures number { result ≡ minus (small_opened_by family cache.old).number }
    ensures cache { cache.new ≡ (small_opened_by family cache.old).buffer }
{
    match codes::family_told(family) {
        Some(named) => codes::for_done(registrar::small_open(cache, named)),
        None => codes::for_done(Err(Refusal::Cache)),
    }
}

// GET_ADS: entries whose stamps have grown older than thirty days are skipped.
pub fn unglassot_small_get_ads(cache: &[u8], clock: u64, service: &[u8], list: &mut [u8]) -> i64
    ensures number { result ≡ listed_number (small_answer cache.now clock service.now list.old) }
    ensures buffer { list.new ≡ small_buffer cache.now clock service.now list.old }
{
    codes::for_listing(registrar::small_get_ads(cache, clock, service, list))
}

// The newest advertisement of a service in two caches, looked for among those whose stamps have not grown older than thirty days.
pub fn unglassot_small_newest(
    first: &[u8],
    second: &[u8],
    clock: u64,
    service: &[u8],
    offset: &mut u64,
) -> i64
    ensures number { result ≡ place_number (small_newest_at first.now second.now clock service.now) }
    ensures offset { offset.new ≡ offset_or offset.old (small_newest_at first.now second.now clock service.now) }
{
    let place = search::small_newest_at(first, second, clock, service);
    let answer = codes::for_place(place, *offset);
    *offset = answer.1;
    answer.0
}

// WITHDRAW.
pub fn unglassot_small_withdraw(
    cache: &mut [u8],
    service: &[u8],
    peer: &[u8],
    clock: u64,
    vouched: u8,
) -> i64
    ensures number { result ≡ minus (withdrawn (small (shape_of cache.old)) (withdrawal cache.old service.now peer.now clock (eqb vouched 1))).number }
    ensures cache { cache.new ≡ (withdrawn (small (shape_of cache.old)) (withdrawal cache.old service.now peer.now clock (eqb vouched 1))).buffer }
{
    let is_vouched = codes::is_vouched(vouched);
    codes::for_done(registrar::small_withdraw(cache, service, peer, clock, is_vouched))
}

// REGISTER: the stamp of the advertisement is judged too, and one after the clock or older than thirty days is refusal 20.
pub fn unglassot_small_register(
    cache: &mut [u8],
    key: &[u8],
    clock: u64,
    ad: &[u8],
    vouched: u8,
    ticket: &[u8],
    reply: &mut [u8],
    moves: &mut u64,
) -> i64
    ensures kept { HostKept (small (shape_of cache.old)) small_terms (request cache.old key.now clock ad.now (eqb vouched 1) ticket.now reply.old) result cache.new reply.new }
    ensures moves { moves.new ≡ moves_or moves.old (registered_small (request cache.old key.now clock ad.now (eqb vouched 1) ticket.now reply.old)).answer }
{
    let is_vouched = codes::is_vouched(vouched);
    let answered = registrar::small_register(cache, key, clock, ad, is_vouched, ticket, reply);
    let answer = codes::for_registration(answered, *moves);
    *moves = answer.1;
    answer.0
}

// REGISTER with lower bounds, the stamp judged.
pub fn unglassot_small_register_bounded(
    cache: &mut [u8],
    bounds: &mut [u8],
    key: &[u8],
    clock: u64,
    ad: &[u8],
    vouched: u8,
    ticket: &[u8],
    reply: &mut [u8],
    moves: &mut u64,
) -> i64
    ensures kept { HostKeptWithin (small (shape_of cache.old)) small_terms bounds.old (request cache.old key.now clock ad.now (eqb vouched 1) ticket.now reply.old) result cache.new bounds.new reply.new }
    ensures moves { moves.new ≡ moves_or moves.old (registered_bounded (small (shape_of cache.old)) small_terms bounds.old (request cache.old key.now clock ad.now (eqb vouched 1) ticket.now reply.old)).answer }
{
    let is_vouched = codes::is_vouched(vouched);
    let answered = bounded::small_register_bounded(
        cache, bounds, key, clock, ad, is_vouched, ticket, reply,
    );
    let answer = codes::for_registration(answered, *moves);
    *moves = answer.1;
    answer.0
}
