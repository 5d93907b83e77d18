// The registrar's calls for a host, the full ones; those of the small-registrar profile stand in small.rt.
ghost use Rattle.std.specs.Prelude.{◌≡◌, eqb};
ghost use Rattle.cache.specs.Cache.{shape_of};
ghost use Rattle.listing.specs.Listing.{listing_answer, listing_buffer};
ghost use Rattle.search.specs.Newest.{newest_at};
ghost use Rattle.checks.specs.Request.{request, terms};
ghost use Rattle.admission.specs.Deciding.{moves_or};
ghost use Rattle.withdrawal.specs.Withdrawing.{withdrawal, withdrawn};
ghost use Rattle.registrar.specs.Identifier.{identified};
ghost use Rattle.registrar.specs.Registering.{registered_under};
ghost use Rattle.codes.specs.Codes.{minus, place_number, offset_or, listed_number};
ghost use Rattle.bounded.specs.Bounded.{registered_bounded};
ghost use Rattle.unglassot.specs.Host.{opened_by, HostKept, HostKeptWithin};

use record::Refusal;

// Makes an empty cache of all of the bytes, for addresses of IPv4 (`family` 4) or IPv6 (6).
pub fn unglassot_open(cache: &mut [u8], family: u64) -> i64
    ensures number { result ≡ minus (opened_by family cache.old).number }
    ensures cache { cache.new ≡ (opened_by family cache.old).buffer }
{
    match codes::family_told(family) {
        Some(named) => codes::for_done(registrar::open(cache, named)),
        None => codes::for_done(Err(Refusal::Cache)),
    }
}

// GET_ADS: lists the live advertisements of a service that are not withdrawn, and answers how many.
pub fn unglassot_get_ads(cache: &[u8], clock: u64, service: &[u8], list: &mut [u8]) -> i64
    ensures number { result ≡ listed_number (listing_answer (shape_of cache.now) cache.now clock service.now list.old) }
    ensures buffer { list.new ≡ listing_buffer (shape_of cache.now) cache.now clock service.now list.old }
{
    codes::for_listing(registrar::get_ads(cache, clock, service, list))
}

// WITHDRAW: takes the oldest live advertisement of a service and a peer off the list, and answers 0. `vouched` is yes exactly at 1.
pub fn unglassot_withdraw(
    cache: &mut [u8],
    service: &[u8],
    peer: &[u8],
    clock: u64,
    vouched: u8,
) -> i64
    ensures number { result ≡ minus (withdrawn (shape_of cache.old) (withdrawal cache.old service.now peer.now clock (eqb vouched 1))).number }
    ensures cache { cache.new ≡ (withdrawn (shape_of cache.old) (withdrawal cache.old service.now peer.now clock (eqb vouched 1))).buffer }
{
    let is_vouched = codes::is_vouched(vouched);
    codes::for_done(registrar::withdraw(cache, service, peer, clock, is_vouched))
}

// The newest advertisement of a service in two caches: 1 or 2 for the cache that holds it, 0 where neither does. `offset` gets where its body begins in that
// cache, and is left as it was where there is none.
pub fn unglassot_newest(
    first: &[u8],
    second: &[u8],
    clock: u64,
    service: &[u8],
    offset: &mut u64,
) -> i64
    ensures number { result ≡ place_number (newest_at first.now second.now clock service.now) }
    ensures offset { offset.new ≡ offset_or offset.old (newest_at first.now second.now clock service.now) }
{
    let place = search::newest_at(first, second, clock, service);
    let answer = codes::for_place(place, *offset);
    *offset = answer.1;
    answer.0
}

// The identifier of a service: the SHA-256 of its protocol ID.
pub fn unglassot_service_id(protocol: &[u8], id: &mut [u8]) -> i64
    ensures number { result ≡ minus (identified protocol.now id.old).number }
    ensures buffer { id.new ≡ (identified protocol.now id.old).buffer }
{
    codes::for_done(registrar::service_id(protocol, id))
}

// REGISTER: admits an advertisement, or says how long to wait and writes a ticket to come back with. `window` is the registration window in
// milliseconds, `vouched` is yes exactly at 1; `moves` gets how many held entries changed their place, and a refusal leaves it as it was.
pub fn unglassot_register(
    cache: &mut [u8],
    key: &[u8],
    window: u64,
    clock: u64,
    ad: &[u8],
    vouched: u8,
    ticket: &[u8],
    reply: &mut [u8],
    moves: &mut u64,
) -> i64
    ensures kept { HostKept (shape_of cache.old) (terms window) (request cache.old key.now clock ad.now (eqb vouched 1) ticket.now reply.old) result cache.new reply.new }
    ensures moves { moves.new ≡ moves_or moves.old (registered_under window (request cache.old key.now clock ad.now (eqb vouched 1) ticket.now reply.old)).answer }
{
    let is_vouched = codes::is_vouched(vouched);
    let answered = registrar::register(cache, key, window, clock, ad, is_vouched, ticket, reply);
    let answer = codes::for_registration(answered, *moves);
    *moves = answer.1;
    answer.0
}

// REGISTER with lower bounds of waits behind the cache, zeros at first: a wait is never shorter than the bound of its service and address says, and a ticket that
// is issued enters its own, so that asking again from the start never shortens a wait.
pub fn unglassot_register_bounded(
    cache: &mut [u8],
    bounds: &mut [u8],
    key: &[u8],
    window: u64,
    clock: u64,
    ad: &[u8],
    vouched: u8,
    ticket: &[u8],
    reply: &mut [u8],
    moves: &mut u64,
) -> i64
    ensures kept { HostKeptWithin (shape_of cache.old) (terms window) bounds.old (request cache.old key.now clock ad.now (eqb vouched 1) ticket.now reply.old) result cache.new bounds.new reply.new }
    ensures moves { moves.new ≡ moves_or moves.old (registered_bounded (shape_of cache.old) (terms window) bounds.old (request cache.old key.now clock ad.now (eqb vouched 1) ticket.now reply.old)).answer }
{
    let is_vouched = codes::is_vouched(vouched);
    let answered = bounded::register_bounded(
        cache, bounds, key, window, clock, ad, is_vouched, ticket, reply,
    );
    let answer = codes::for_registration(answered, *moves);
    *moves = answer.1;
    answer.0
}
