// WITHDRAW: an advertisement is taken back. Its entry gets the kind of withdrawn ones, in the bytes that the caller lends: it is listed no more, and
// counts until it expires.
#![tactic(auto)]

ghost use Rattle.std.specs.Prelude.{◌≡◌, true, ◌*◌, ◌≤◌, length, drop, position};
ghost use Rattle.record.specs.Layout.{entry_address_at};
ghost use Rattle.record.specs.Refusals.{code, refusal, reply as answer_of};
ghost use Rattle.cache.specs.Chunks.{chunks};
ghost use Rattle.cache.specs.Cache.{max_capacity, Sound, shape_of, limited, small, count_of, entries};
ghost use Rattle.cache.specs.Check.{head_holds};
ghost use Rattle.withdrawal.specs.Withdrawing.{withdrawal, standing, pair_rows, request_rows, withdrawn, place_of};

use cache::{Kinds, Shape};
use record::{Refusal, layout};

// Refuses a service or a peer of another length than an identifier's.
fn check_pair(service: &[u8], peer: &[u8]) -> Result<(), Refusal>
    ensures { code result ≡ refusal (pair_rows service.now peer.now) }
{
    if service.len() != layout::IDENTIFIER_SIZE || peer.len() != layout::IDENTIFIER_SIZE {
        return Err(Refusal::Length);
    }
    Ok(())
}

// Refuses the request by itself: refusals 1, 2, 3 and 5. The clock is read off a cache that is well formed, and so behind 1.
fn check_request(
    shape: Shape,
    cache: &[u8],
    service: &[u8],
    peer: &[u8],
    clock: u64,
    vouched: bool,
) -> Result<(), Refusal>
    requires { Sound shape }
    ensures { code result ≡ refusal (request_rows shape (withdrawal cache.now service.now peer.now clock vouched)) }
{
    cache::check_cache(shape, cache)?;
    check_pair(service, peer)?;
    cache::check_clock(cache, clock)?;
    checks::check_vouched(vouched)
}

// Whether an entry is of the service and the peer, and not withdrawn.
fn is_standing(entry: &[u8], kinds: Kinds, service: &[u8], peer: &[u8]) -> bool
    requires { entry_address_at ≤ length entry.now }
    ensures { result ≡ standing kinds service.now peer.now entry.now }
{
    entry[layout::KIND_AT] != kinds.withdrawn
        && octets::equal(
            &entry[layout::ENTRY_SERVICE_AT..layout::ENTRY_PEER_AT],
            service,
        )
        && octets::equal(
            &entry[layout::ENTRY_PEER_AT..layout::ENTRY_ADDRESS_AT],
            peer,
        )
}

// How many of n entries stand before the first that is of the pair and not withdrawn, if there is one.
fn find(
    stored: &[u8],
    width: usize,
    n: usize,
    kinds: Kinds,
    service: &[u8],
    peer: &[u8],
) -> Option<usize>
    requires { (entry_address_at ≤ width) × (width * n ≤ length stored.now) }
    ensures { result ≡ position (standing kinds service.now peer.now) (chunks width n stored.now) }
{
    stored[..width * n]
        .chunks_exact(width)
        .position(|entry| is_standing(entry, kinds, service, peer))
}

// Where the kind of the oldest such entry behind so many stands once those are gone, if there is one.
fn place_of(shape: Shape, cache: &[u8], service: &[u8], peer: &[u8], passed: usize) -> Option<usize>
    requires sound { Sound shape × (head_holds shape cache.now ≡ true) }
    requires passed_bound { passed ≤ count_of cache.now }
    ensures { result ≡ place_of shape (standing shape.kinds service.now peer.now) (drop passed (entries shape cache.now)) }
{
    let considered = cache::count(cache) - passed;
    let stored = cache::stored_from(shape, cache, passed);
    let before = find(
        stored,
        shape.width(),
        considered,
        shape.kinds,
        service,
        peer,
    )?;
    Some(shape.slot_at(before))
}

// WITHDRAW for an address family.
fn withdraw_as(
    shape: Shape,
    cache: &mut [u8],
    service: &[u8],
    peer: &[u8],
    clock: u64,
    vouched: bool,
) -> Result<(), Refusal>
    requires { Sound shape }
    ensures { answer_of (code result) cache.new ≡ withdrawn shape (withdrawal cache.old service.now peer.now clock vouched) }
{
    let kind = shape.kinds.withdrawn;
    check_request(shape, cache, service, peer, clock, vouched)?;
    let gone = cache::gone(shape, cache, clock);
    let Some(place) = place_of(shape, cache, service, peer, gone) else {
        return Err(Refusal::NotHeld);
    };
    upkeep::expire(shape, cache, clock, gone);
    cache[place] = kind;
    Ok(())
}

// WITHDRAW with a largest capacity. Both calls come here: the shape is told in one place, and what is compiled for it serves both.
fn withdraw_within(
    cache: &mut [u8],
    service: &[u8],
    peer: &[u8],
    clock: u64,
    vouched: bool,
    most: usize,
) -> Result<(), Refusal>
    requires { most ≤ max_capacity }
    ensures { answer_of (code result) cache.new ≡ withdrawn (limited most (shape_of cache.old)) (withdrawal cache.old service.now peer.now clock vouched) }
{
    withdraw_as(
        cache::shape_of(cache).limited(most),
        cache,
        service,
        peer,
        clock,
        vouched,
    )
}

// WITHDRAW: takes the oldest live advertisement of the service and the peer that is not withdrawn off the list, or refuses and leaves
// everything as it was. It keeps its place and counts until it expires. `vouched` says that the host found the request's signature good.
pub fn withdraw(
    cache: &mut [u8],
    service: &[u8],
    peer: &[u8],
    clock: u64,
    vouched: bool,
) -> Result<(), Refusal>
    ensures { answer_of (code result) cache.new ≡ withdrawn (shape_of cache.old) (withdrawal cache.old service.now peer.now clock vouched) }
{
    withdraw_within(cache, service, peer, clock, vouched, settings::MAX_CAPACITY)
}

// WITHDRAW under the small-registrar profile: the capacity is at most 64.
pub fn small_withdraw(
    cache: &mut [u8],
    service: &[u8],
    peer: &[u8],
    clock: u64,
    vouched: bool,
) -> Result<(), Refusal>
    ensures { answer_of (code result) cache.new ≡ withdrawn (small (shape_of cache.old)) (withdrawal cache.old service.now peer.now clock vouched) }
{
    withdraw_within(
        cache,
        service,
        peer,
        clock,
        vouched,
        settings::SMALL_CAPACITY,
    )
}
