// The newest advertisement of a service in two caches: its body, as a part of the cache that holds it. Both caches may be one and the same slice.
// Every call answers on every input: a refusal too, all of the first cache's before all of the second's. Under the small-registrar profile stamps that have
// grown older than thirty days are passed over.
#![tactic(auto)]

ghost use Rattle.std.specs.Prelude.{true, ◌≡◌, ◌+◌, ◌*◌, ◌≤◌, length};
ghost use Rattle.record.specs.Layout.{body_size};
ghost use Rattle.record.specs.Refusals.{code, refusal};
ghost use Rattle.cache.specs.Chunks.{chunks};
ghost use Rattle.cache.specs.Cache.{max_capacity, shape_of, limited, Sound, well_formed, width as width_of};
ghost use Rattle.search.specs.Place.{as_place, as_best};
ghost use Rattle.search.specs.Newest.{offers, up_to, last_of, newest_in, search_rows_as, body_at, newest_at_as, body_from, newest_body_as, search_rows, newest_at, newest_body, small_search_rows, small_newest_at, small_newest_body};

use cache::Shape;
use record::{Refusal, layout};

// The newest entry that is wanted of a cache: its index and its accepted time.
#[derive(Clone, Copy)]
pub struct Latest {
    index: usize,
    accepted: u64,
}

// Where the body begins: in which cache, and so many bytes into it.
#[derive(Clone, Copy)]
pub enum Found {
    First(usize),
    Second(usize),
}

// The index of the last of n entries that is wanted, which is the first that is met from the end.
fn last_wanted(
    shape: Shape,
    stored: &[u8],
    n: usize,
    clock: u64,
    oldest: u64,
    service: &[u8],
) -> Option<usize>
    requires { Sound shape × (width_of shape * n ≤ length stored.now) }
    ensures { up_to result ≡ last_of (offers shape oldest clock service.now) (chunks (width_of shape) n stored.now) }
{
    let kinds = shape.kinds;
    let address = shape.address;
    let width = shape.width();
    let from = times::horizon(clock);
    // By an index: `rposition` of `chunks_exact` divides at each step from the end, and took 25 times as long.
    for index in (0..n).rev() {
        let at = width * index;
        let entry = &stored[at..at + width];
        if listing::wanted(entry, kinds, from, service)
            && listing::not_older(entry, address, oldest)
        {
            return Some(index);
        }
    }
    None
}

// The newest entry of a cache that is wanted. Accepted times never fall, so it is the last one.
fn newest_in(shape: Shape, oldest: u64, cache: &[u8], clock: u64, service: &[u8]) -> Option<Latest>
    requires sound { Sound shape }
    requires cache_value { well_formed shape cache.now ≡ true }
    ensures { as_best result ≡ newest_in shape oldest cache.now clock service.now }
{
    let n = cache::count(cache);
    let stored = cache::stored_from(shape, cache, 0);
    let index = last_wanted(shape, stored, n, clock, oldest, service)?;
    let at = shape.slot_at(index);
    let accepted = octets::read_u64(cache, at + layout::ACCEPTED_AT);
    Some(Latest { index, accepted })
}

// The check of a search of both caches, each of a shape.
fn check_as(
    near: Shape,
    far: Shape,
    first: &[u8],
    second: &[u8],
    clock: u64,
    service: &[u8],
) -> Result<(), Refusal>
    requires { Sound near × Sound far }
    ensures { code result ≡ refusal (search_rows_as near far first.now second.now clock service.now) }
{
    listing::check_ask(near, first, clock, service)?;
    listing::check_ask(far, second, clock, service)
}

// The same with a largest capacity, for caches of either family.
#[tactic(auto, using(cache::proofs::Small::limited_sound, cache::proofs::Shapes::shape_sound))]
fn check_within(
    most: usize,
    first: &[u8],
    second: &[u8],
    clock: u64,
    service: &[u8],
) -> Result<(), Refusal>
    requires { most ≤ max_capacity }
    ensures { code result ≡ refusal (search_rows_as (limited most (shape_of first.now)) (limited most (shape_of second.now)) first.now second.now clock service.now) }
{
    let near = cache::shape_of(first).limited(most);
    let far = cache::shape_of(second).limited(most);
    check_as(near, far, first, second, clock, service)
}

// The check of a search of both caches.
#[tactic(auto, using(cache::proofs::Small::limited_full))]
pub fn check_newest(first: &[u8], second: &[u8], clock: u64, service: &[u8]) -> Result<(), Refusal>
    ensures { code result ≡ refusal (search_rows first.now second.now clock service.now) }
{
    check_within(settings::MAX_CAPACITY, first, second, clock, service)
}

// Where the body of the entry at an index begins in its cache.
fn body_at(shape: Shape, index: usize) -> usize
    requires { Sound shape × (index ≤ max_capacity) }
    ensures { result ≡ body_at shape index }
{
    shape.slot_at(index) + layout::BODY_AT
}

// Which cache holds the newest advertisement's body, and where: of two caches, each of a shape, among those with no stamp below the oldest.
fn newest_at_as(
    near: Shape,
    far: Shape,
    oldest: u64,
    first: &[u8],
    second: &[u8],
    clock: u64,
    service: &[u8],
) -> Result<Option<Found>, Refusal>
    requires { Sound near × Sound far }
    ensures { as_place result ≡ newest_at_as near far oldest first.now second.now clock service.now }
{
    check_as(near, far, first, second, clock, service)?;
    let mine = newest_in(near, oldest, first, clock, service);
    let other = newest_in(far, oldest, second, clock, service);
    let found = match (mine, other) {
        (None, None) => None,
        (Some(i), None) => Some(Found::First(body_at(near, i.index))),
        (None, Some(j)) => Some(Found::Second(body_at(far, j.index))),
        (Some(i), Some(j)) => if i.accepted < j.accepted {
            Some(Found::Second(body_at(far, j.index)))
        } else {
            Some(Found::First(body_at(near, i.index)))
        },
    };
    Ok(found)
}

// The same with a largest capacity, for caches of either family. Both calls come here: the shapes are told in one place, and what is compiled for them serves both.
#[tactic(auto, using(cache::proofs::Small::limited_sound, cache::proofs::Shapes::shape_sound))]
fn newest_at_within(
    most: usize,
    oldest: u64,
    first: &[u8],
    second: &[u8],
    clock: u64,
    service: &[u8],
) -> Result<Option<Found>, Refusal>
    requires { most ≤ max_capacity }
    ensures { as_place result ≡ newest_at_as (limited most (shape_of first.now)) (limited most (shape_of second.now)) oldest first.now second.now clock service.now }
{
    let near = cache::shape_of(first).limited(most);
    let far = cache::shape_of(second).limited(most);
    newest_at_as(near, far, oldest, first, second, clock, service)
}

// Which cache holds the newest advertisement's body, and where.
#[tactic(auto, using(cache::proofs::Small::limited_full))]
pub fn newest_at(
    first: &[u8],
    second: &[u8],
    clock: u64,
    service: &[u8],
) -> Result<Option<Found>, Refusal>
    ensures { as_place result ≡ newest_at first.now second.now clock service.now }
{
    newest_at_within(settings::MAX_CAPACITY, 0, first, second, clock, service)
}

// The body that begins at a place of a cache.
fn body_from<'a>(shape: Shape, cache: &'a [u8], at: usize) -> &'a [u8]
    requires { Sound shape × (at + body_size shape.address ≤ length cache.now) }
    ensures { result.now ≡ body_from shape at cache.now }
{
    let size = layout::BODY_FIXED + shape.address;
    &cache[at..at + size]
}

// The newest advertisement's body, as a part of one of two caches, each of a shape.
fn newest_as<'a>(
    near: Shape,
    far: Shape,
    oldest: u64,
    first: &'a [u8],
    second: &'a [u8],
    clock: u64,
    service: &[u8],
) -> &'a [u8]
    requires { Sound near × Sound far }
    ensures { result.now ≡ newest_body_as near far oldest first.now second.now clock service.now }
{
    let place = newest_at_as(near, far, oldest, first, second, clock, service);
    match place {
        Ok(Some(Found::First(at))) => body_from(near, first, at),
        Ok(Some(Found::Second(at))) => body_from(far, second, at),
        Ok(None) => &first[0..0],
        Err(_) => &first[0..0],
    }
}

// The same with a largest capacity, for caches of either family.
#[tactic(auto, using(cache::proofs::Small::limited_sound, cache::proofs::Shapes::shape_sound))]
fn newest_within<'a>(
    most: usize,
    oldest: u64,
    first: &'a [u8],
    second: &'a [u8],
    clock: u64,
    service: &[u8],
) -> &'a [u8]
    requires { most ≤ max_capacity }
    ensures { result.now ≡ newest_body_as (limited most (shape_of first.now)) (limited most (shape_of second.now)) oldest first.now second.now clock service.now }
{
    let near = cache::shape_of(first).limited(most);
    let far = cache::shape_of(second).limited(most);
    newest_as(near, far, oldest, first, second, clock, service)
}

// The body of the newest advertisement of the service, as a part of the cache that holds it; empty where there is none, or where a refusal applies.
#[tactic(auto, using(cache::proofs::Small::limited_full))]
pub fn newest<'a>(first: &'a [u8], second: &'a [u8], clock: u64, service: &[u8]) -> &'a [u8]
    ensures { result.now ≡ newest_body first.now second.now clock service.now }
{
    newest_within(settings::MAX_CAPACITY, 0, first, second, clock, service)
}

// The check of a search of both caches under the small-registrar profile.
pub fn small_check_newest(
    first: &[u8],
    second: &[u8],
    clock: u64,
    service: &[u8],
) -> Result<(), Refusal>
    ensures { code result ≡ refusal (small_search_rows first.now second.now clock service.now) }
{
    check_within(settings::SMALL_CAPACITY, first, second, clock, service)
}

// Which cache holds the newest advertisement's body under the small-registrar profile, and where.
pub fn small_newest_at(
    first: &[u8],
    second: &[u8],
    clock: u64,
    service: &[u8],
) -> Result<Option<Found>, Refusal>
    ensures { as_place result ≡ small_newest_at first.now second.now clock service.now }
{
    let most = settings::SMALL_CAPACITY;
    let oldest = times::oldest_stamp(clock);
    newest_at_within(most, oldest, first, second, clock, service)
}

// The body of the newest advertisement of the service under the small-registrar profile, as a part of the cache that holds it; empty where there is none, or where a
// refusal applies.
pub fn small_newest<'a>(first: &'a [u8], second: &'a [u8], clock: u64, service: &[u8]) -> &'a [u8]
    ensures { result.now ≡ small_newest_body first.now second.now clock service.now }
{
    let most = settings::SMALL_CAPACITY;
    let oldest = times::oldest_stamp(clock);
    newest_within(most, oldest, first, second, clock, service)
}
