// GET_ADS: the live advertisements of a service that are not withdrawn, from a cache into a buffer that the caller lends. Under the small-registrar profile
// those alone whose stamps have not grown older than thirty days.
#![tactic(auto)]

ghost use Rattle.std.specs.Prelude.{◌≡◌, ◌*◌, ◌≤◌, length};
ghost use Rattle.record.specs.Layout.{entry_peer_at, entry_size};
ghost use Rattle.record.specs.Refusals.{code, refusal};
ghost use Rattle.cache.specs.Chunks.{chunks};
ghost use Rattle.cache.specs.Cache.{max_capacity, shape_of, limited, Sound, width as width_of};
ghost use Rattle.listing.specs.Listed.{as_listed};
ghost use Rattle.listing.specs.Listing.{buffer_size, length_rows, rows, ask_rows, wanted_from, not_older, chosen_since, AdsWritten, Got, GotSince, SmallGot};

use cache::{Kinds, Shape};
use record::{Refusal, layout};

// The length of a list buffer.
fn buffer_size(shape: Shape) -> usize
    requires { Sound shape }
    ensures { result ≡ buffer_size shape }
{
    settings::MOST_LISTED * (layout::AD_FIXED + shape.address)
}

// Refuses a service, or a buffer of so many bytes, that is not of its length.
fn check_lengths(shape: Shape, service: &[u8], size: usize) -> Result<(), Refusal>
    requires { Sound shape }
    ensures { code result ≡ refusal (length_rows shape service.now size) }
{
    if service.len() != layout::IDENTIFIER_SIZE {
        return Err(Refusal::Length);
    }
    if size != buffer_size(shape) {
        return Err(Refusal::Length);
    }
    Ok(())
}

// The check of a call, whose buffer has so many bytes.
fn check_call(
    shape: Shape,
    cache: &[u8],
    clock: u64,
    service: &[u8],
    size: usize,
) -> Result<(), Refusal>
    requires { Sound shape }
    ensures { code result ≡ refusal (rows shape cache.now clock service.now size) }
{
    cache::check_cache(shape, cache)?;
    check_lengths(shape, service, size)?;
    cache::check_clock(cache, clock)
}

// The check of a call that asks a cache for a service and lends no buffer.
pub fn check_ask(shape: Shape, cache: &[u8], clock: u64, service: &[u8]) -> Result<(), Refusal>
    requires { Sound shape }
    ensures { code result ≡ refusal (ask_rows shape cache.now clock service.now) }
{
    check_call(shape, cache, clock, service, buffer_size(shape))
}

// Whether an entry is live, of the service and not withdrawn. Most are of another service, so that is asked first.
pub fn wanted(entry: &[u8], kinds: Kinds, from: u64, service: &[u8]) -> bool
    requires { entry_peer_at ≤ length entry.now }
    ensures { result ≡ wanted_from kinds from service.now entry.now }
{
    octets::equal(
        &entry[layout::ENTRY_SERVICE_AT..layout::ENTRY_PEER_AT],
        service,
    ) && entry[layout::KIND_AT] != kinds.withdrawn
        && from <= octets::read_u64(entry, layout::ACCEPTED_AT)
}

// Whether the stamp of an entry is not below the oldest that is listed. A stamp may have any 64 bits: nothing is added to it or subtracted from it.
pub fn not_older(entry: &[u8], address: usize, oldest: u64) -> bool
    requires { length entry.now ≡ entry_size address }
    ensures { result ≡ not_older address oldest entry.now }
{
    oldest <= octets::read_u64(entry, layout::ENTRY_STAMP_FIXED + address)
}

// Writes the first ten entries that are wanted as advertisements, and answers how many. Not inlined, as the check of the cache is not (`in_order`).
#[inline(never)]
fn write_ads(
    shape: Shape,
    stored: &[u8],
    n: usize,
    clock: u64,
    oldest: u64,
    service: &[u8],
    list: &mut [u8],
) -> usize
    requires sound { Sound shape × (width_of shape * n ≤ length stored.now) }
    requires list_len { length list.old ≡ buffer_size shape }
    ensures { AdsWritten shape.kinds.ad (chosen_since shape.address oldest shape.kinds clock service.now (chunks (width_of shape) n stored.now)) list.old result list.new }
{
    let kinds = shape.kinds;
    let address = shape.address;
    let width = shape.width();
    let from = times::horizon(clock);
    let size = width - layout::TIME_SIZE;
    let mut found = 0;
    for entry in stored[..width * n].chunks_exact(width) {
        if wanted(entry, kinds, from, service) && not_older(entry, address, oldest) {
            let to = size * found;
            record::entry::fill_listed(&mut list[to..to + size], kinds.ad, entry);
            found += 1;
            if found == settings::MOST_LISTED {
                return found;
            }
        }
    }
    found
}

// Lists the first ten live advertisements of the service that are not withdrawn and have no stamp below the oldest, oldest first, at the front of the buffer; later
// bytes stay.
fn get_ads_as(
    shape: Shape,
    oldest: u64,
    cache: &[u8],
    clock: u64,
    service: &[u8],
    list: &mut [u8],
) -> Result<usize, Refusal>
    requires { Sound shape }
    ensures { GotSince shape oldest cache.now clock service.now list.old (as_listed result) list.new }
{
    check_call(shape, cache, clock, service, list.len())?;
    let n = cache::count(cache);
    let stored = cache::stored_from(shape, cache, 0);
    let found = write_ads(shape, stored, n, clock, oldest, service, list);
    Ok(found)
}

// GET_ADS with a largest capacity and an oldest stamp, for a cache of either family. Both calls come here: the shape is told in one place, and what is compiled for it serves both.
#[tactic(auto, using(cache::proofs::Small::limited_sound, cache::proofs::Shapes::shape_sound))]
fn get_ads_within(
    most: usize,
    oldest: u64,
    cache: &[u8],
    clock: u64,
    service: &[u8],
    list: &mut [u8],
) -> Result<usize, Refusal>
    requires { most ≤ max_capacity }
    ensures { GotSince (limited most (shape_of cache.now)) oldest cache.now clock service.now list.old (as_listed result) list.new }
{
    let shape = cache::shape_of(cache).limited(most);
    get_ads_as(shape, oldest, cache, clock, service, list)
}

// GET_ADS, for a cache of either family.
pub fn get_ads(cache: &[u8], clock: u64, service: &[u8], list: &mut [u8]) -> Result<usize, Refusal>
    ensures { Got (shape_of cache.now) cache.now clock service.now list.old (as_listed result) list.new }
{
    get_ads_within(settings::MAX_CAPACITY, 0, cache, clock, service, list)
}

// GET_ADS under the small-registrar profile, for a cache of either family.
pub fn small_get_ads(
    cache: &[u8],
    clock: u64,
    service: &[u8],
    list: &mut [u8],
) -> Result<usize, Refusal>
    ensures { SmallGot cache.now clock service.now list.old (as_listed result) list.new }
{
    let most = settings::SMALL_CAPACITY;
    let oldest = times::oldest_stamp(clock);
    get_ads_within(most, oldest, cache, clock, service, list)
}
