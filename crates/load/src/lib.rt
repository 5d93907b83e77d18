// What a cache holds against a newcomer: its live entries, those of the newcomer's service, those of its peer too, and how similar their addresses are to its
// own. One walk over the entries checks and counts them all.
#![tactic(auto)]

ghost use Rattle.std.specs.Prelude.{◌≡◌, ℕ, ◌+◌, ◌*◌, ◌≤◌, length, get_or, replicate};
ghost use Rattle.octets.specs.Runs.{part};
ghost use Rattle.record.specs.Layout.{address_size_v6, entry_address_at};
ghost use Rattle.cache.specs.Chunks.{chunks};
ghost use Rattle.cache.specs.Cache.{Sound, max_capacity, width as width_of};
ghost use Rattle.load.specs.Counts.{Tallied, Surveyed, TabledIf, CountedIf};

use cache::Shape;
use record::{Refusal, layout};

// Document 01's c, s and p, and how many live entries have the service and the peer of the ad.
#[derive(Clone, Copy, Default)]
pub struct Counts {
    pub live: usize,
    pub service: usize,
    pub held: usize,
    pub similarity: usize,
}

// An address shares from 0 bits up to all of its own.
const MOST_TOTALS: usize = 8 * layout::ADDRESS_SIZE_V6 + 1;

// How many entries are of an ad's service, and how many of its service and its peer.
#[derive(Clone, Copy, Default)]
struct Same {
    service: usize,
    held: usize,
}

// Counts one entry beside those counted so far: its address among the totals, and whether it is of the service, and of the peer.
fn tally(
    entry: &[u8],
    service: &[u8],
    peer: &[u8],
    address: &[u8],
    bytes: usize,
    seen: Same,
    totals: &mut [u16],
) -> Same
    requires bytes_le_address_size_v6 { (bytes ≤ address_size_v6) × (entry_address_at + address_size_v6 ≤ length entry.now) × (address_size_v6 ≤ length address.now) }
    requires totals_len { length totals.old ≡ 8 * bytes + 1 }
    requires by_index { (j : ℕ) → get_or totals.old j 0 ≤ max_capacity }
    requires seen_le_max_capacity { (seen.service ≤ max_capacity) × (seen.held ≤ max_capacity) }
    ensures { Tallied entry.now service.now peer.now (part 0 bytes address.now) seen.service seen.held totals.old result.service result.held totals.new }
{
    let bits = similarity::shared_bits(&entry[layout::ENTRY_ADDRESS_AT..], address, bytes);
    totals[bits] += 1;
    if !octets::equal(
        &entry[layout::ENTRY_SERVICE_AT..layout::ENTRY_PEER_AT],
        service,
    ) {
        return seen;
    }
    if !octets::equal(
        &entry[layout::ENTRY_PEER_AT..layout::ENTRY_ADDRESS_AT],
        peer,
    ) {
        return Same {
            service: seen.service + 1,
            held: seen.held,
        };
    }
    Same {
        service: seen.service + 1,
        held: seen.held + 1,
    }
}

// One pass over n entries checks and counts them: it answers None unless they have a kind of theirs, their accepted times never fall and none is after the
// cache's last clock; else how many are of the service, and how many of the peer too, and it leaves how many share exactly so many bits.
fn walk(
    shape: Shape,
    stored: &[u8],
    n: usize,
    latest: u64,
    service: &[u8],
    peer: &[u8],
    address: &[u8],
    totals: &mut [u16],
) -> Option<Same>
    requires sound { Sound shape × (n ≤ max_capacity) }
    requires n_in_bounds { (width_of shape * n ≤ length stored.now) × (address_size_v6 ≤ length address.now) }
    requires totals_value { totals.old ≡ replicate (8 * shape.address + 1) 0 }
    ensures { Surveyed shape.kinds latest service.now peer.now (part 0 shape.address address.now) (chunks (width_of shape) n stored.now) result totals.new }
{
    let bytes = shape.address;
    let kinds = shape.kinds;
    let width = shape.width();
    let mut last = 0;
    let mut seen = Same::default();
    // By their index: with `chunks_exact`, which keeps how many bytes are left beside where they begin, a walk over 1,000 entries took 1.06 times as long.
    for index in 0..n {
        let entry = &stored[width * index..width * (index + 1)];
        last = cache::look_at(entry, 0, kinds, last)?;
        seen = tally(entry, service, peer, address, bytes, seen, totals);
    }
    if last > latest {
        return None;
    }
    Some(seen)
}

// The check of a cache, and what is counted over its live entries, which stand behind the expired ones: one walk over them does both. The totals are lent, one for
// each number of bits from 0 up, and zero; where the cache is well formed they are left with how many of those entries share exactly so many bits with the address.
fn tabulate(
    shape: Shape,
    cache: &[u8],
    clock: u64,
    service: &[u8],
    peer: &[u8],
    address: &[u8],
    totals: &mut [u16],
) -> Result<Counts, Refusal>
    requires sound { Sound shape }
    requires address_size_v6_in_bounds { address_size_v6 ≤ length address.now }
    requires totals_value { totals.old ≡ replicate (8 * shape.address + 1) 0 }
    ensures { TabledIf shape cache.now clock service.now peer.now (part 0 shape.address address.now) result totals.new }
{
    if !cache::head_holds(shape, cache) {
        return Err(Refusal::Cache);
    }
    let passed = cache::gone(shape, cache, clock);
    if !cache::holds_around(shape, cache, passed) {
        return Err(Refusal::Cache);
    }
    let considered = cache::count(cache) - passed;
    let latest = cache::clock(cache);
    let found = walk(
        shape,
        cache::stored_from(shape, cache, passed),
        considered,
        latest,
        service,
        peer,
        address,
        totals,
    );
    let same = found.ok_or(Refusal::Cache)?;
    let similarity = similarity::points(totals, considered);
    Ok(Counts {
        live: considered,
        service: same.service,
        held: same.held,
        similarity,
    })
}

// Checks a cache, which refusal 1 is for, and counts its live entries for an ad. Nothing is counted where no count is wanted, nor for bytes of another length
// than an ad's. Not inlined, so that the totals take none of the stack when a ticket is checked or written.
#[inline(never)]
pub fn count(
    shape: Shape,
    cache: &[u8],
    clock: u64,
    ad: &[u8],
    wanted: bool,
) -> Result<Counts, Refusal>
    requires { Sound shape }
    ensures { CountedIf shape cache.now clock ad.now wanted result }
{
    let address = shape.address;
    if !wanted || ad.len() != layout::AD_FIXED + address {
        cache::check_cache(shape, cache)?;
        return Ok(Counts::default());
    }
    let mut totals = [0u16; MOST_TOTALS];
    let size = 8 * address + 1;
    tabulate(
        shape,
        cache,
        clock,
        &ad[layout::SERVICE_AT..layout::PEER_AT],
        &ad[layout::PEER_AT..layout::ADDRESS_AT],
        &ad[layout::ADDRESS_AT..],
        &mut totals[..size],
    )
}
