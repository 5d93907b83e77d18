// The cache: the advertisements that were admitted, as bytes that the caller lends, and how many were confirmed and expired since it was opened; nothing else
// is kept.
#![tactic(auto)]

ghost use Rattle.std.specs.Prelude.{◌≡◌, ◌+◌, ◌*◌, ◌≤◌, true, length};
ghost use Rattle.record.specs.Layout.{entry_body_at};
ghost use Rattle.record.specs.Refusals.{code, refusal};
ghost use Rattle.cache.specs.Chunks.{chunks};
ghost use Rattle.cache.specs.Cache.{head_size, max_capacity, Sound, size_of, capacity_of, count_of, clock_of, head_in, entries, stored_from, held_kind, adds_up, well_formed, width as width_of, limited as limited_of, small as small_of, shape_for, shape_of};
ghost use Rattle.cache.specs.Expiry.{gone, head_expired, head_confirmed};
ghost use Rattle.cache.specs.Check.{head_holds, is_in_order, around, Looked};
ghost use Rattle.cache.specs.Rows.{cache_rows, clock_rows};

use record::{Refusal, layout};

// The kinds of the records of a cache: its head, an advertisement, an entry, and a withdrawn one.
#[derive(Clone, Copy)]
pub struct Kinds {
    pub head: u8,
    pub ad: u8,
    pub entry: u8,
    pub withdrawn: u8,
}

// What an address family fixes in a cache: the length of an address, the kinds of its records, and the largest capacity.
#[derive(Clone, Copy)]
pub struct Shape {
    pub address: usize,
    pub kinds: Kinds,
    pub most: usize,
}

impl Shape {
    // The length of an entry.
    pub fn width(self) -> usize
        requires { Sound self }
        ensures { result ≡ width_of self }
    {
        layout::ENTRY_FIXED + self.address
    }

    // Where the slot at an index begins.
    pub fn slot_at(self, index: usize) -> usize
        requires { Sound self × (index ≤ max_capacity) }
        ensures { result ≡ size_of self index }
    {
        layout::HEAD_SIZE + self.width() * index
    }

    // The same shape with another largest capacity.
    pub fn limited(self, most: usize) -> Shape
        ensures { result ≡ limited_of most self }
    {
        Shape { most, ..self }
    }

    // The same shape under the small-registrar profile, where the capacity has a lower limit.
    pub fn small(self) -> Shape
        ensures { result ≡ small_of self }
    {
        self.limited(settings::SMALL_CAPACITY)
    }
}

// What a head says, but for the number of entries: the capacity, the last clock, and how many were confirmed and how many expired since the opening, both
// modulo 2^64.
#[derive(Clone, Copy)]
pub struct Head {
    pub capacity: u16,
    pub clock: u64,
    pub confirmed: u64,
    pub expired: u64,
}

impl Head {
    // The head once so many entries have left as expired, and the clock has moved.
    pub fn after_expiry(self, clock: u64, gone: usize) -> Head
        ensures { result ≡ head_expired clock gone self }
    {
        Head {
            clock,
            expired: self.expired.wrapping_add(gone as u64),
            ..self
        }
    }

    // The head once an advertisement was confirmed, and the clock has moved.
    pub fn after_confirmation(self, clock: u64) -> Head
        ensures { result ≡ head_confirmed clock self }
    {
        Head {
            clock,
            confirmed: self.confirmed.wrapping_add(1),
            ..self
        }
    }
}

// The family of the addresses in a cache.
#[derive(Clone, Copy)]
pub enum Family {
    V4,
    V6,
}

// A cache of IPv4 addresses.
const IPV4: Shape = Shape {
    address: layout::ADDRESS_SIZE,
    kinds: Kinds {
        head: layout::HEAD_KIND,
        ad: layout::AD_KIND,
        entry: layout::ENTRY_KIND,
        withdrawn: layout::WITHDRAWN_KIND,
    },
    most: settings::MAX_CAPACITY,
};

// A cache of IPv6 addresses.
const IPV6: Shape = Shape {
    address: layout::ADDRESS_SIZE_V6,
    kinds: Kinds {
        head: layout::HEAD_KIND_V6,
        ad: layout::AD_KIND_V6,
        entry: layout::ENTRY_KIND_V6,
        withdrawn: layout::WITHDRAWN_KIND_V6,
    },
    most: settings::MAX_CAPACITY,
};

// The shape of a cache that is to be opened for a family.
pub fn shape_for(family: Family) -> Shape
    ensures { result ≡ shape_for family }
{
    match family {
        Family::V4 => IPV4,
        Family::V6 => IPV6,
    }
}

// The shape of a cache as handed in, by the kind of its head.
pub fn shape_of(cache: &[u8]) -> Shape
    ensures { result ≡ shape_of cache.now }
{
    if !cache.is_empty() && cache[layout::KIND_AT] == layout::HEAD_KIND_V6 {
        return IPV6;
    }
    IPV4
}

// What the head says: the capacity, the number of entries, the last clock; and all but the number of entries.
pub fn capacity(cache: &[u8]) -> usize
    requires { head_size ≤ length cache.now }
    ensures { result ≡ capacity_of cache.now }
{
    octets::read_u16(cache, layout::CAPACITY_AT) as usize
}

pub fn count(cache: &[u8]) -> usize
    requires { head_size ≤ length cache.now }
    ensures { result ≡ count_of cache.now }
{
    octets::read_u16(cache, layout::COUNT_AT) as usize
}

pub fn clock(cache: &[u8]) -> u64
    requires { head_size ≤ length cache.now }
    ensures { result ≡ clock_of cache.now }
{
    octets::read_u64(cache, layout::CLOCK_AT)
}

pub fn read_head(cache: &[u8]) -> Head
    requires { head_size ≤ length cache.now }
    ensures { result ≡ head_in cache.now }
{
    Head {
        capacity: octets::read_u16(cache, layout::CAPACITY_AT),
        clock: octets::read_u64(cache, layout::CLOCK_AT),
        confirmed: octets::read_u64(cache, layout::CONFIRMED_AT),
        expired: octets::read_u64(cache, layout::EXPIRED_AT),
    }
}

// Whether as many were confirmed as expired or are held, modulo 2^64.
fn adds_up(cache: &[u8]) -> bool
    requires { head_size ≤ length cache.now }
    ensures { result ≡ adds_up cache.now }
{
    let expired = octets::read_u64(cache, layout::EXPIRED_AT);
    let held = octets::read_u16(cache, layout::COUNT_AT) as u64;
    octets::read_u64(cache, layout::CONFIRMED_AT) == expired.wrapping_add(held)
}

// Whether the length and the head are those of a well-formed cache.
pub fn head_holds(shape: Shape, cache: &[u8]) -> bool
    requires { Sound shape }
    ensures { result ≡ head_holds shape cache.now }
{
    if cache.len() < layout::HEAD_SIZE {
        return false;
    }
    let slots = capacity(cache);
    if slots < 1 || slots > shape.most || cache.len() != shape.slot_at(slots) {
        return false;
    }
    cache[layout::KIND_AT] == shape.kinds.head
        && count(cache) <= slots
        && adds_up(cache)
        && clock(cache) <= settings::LAST_CLOCK
}

// The entries from an index on, as they lie in the cache.
pub fn stored_from<'a>(shape: Shape, cache: &'a [u8], index: usize) -> &'a [u8]
    requires sound { Sound shape × (head_holds shape cache.now ≡ true) }
    requires index_bound { index ≤ count_of cache.now }
    ensures { result.now ≡ stored_from shape index cache.now }
{
    let at = shape.slot_at(index);
    let end = shape.slot_at(count(cache));
    &cache[at..end]
}

// Whether a record has a kind that an entry may have.
fn is_held(kinds: Kinds, kind: u8) -> bool
    ensures { result ≡ held_kind kinds kind }
{
    kind == kinds.entry || kind == kinds.withdrawn
}

// When the entry at `at` was accepted, if it has a kind of theirs and was not accepted before `last`; else none. The time is read behind the test of the kind and
// handed on, so that it stays one load and one byte swap.
pub fn look_at(stored: &[u8], at: usize, kinds: Kinds, last: u64) -> Option<u64>
    requires { at + entry_body_at ≤ length stored.now }
    ensures { Looked kinds last at stored.now result }
{
    if !is_held(kinds, stored[at]) {
        return None;
    }
    let accepted = octets::read_u64(stored, at + layout::ACCEPTED_AT);
    if accepted < last {
        return None;
    }
    Some(accepted)
}

// Whether n entries have a kind of theirs, their accepted times never fall, and none is after the clock. Where times never fall, the last one decides that.
// Two entries a turn, behind the first alone where n is odd. By index, since it has to be fast: over chunks_exact(2 * width) it takes 1.12 of the instructions, over
// chunks_exact(width) 1.41. Not inlined: in a function of its own the loop has short jumps and begins where a line of code does, and inlined it takes up to
// twice as long where the linker has its jumps end on such a line.
#[inline(never)]
fn in_order(stored: &[u8], width: usize, n: usize, kinds: Kinds, clock: u64) -> bool
    requires { (entry_body_at ≤ width) × (width * n ≤ length stored.now) }
    ensures { result ≡ is_in_order kinds clock 0 (chunks width n stored.now) }
{
    let odd = n % 2;
    let mut last = 0;
    if odd > 0 {
        let Some(alone) = look_at(stored, 0, kinds, 0) else {
            return false;
        };
        last = alone;
    }
    for pair in 0..n / 2 {
        let at = width * (odd + 2 * pair);
        let Some(first) = look_at(stored, at, kinds, last) else {
            return false;
        };
        let Some(second) = look_at(stored, at + width, kinds, first) else {
            return false;
        };
        last = second;
    }
    last <= clock
}

// Whether the cache is well formed: one pass over the entries, and one over the rest.
pub fn is_well_formed(shape: Shape, cache: &[u8]) -> bool
    requires { Sound shape }
    ensures { result ≡ well_formed shape cache.now }
{
    if !head_holds(shape, cache) {
        return false;
    }
    let kinds = shape.kinds;
    let n = count(cache);
    let last = clock(cache);
    let stored = stored_from(shape, cache, 0);
    if !in_order(stored, shape.width(), n, kinds, last) {
        return false;
    }
    let end = shape.slot_at(n);
    octets::is_zero(&cache[end..])
}

// Whether the first n entries hold, and what stands behind all of them is zero: with those behind the first n, which a walk over them may look at, and the head
// that is all of the check. (Over all entries it is the same as above, and a call more there, which a listing at few entries feels.)
pub fn holds_around(shape: Shape, cache: &[u8], n: usize) -> bool
    requires sound { Sound shape × (head_holds shape cache.now ≡ true) }
    requires n_bound { n ≤ count_of cache.now }
    ensures { result ≡ around shape n cache.now }
{
    let kinds = shape.kinds;
    let latest = clock(cache);
    let first = stored_from(shape, cache, 0);
    if !in_order(first, shape.width(), n, kinds, latest) {
        return false;
    }
    let behind = shape.slot_at(count(cache));
    octets::is_zero(&cache[behind..])
}

// Refuses a cache that is not well formed.
pub fn check_cache(shape: Shape, cache: &[u8]) -> Result<(), Refusal>
    requires { Sound shape }
    ensures { code result ≡ refusal (cache_rows shape cache.now) }
{
    if !is_well_formed(shape, cache) {
        return Err(Refusal::Cache);
    }
    Ok(())
}

// Refuses a clock before the cache's last one, or past the last of all.
pub fn check_clock(cache: &[u8], clock: u64) -> Result<(), Refusal>
    requires { head_size ≤ length cache.now }
    ensures { code result ≡ refusal (clock_rows cache.now clock) }
{
    if clock < self::clock(cache) || clock > settings::LAST_CLOCK {
        return Err(Refusal::Clock);
    }
    Ok(())
}

// How many of n entries are expired at the front. Where accepted times never fall, none is expired behind them. (By index, since it has to be fast: over
// chunks_exact(width) it takes 1.06 of the instructions.)
fn count_gone(stored: &[u8], width: usize, n: usize, clock: u64) -> usize
    requires { (entry_body_at ≤ width) × (width * n ≤ length stored.now) }
    ensures { result ≡ gone clock (chunks width n stored.now) }
{
    let from = times::horizon(clock);
    for passed in 0..n {
        if from <= octets::read_u64(stored, width * passed + layout::ACCEPTED_AT) {
            return passed;
        }
    }
    n
}

// How many entries of a cache are expired.
pub fn gone(shape: Shape, cache: &[u8], clock: u64) -> usize
    requires { Sound shape × (head_holds shape cache.now ≡ true) }
    ensures { result ≡ gone clock (entries shape cache.now) }
{
    let stored = stored_from(shape, cache, 0);
    count_gone(stored, shape.width(), count(cache), clock)
}
