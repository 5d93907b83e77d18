// The upkeep of a cache: opening it, dropping expired entries, and appending one, in the bytes that the caller lends; and how many entries that moves.
#![tactic(auto)]

ghost use Rattle.std.specs.Prelude.{◌≡◌, true, ◌+◌, ◌*◌, ◌≤◌, ◌<◌, length};
ghost use Rattle.octets.specs.Runs.{put};
ghost use Rattle.record.specs.Layout.{ad_size};
ghost use Rattle.record.specs.Refusals.{code};
ghost use Rattle.cache.specs.Cache.{shape_for, small, head_size, Sound, head_of, capacity_of, count_of, entries, well_formed};
ghost use Rattle.cache.specs.Opening.{Opened};
ghost use Rattle.cache.specs.Expiry.{gone, cleared, appended};
ghost use Rattle.octets.specs.Counting.{passing_below};
ghost use Rattle.upkeep.specs.Moves.{changes};
ghost use Rattle.upkeep.specs.Newcomer.{newcomer};
ghost use Rattle.upkeep.specs.Packed.{packed};

use cache::{Family, Head, Shape};
use record::{Refusal, layout};

fn write_head(cache: &mut [u8], kind: u8, n: u16, head: Head)
    requires { head_size ≤ length cache.old }
    ensures { cache.new ≡ put 0 (head_of kind n head) cache.old }
{
    cache[0] = kind;
    octets::write_u16(cache, layout::CAPACITY_AT, head.capacity);
    octets::write_u16(cache, layout::COUNT_AT, n);
    octets::write_u64(cache, layout::CLOCK_AT, head.clock);
    octets::write_u64(cache, layout::CONFIRMED_AT, head.confirmed);
    octets::write_u64(cache, layout::EXPIRED_AT, head.expired);
}

// Opens a cache over any bytes of a fitting length, or refuses them and leaves them as they are.
pub fn open_as(shape: Shape, cache: &mut [u8]) -> Result<(), Refusal>
    requires { Sound shape }
    ensures { Opened shape cache.old (code result) cache.new }
{
    let width = shape.width();
    let most = shape.most;
    let size = cache.len();
    if size < layout::HEAD_SIZE {
        return Err(Refusal::Cache);
    }
    let capacity = (size - layout::HEAD_SIZE) / width;
    if capacity < 1 {
        return Err(Refusal::Cache);
    }
    if capacity > most {
        return Err(Refusal::Cache);
    }
    if size != shape.slot_at(capacity) {
        return Err(Refusal::Cache);
    }
    octets::clear(cache);
    let head = Head {
        capacity: capacity as u16,
        clock: 0,
        confirmed: 0,
        expired: 0,
    };
    write_head(cache, shape.kinds.head, 0, head);
    Ok(())
}

// Opens a cache for a family of addresses. It and `small_open` stay two, since C calls each.
pub fn open(cache: &mut [u8], family: Family) -> Result<(), Refusal>
    ensures { Opened (shape_for family) cache.old (code result) cache.new }
{
    open_as(cache::shape_for(family), cache)
}

// Opens a cache under the small-registrar profile: with a capacity of at most 64.
pub fn small_open(cache: &mut [u8], family: Family) -> Result<(), Refusal>
    ensures { Opened (small (shape_for family)) cache.old (code result) cache.new }
{
    open_as(cache::shape_for(family).small(), cache)
}

// Moves the entries behind the first `gone` to the front, and clears what they leave.
fn pack(cache: &mut [u8], width: usize, n: usize, gone: usize)
    requires { (gone ≤ n) × (head_size + width * n ≤ length cache.old) }
    ensures { cache.new ≡ packed head_size width n gone cache.old }
{
    if gone == 0 {
        return;
    }
    let size = width * (n - gone);
    let end = layout::HEAD_SIZE + width * n;
    octets::move_down(
        cache,
        layout::HEAD_SIZE + width * gone,
        layout::HEAD_SIZE,
        size,
    );
    octets::clear(&mut cache[layout::HEAD_SIZE + size..end]);
}

// Drops the expired entries, of which the caller has counted so many, counts them in the head, and moves the clock.
pub fn expire(shape: Shape, cache: &mut [u8], clock: u64, passed: usize)
    requires sound { Sound shape }
    requires cache_value { well_formed shape cache.old ≡ true }
    requires passed_value { passed ≡ gone clock (entries shape cache.old) }
    ensures { cache.new ≡ cleared shape clock cache.old }
{
    let head = cache::read_head(cache);
    let n = cache::count(cache);
    pack(cache, shape.width(), n, passed);
    let next = head.after_expiry(clock, passed);
    write_head(cache, shape.kinds.head, (n - passed) as u16, next);
}

// How many entries changed their index, where `gone` left from the front and `stay` did not: all that stay, if at least one left.
pub fn count_moved(gone: usize, stay: usize) -> usize
    ensures { result ≡ passing_below (changes gone) (gone + stay) }
{
    if gone == 0 {
        return 0;
    }
    stay
}

// Appends an entry for the advertisement, counts it as confirmed, and moves the clock. The part of the cache at the new slot is lent to the record writer.
pub fn append(shape: Shape, cache: &mut [u8], clock: u64, ad: &[u8])
    requires sound { Sound shape }
    requires cache_value { well_formed shape cache.old ≡ true }
    requires cache_bound { count_of cache.old < capacity_of cache.old }
    requires ad_len { length ad.now ≡ ad_size shape.address }
    ensures { cache.new ≡ appended shape clock (newcomer shape clock ad.now) cache.old }
{
    let head = cache::read_head(cache);
    let n = cache::count(cache);
    let at = shape.slot_at(n);
    let end = at + shape.width();
    record::entry::fill_entry(&mut cache[at..end], shape.kinds.entry, clock, ad);
    let next = head.after_confirmation(clock);
    write_head(cache, shape.kinds.head, (n + 1) as u16, next);
}
