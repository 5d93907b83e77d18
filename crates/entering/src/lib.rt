// A pair of service and address in the bounds: what they say of it, and what a ticket leaves in them. `address` is the length of an address in the cache, `used`
// how many records are in use, and a pair its service and then its address.
#![tactic(auto)]

ghost use Rattle.std.specs.Prelude.{◌≡◌, true, false, List, ℕ, ◌+◌, ◌*◌, ◌≤◌, eqb, length, drop};
ghost use Rattle.octets.specs.Runs.{part};
ghost use Rattle.record.specs.Layout.{address_size_v6, ad_size, pair_size, bound_size};
ghost use Rattle.cache.specs.Chunks.{chunks, first_of, every};
ghost use Rattle.bounds.specs.Bounds.{bound_of, is_of, places, in_use, bounds_in, well_bounded};
ghost use Rattle.bounds.specs.Told.{not_before};
ghost use Rattle.entering.specs.Entering.{pair_in, standing_in, crowded, entered};
ghost use Rattle.entering.specs.Packing.{Packed, stay, dropped};

use bounds::Form;
use record::layout;

// The length of the longest pair, IPv6's.
pub const MOST_PAIR: usize = layout::IDENTIFIER_SIZE + layout::ADDRESS_SIZE_V6;

// The pair of an advertisement, at the front of an array: a service and an address do not lie side by side in one. Of other bytes than one is long it is zeros.
pub fn pair_of(address: usize, ad: &[u8]) -> [u8; MOST_PAIR]
    requires { address ≤ address_size_v6 }
    ensures { length ad.now ≡ ad_size address → part 0 (pair_size address) result ≡ pair_in address ad.now }
{
    let mut pair = [0u8; MOST_PAIR];
    if ad.len() != layout::AD_FIXED + address {
        return pair;
    }
    octets::copy(&mut pair, 0, &ad[layout::SERVICE_AT..layout::PEER_AT]);
    octets::copy(
        &mut pair,
        layout::IDENTIFIER_SIZE,
        &ad[layout::ADDRESS_AT..layout::ADDRESS_AT + address],
    );
    pair
}

// What the bounds say of a pair at a clock: its until, or 0, which no clock is before,
// where among those in force its own stands or would, and how many are in force.
#[derive(Clone, Copy)]
pub struct Standing {
    pub until: u64,
    pub place: usize,
    pub force: usize,
}

// How many of n records are in force, from a place on. (By index, since it has to be fast: over chunks_exact it takes 1.22 of the instructions.)
fn count_force(address: usize, bounds: &[u8], from: usize, n: usize, clock: u64) -> usize
    requires { (address ≤ address_size_v6) × (from + bound_size address * n ≤ length bounds.now) }
    ensures { result ≡ length (stay address clock n (drop from bounds.now)) }
{
    let width = layout::BOUND_FIXED + address;
    let late = layout::UNTIL_FIXED + address;
    let mut force = 0;
    for i in 0..n {
        let until = octets::read_u64(bounds, from + width * i + late);
        if clock < until {
            force += 1;
        }
    }
    force
}

// The same, with a time that no until of theirs is before: none is counted where the clock is before it.
fn force_from(address: usize, bounds: &[u8], from: usize, n: usize, clock: u64, least: u64) -> usize
    requires address_le_address_size_v6 { (address ≤ address_size_v6) × (from + bound_size address * n ≤ length bounds.now) }
    requires bounds_value { every (not_before address least) (chunks (bound_size address) n (drop from bounds.now)) ≡ true }
    ensures { result ≡ length (stay address clock n (drop from bounds.now)) }
{
    if clock < least {
        return n;
    }
    count_force(address, bounds, from, n, clock)
}

// What the bounds say at a clock of a pair, by what the check of their form told of it. Where none is of it, its until is 0, and no clock is before that.
pub fn look_up(address: usize, bounds: &[u8], used: usize, clock: u64, form: Form) -> Standing
    requires address_le_address_size_v6 { (address ≤ address_size_v6) × (well_bounded address bounds.now ≡ true) × (used ≡ in_use address bounds.now) }
    requires index_le_used { (form.index ≤ used) × (every (not_before address form.least) (bounds_in address bounds.now) ≡ true) }
    ensures { (k : List ℕ) → form.index ≡ first_of (is_of address k) (bounds_in address bounds.now) → result ≡ standing_in address clock k (bounds_in address bounds.now) }
{
    let index = form.index;
    let at = (layout::BOUND_FIXED + address) * index;
    let before = force_from(address, bounds, 0, index, clock, form.least);
    let behind = force_from(address, bounds, at, used - index, clock, form.least);
    let force = before + behind;
    let until = if index == used {
        0
    } else {
        octets::read_u64(bounds, at + (layout::UNTIL_FIXED + address))
    };
    let place = if clock < until { before } else { force };
    Standing {
        until,
        place,
        force,
    }
}

// Refusal 19's condition, from what was found: the pair has no bound, and every place has one in force.
pub fn is_crowded(address: usize, bounds: &[u8], found: Standing) -> bool
    requires { address ≤ address_size_v6 }
    ensures { result ≡ eqb found.place (places address bounds.now) }
{
    found.place == bounds.len() / (layout::BOUND_FIXED + address)
}

// Moves the records in force to the front, run by run, and tells how many bytes they take. (By index: a record is read where it lies, and runs are moved in the
// same bytes, which no iterator may hold meanwhile.)
fn pack(address: usize, bounds: &mut [u8], used: usize, clock: u64) -> usize
    requires { (address ≤ address_size_v6) × (bound_size address * used ≤ length bounds.old) }
    ensures { Packed address clock used bounds.old result bounds.new }
{
    let width = layout::BOUND_FIXED + address;
    let late = layout::UNTIL_FIXED + address;
    let mut to = 0;
    let mut run = 0;
    for i in 0..used {
        let at = width * i;
        let until = octets::read_u64(bounds, at + late);
        if until <= clock {
            octets::move_down(bounds, run, to, at - run);
            to += at - run;
            run = at + width;
        }
    }
    let end = width * used;
    octets::move_down(bounds, run, to, end - run);
    to + (end - run)
}

// Drops the records that are not in force, where there are any, and clears what they leave.
fn drop_past(address: usize, bounds: &mut [u8], used: usize, force: usize, clock: u64)
    requires { (address ≤ address_size_v6) × (bound_size address * used ≤ length bounds.old) × (force ≡ length (stay address clock used bounds.old)) }
    ensures { bounds.new ≡ dropped address clock used bounds.old }
{
    if force == used {
        return;
    }
    let end = (layout::BOUND_FIXED + address) * used;
    let size = pack(address, bounds, used, clock);
    octets::clear(&mut bounds[size..end]);
}

// Writes a record into its place.
fn fill_bound(place: &mut [u8], pair: &[u8], until: u64)
    requires { length place.old ≡ length pair.now + 9 }
    ensures { place.new ≡ bound_of pair.now until }
{
    place[0] = layout::BOUND_KIND;
    octets::copy(place, layout::PAIR_AT, pair);
    octets::write_u64(place, layout::PAIR_AT + pair.len(), until);
}

// Enters a pair's until, as a ticket does that is issued at the clock: what is past its time is dropped, the pair's own is rewritten in place, a new one goes
// last.
pub fn enter(
    address: usize,
    bounds: &mut [u8],
    used: usize,
    pair: &[u8],
    clock: u64,
    found: Standing,
    until: u64,
)
    requires address_le_address_size_v6 { (address ≤ address_size_v6) × (well_bounded address bounds.old ≡ true) × (used ≡ in_use address bounds.old) }
    requires pair_len { length pair.now ≡ pair_size address }
    requires found_value { found ≡ standing_in address clock pair.now (bounds_in address bounds.old) }
    requires bounds_value { crowded address clock pair.now bounds.old ≡ false }
    ensures { bounds.new ≡ entered address clock pair.now until bounds.old }
{
    let width = layout::BOUND_FIXED + address;
    drop_past(address, bounds, used, found.force, clock);
    let at = width * found.place;
    fill_bound(&mut bounds[at..at + width], pair, until);
}
