// Lower bounds of waits: what a service and an address were told, as bytes that the caller lends beside a cache. Their number, and the check of their form.
// `address` is the length of an address in the cache, and `used` how many records are in use, counted once for a call.
#![tactic(auto)]

ghost use Rattle.std.specs.Prelude.{◌≡◌, ◌≤◌, true, false, length};
ghost use Rattle.octets.specs.Runs.{same};
ghost use Rattle.record.specs.Layout.{address_size_v6, pair_size};
ghost use Rattle.bounds.specs.Bounds.{in_use, bounds_in, fits, well_bounded};
ghost use Rattle.bounds.specs.Told.{Told};

use record::layout;

mod once;

// The most places.
pub const MOST_BOUNDS: usize = 1_000;
// The largest until: the last clock and the longest wait that a ticket tells.
pub const LAST_UNTIL: u64 = settings::LAST_CLOCK + settings::LIFETIME;

// Whether a record's pair is this one. The last bytes are compared first: many records may be of one service.
fn is_pair(other: &[u8], pair: &[u8]) -> bool
    requires { (length other.now ≡ length pair.now) × (8 ≤ length pair.now) }
    ensures { result ≡ same other.now pair.now }
{
    let last = pair.len() - 8;
    octets::word_u64(other, last) == octets::word_u64(pair, last) && octets::equal(other, pair)
}

// How many records are in use: those of their kind at the front. Two records a turn, and the last alone where the places are odd. (By index, since it has to be
// fast: one record a turn takes 1.5 of the instructions, and over chunks_exact(width), with `position` or `take_while` and `count`, 1.75.)
pub fn in_use(address: usize, bounds: &[u8]) -> usize
    requires { address ≤ address_size_v6 }
    ensures { result ≡ in_use address bounds.now }
{
    let width = layout::BOUND_FIXED + address;
    let places = bounds.len() / width;
    for two in 0..places / 2 {
        let passed = 2 * two;
        let at = width * passed;
        if bounds[at] != layout::BOUND_KIND {
            return passed;
        }
        if bounds[at + width] != layout::BOUND_KIND {
            return passed + 1;
        }
    }
    if places % 2 > 0 && bounds[width * (places - 1)] != layout::BOUND_KIND {
        return places - 1;
    }
    places
}

// Whether the length is that of 1 to 1,000 places.
fn has_places(address: usize, bounds: &[u8]) -> bool
    requires { address ≤ address_size_v6 }
    ensures { result ≡ fits address bounds.now }
{
    let width = layout::BOUND_FIXED + address;
    let places = bounds.len() / width;
    1 <= places && places <= MOST_BOUNDS && bounds.len() == width * places
}

// What the check tells of bounds that are of their form: a time that no until is before, and how many records stand before the first of a pair, all of them where
// none is of it.
#[derive(Clone, Copy)]
pub struct Form {
    pub least: u64,
    pub index: usize,
}

// The check of the form, which answers nothing where it is wrong, for every seed: that only makes the time that the check takes one that nobody can choose. With fewer than two records in use it is not needed.
pub fn check(address: usize, bounds: &[u8], used: usize, seed: u64, pair: &[u8]) -> Option<Form>
    requires { (address ≤ address_size_v6) × (used ≡ in_use address bounds.now) × (length pair.now ≡ pair_size address) }
    ensures { Told address pair.now (bounds_in address bounds.now) (well_bounded address bounds.now) result }
{
    if !has_places(address, bounds) {
        return None;
    }
    let form = once::check(address, bounds, used, seed, pair)?;
    let end = (layout::BOUND_FIXED + address) * used;
    if !octets::is_zero(&bounds[end..]) {
        return None;
    }
    Some(form)
}
