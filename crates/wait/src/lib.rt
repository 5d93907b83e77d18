// The waiting time of an advertisement (document 01, section "The wait"): numbers in, a wait out.
//
// Promised: `wait` is the definition `wait_of` of specs/Wait.antt, in 64 bits and with nothing that wraps, for
// addresses of 1 to 128 bits and capacities of 1 to 1,000. proofs/Laws.antt holds that definition to the exact wait
// of specs/Exact.antt. Not here: how ads are counted and addresses compared.
#![tactic(auto)]

ghost use Rattle.std.specs.Prelude.{◌≡◌, ◌+◌, ◌*◌, ◌≤◌, ◌<◌, ◌^◌, min};
ghost use Rattle.settings.specs.Settings.{max_capacity};
ghost use Rattle.wait.specs.Wait.{InRange, Worked, stop, ceil, times_factor, start_of, millis_of, wait_of};

use times::Millis;

// A time in ticks, of which 8,192 make a millisecond: document 01's grains.
#[derive(Clone, Copy)]
pub struct Ticks(pub u64);

const TICKS_PER_MILLI: u64 = 8_192;

// How often the factor C / (C - c) is applied.
const FACTORS: u64 = 10;
// G is one of so many parts.
const PARTS: u64 = 10_000_000;
// The working, in ticks, is held to 2^53. So many ticks are 2^40 ms, so the step to milliseconds then gives the longest wait.
const STOP: u64 = 9_007_199_254_740_992;
// The longest wait, in milliseconds: 2^40.
const CAP: u64 = 1_099_511_627_776;

// The start is a fraction over capacity × bits: `WHOLE` for each whole of s/C and p/n, `LEAST` for G, `UNDER` below.
// Both sides are divided by `COMMON`, so that they fit 64 bits.
const COMMON: u64 = 100_000;

const LEAST: u64 = settings::LIFETIME * TICKS_PER_MILLI / COMMON;

const WHOLE: u64 = LEAST * PARTS;

const UNDER: u64 = PARTS / COMMON;

// The one step from ticks to milliseconds, rounded up. The stop becomes the longest wait.
#[tactic(auto, using(crate::proofs::Ceil::ceil_is))]
fn to_millis(ticks: Ticks) -> Millis
    requires { ticks.0 ≤ stop }
    ensures { result.0 ≡ millis_of ticks.0 }
{
    Millis(ticks.0.div_ceil(TICKS_PER_MILLI))
}

// The sum of the start's three terms, rounded up once.
#[tactic(auto, using(crate::proofs::Ceil::ceil_is))]
fn sum_up(services: u64, similar: u64, least: u64, under: u64) -> Ticks
    requires { (1 ≤ under) × (services + similar + least + under ≤ 2 ^ 64) }
    ensures { result.0 ≡ ceil (services + similar + least) under }
{
    Ticks((services + similar + least).div_ceil(under))
}

// The working where the wait begins: E · (s/C + p/n + G), in ticks, rounded up. Occupancy has no part in it.
#[tactic(auto, using(crate::proofs::Reduced::products, crate::proofs::Reduced::start_reduced))]
fn start(bits: u64, capacity: u64, serving: u64, similarity: u64) -> Ticks
    requires { InRange bits capacity 0 serving similarity }
    ensures { result.0 ≡ start_of bits capacity serving similarity }
{
    let services = WHOLE * (serving * bits);
    let similar = WHOLE * (similarity * capacity);
    let cells = capacity * bits;
    sum_up(services, similar, LEAST * cells, UNDER * cells)
}

// One factor capacity / free: rounded up to a whole tick, and held to the stop.
#[tactic(auto, using(crate::proofs::Ceil::ceil_is))]
fn times_factor(ticks: Ticks, capacity: u64, free: u64) -> Ticks
    requires { (1 ≤ free) × (ticks.0 * capacity + free ≤ 2 ^ 64) }
    ensures { result.0 ≡ min stop (times_factor capacity free ticks.0) }
{
    Ticks(STOP.min((ticks.0 * capacity).div_ceil(free)))
}

// The working `factors` factors capacity / free after `from`. Held at the stop, so that the product fits 64 bits. It recurs on the number of factors, and is no
// loop, since document 01 names that form for it (docs/SPECIFICATION.md).
#[tactic(auto, using(crate::proofs::Growth::held_fits))]
fn grow(capacity: u64, free: u64, from: Ticks, factors: u64) -> Ticks
    requires { (1 ≤ free) × (free ≤ capacity) × (capacity ≤ max_capacity) }
    ensures { Worked capacity free from.0 factors result.0 }
{
    if factors == 0 {
        return Ticks(STOP.min(from.0));
    }
    times_factor(grow(capacity, free, from, factors - 1), capacity, free)
}

// The wait of a newcomer, in milliseconds, where addresses have `bits` bits and the cache takes `capacity`
// ads: `occupancy` are live, and `serving` of these are for the newcomer's service. `similarity` is 0 to `bits`.
#[tactic(auto, using(crate::proofs::Held::wait_grown, crate::proofs::Laws::full_waits_cap))]
pub fn wait(bits: u64, capacity: u64, occupancy: u64, serving: u64, similarity: u64) -> Millis
    requires { InRange bits capacity occupancy serving similarity }
    ensures { result.0 ≡ wait_of bits capacity occupancy serving similarity }
{
    if occupancy == capacity {
        return Millis(CAP);
    }
    let from = start(bits, capacity, serving, similarity);
    to_millis(grow(capacity, capacity - occupancy, from, FACTORS))
}
