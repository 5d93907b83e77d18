// The wait in doubles, as published simulators work it out (document 02, order 11): numbers in, a wait in milliseconds out, in a fixed order of operations, each
// rounded once.
//
// Promised: `wait` is the definition `double_wait` of specs/Doubles.antt, operation by operation in the logic's IEEE 754, on every input. On an empty registrar
// the factor is exactly 1.0, for every capacity. For numbers that are in order the wait is finite, not 0 and without a sign, so its bits may be subtracted.
// Not here: the recipe, which is `wait`'s, and what a simulator told.
#![tactic(auto)]

ghost use Rattle.std.specs.Prelude.{◌≡◌};
ghost use Rattle.double_wait.specs.Doubles.{settings_of, free_of, power_of, factor_of, EmptyExactlyOne, share_of, double_wait, InOrderProper};

// The settings E, C and G together, as doubles: the lifetime in milliseconds, the capacity, and the least share of a wait.
#[derive(Clone, Copy)]
pub struct Settings {
    pub lifetime: f64,
    pub capacity: f64,
    pub least: f64,
}

pub fn settings_for(capacity: u16) -> Settings
    ensures { result ≡ settings_of capacity }
{
    Settings {
        lifetime: 900000.0,
        capacity: capacity as f64,
        least: 0.0000001,
    }
}

// What is free of the capacity: o.
#[tactic(auto, unfolding(crate::specs::Doubles::free_of))]
fn free(settings: Settings, occupancy: u16) -> f64
    ensures { result ≡ free_of settings occupancy }
{
    1.0 - occupancy as f64 / settings.capacity
}

// 1 multiplied ten times by o: d.
#[tactic(auto, unfolding(crate::specs::Doubles::power_of, crate::specs::Doubles::times))]
fn power(o: f64) -> f64
    ensures { result ≡ power_of o }
{
    let mut d = 1.0;
    for _ in 0..10u8 {
        d *= o;
    }
    d
}

// The factor by which a wait grows with the occupancy: f. On an empty registrar it is exactly 1.0.
pub fn factor(settings: Settings, occupancy: u16) -> f64
    ensures works_out { result ≡ factor_of settings occupancy }
    ensures empty_exactly_one { EmptyExactlyOne settings occupancy result }
{
    1.0 / power(free(settings, occupancy))
}

// The share of the lifetime that a wait has before it grows: x.
#[tactic(auto, unfolding(crate::specs::Doubles::share_of))]
fn share(settings: Settings, serving: u16, similarity: u8) -> f64
    ensures { result ≡ share_of settings serving similarity }
{
    (serving as f64 / settings.capacity + similarity as f64 / 32.0) + settings.least
}

// The wait of a newcomer, in milliseconds, where `occupancy` of the capacity are live and `serving` of these are for the newcomer's service. `similarity` is
// from 0 to 32.
pub fn wait(settings: Settings, occupancy: u16, serving: u16, similarity: u8) -> f64
    ensures works_out { result ≡ double_wait settings occupancy serving similarity }
    ensures in_order_proper { InOrderProper settings occupancy serving similarity result }
{
    let f = factor(settings, occupancy);
    let x = share(settings, serving, similarity);
    (settings.lifetime * f) * x
}
