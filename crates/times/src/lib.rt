// What times alone decide: from when on an entry is live, which times a ticket may carry and when it is taken, whether a wait is stayed and what is left of
// it, and which stamps are fresh. Numbers in, in milliseconds, and a number or a yes or no out. Not here: where the times stand in a record, and how long the wait is.
#![tactic(auto)]

ghost use Rattle.std.specs.Prelude.{◌≡◌, ◌+◌, ◌≤◌};
ghost use Rattle.settings.specs.Settings.{lifetime, last_clock, most_window};
ghost use Rattle.times.specs.Times.{live_from, timely, is_window, in_window, is_over, remainder, oldest_stamp, is_fresh};

// A time in milliseconds.
#[derive(Clone, Copy, PartialEq, PartialOrd)]
pub struct Millis(pub u64);

// The earliest accepted time of an entry that is live at the clock.
pub fn horizon(clock: u64) -> u64
    ensures { result ≡ live_from clock }
{
    clock.saturating_sub(settings::LIFETIME - 1)
}

// Whether a ticket may carry these times, where it was issued at `latest` at the latest.
#[tactic(auto, unfolding(crate::specs::Times::timely))]
pub fn is_timely(first: u64, issued: u64, wait: u64, latest: u64) -> bool
    ensures { result ≡ timely latest first issued wait }
{
    (first..=latest).contains(&issued) && (1..=settings::LIFETIME).contains(&wait)
}

// Whether a call may be given this registration window.
pub fn is_window(window: u64) -> bool
    ensures { result ≡ is_window window }
{
    (1..=settings::MOST_WINDOW).contains(&window)
}

// Whether a ticket that is due then is taken at the clock.
pub fn in_window(window: u64, due: u64, clock: u64) -> bool
    requires { (window ≤ most_window) × (due ≤ last_clock + lifetime) }
    ensures { result ≡ in_window window due clock }
{
    (due..=due + window).contains(&clock)
}

// Whether a wait is stayed: an equal time is enough.
pub fn is_over(wait: Millis, stayed: Millis) -> bool
    ensures { result ≡ is_over wait.0 stayed.0 }
{
    wait <= stayed
}

// What is left of a wait, as a ticket tells it: at most the lifetime of an entry.
pub fn remaining(wait: Millis, stayed: Millis) -> Millis
    requires { stayed.0 ≤ wait.0 }
    ensures { result.0 ≡ remainder wait.0 stayed.0 }
{
    Millis(settings::LIFETIME.min(wait.0 - stayed.0))
}

// The oldest stamp that is taken or listed at the clock under the small-registrar profile. Nothing is subtracted from a stamp or added to one: it may have any
// 64 bits.
pub fn oldest_stamp(clock: u64) -> u64
    ensures { result ≡ oldest_stamp clock }
{
    clock.saturating_sub(settings::STAMP_AGE)
}

// Whether a stamp is neither older than that nor after the clock.
pub fn is_fresh(clock: u64, stamp: u64) -> bool
    ensures { result ≡ is_fresh clock stamp }
{
    (oldest_stamp(clock)..=clock).contains(&stamp)
}
