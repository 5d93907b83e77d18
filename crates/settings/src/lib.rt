// The settings of document 01 ("What the desk is") that several crates share, as specs/Settings.antt has them. Times are in milliseconds.
// How long an accepted advertisement is live, and the longest wait that a ticket tells: document 01's E.
#![tactic(auto)]

pub const LIFETIME: u64 = 900_000;
// How long after it is due a ticket is taken: the registration window, from 1 to this.
pub const MOST_WINDOW: u64 = 60_000;
// That of the log program and of every new caller, and that of days that were recorded under document 01's.
pub const USUAL_WINDOW: u64 = 10_000;

pub const RECORDED_WINDOW: u64 = 1_000;
// The largest capacity, in every cache.
pub const MAX_CAPACITY: usize = 1_000;
// The largest capacity under the small-registrar profile, and the greatest age of a stamp there, thirty days; its window is the usual one.
pub const SMALL_CAPACITY: usize = 64;

pub const STAMP_AGE: u64 = 2_592_000_000;
// The capacity of the cache of a program, the log and the replay.
pub const PROGRAM_CAPACITY: usize = 256;
// The most advertisements of a listing.
pub const MOST_LISTED: usize = 10;
// The last clock, 2^40 - 1.
pub const LAST_CLOCK: u64 = 1_099_511_627_775;
// The length of a registrar's key, in bytes.
pub const KEY_SIZE: usize = 32;
