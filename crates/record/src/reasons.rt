// What a call refuses for, by what is wrong. Each has a number in the table of refusals (docs/HOSTS.md), which is what a host is told.
ghost use Rattle.std.specs.Prelude.{◌≡◌};
ghost use Rattle.record.specs.Refusals.{number_of};

#[derive(Clone, Copy)]
pub enum Refusal {
    // The cache is not well formed, or none can be opened in its length.
    Cache = 1,
    // A key, an identifier, a field or a lent buffer has a wrong length, or the window is out of its range.
    Length = 2,
    // The clock is before the cache's last one, or past the last of all.
    Clock = 3,
    AdLength = 4,
    // The host does not vouch for the signature.
    Unvouched = 5,
    // A live entry has this service and peer already.
    AlreadyHeld = 6,
    // The ticket has a wrong length or kind.
    TicketForm = 7,
    TicketTag = 8,
    TicketTimes = 9,
    // The ticket is for another advertisement.
    OtherAd = 10,
    // The ticket is brought before it is due, or past its window.
    OutsideWindow = 11,
    ProtocolLength = 12,
    AdKind = 13,
    PortZero = 14,
    // The message is in no accepted form.
    MessageForm = 15,
    // The advertisement has no message under the epoch, or the epoch is past its range.
    NoMessage = 16,
    // No live entry is of this service and peer and not withdrawn.
    NotHeld = 17,
    // The bounds are not of their form.
    Bounds = 18,
    // Every place of the bounds is in force for another pair.
    BoundsFull = 19,
    // The stamp is after the clock, or has grown too old.
    Stamp = 20,
}

impl Refusal {
    // The number in the table.
    pub fn number(self) -> u8
        ensures { result ≡ number_of self }
    {
        self as u8
    }
}
