//! Why a take-over has no bound.

/// The first condition of a take-over within a bound that is not met.
#[derive(Clone, Copy, PartialEq, Eq, Drop)]
pub enum Unbounded {
    /// A call of the disk may take as long as a loop: then the mailbox is due again at each answer, and nothing is fenced.
    Loop,
    /// A read of the own mailbox may come after the read limit: then it does not feed the watchdog.
    ReadLimit,
    /// Two feeds may be further apart than the watchdog's time.
    Watchdog,
}

impl Unbounded {
    /// What it says of times with which no disk is fast enough.
    pub fn of_times(self) -> &'static str {
        match self {
            Unbounded::Loop => "the loop is too short for a call of the disk",
            Unbounded::ReadLimit => "the read limit is too short for a call of the disk",
            Unbounded::Watchdog => TOO_LONG_FOR_THE_WATCHDOG,
        }
    }

    /// What it says of a disk that is too slow for the times.
    pub fn of_disk(self) -> &'static str {
        match self {
            Unbounded::Loop => "the disk is too slow for this loop",
            Unbounded::ReadLimit => "the disk is too slow for the read limit",
            Unbounded::Watchdog => TOO_LONG_FOR_THE_WATCHDOG,
        }
    }
}

const TOO_LONG_FOR_THE_WATCHDOG: &str =
    "the loop, two calls of the disk and the feed delay do not fit in the watchdog's time";
