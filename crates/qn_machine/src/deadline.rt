//! Waits that end at a moment of the monotonic clock, however often a call is interrupted.
use std::io::{self, ErrorKind};
use std::time::{Clock, Duration};

/// The moment at which a wait ends, on the monotonic clock.
#[derive(Clone, Copy)]
pub(crate) struct Deadline(Duration);

impl Deadline {
    /// The moment that many milliseconds from now.
    pub(crate) fn after<C: Clock>(clock: &C, millis: u64) -> io::Result<Deadline> {
        let now = clock.monotonic()?;
        Ok(Deadline(now.saturating_add(Duration::from_millis(millis))))
    }

    /// The time until then, above 0; None where it is over.
    pub(crate) fn left<C: Clock>(self, clock: &C) -> io::Result<Option<Duration>> {
        let left = self.0.saturating_sub(clock.monotonic()?);
        Ok((!left.is_zero()).then_some(left))
    }
}

/// Whether a read gave up because its time was over.
pub(crate) fn is_late(error: &io::Error) -> bool {
    matches!(error.kind(), ErrorKind::WouldBlock | ErrorKind::TimedOut)
}
