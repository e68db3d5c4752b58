//! How long a server that keeps an image may take, and that none is tried in the second after a failure.

use crate::deadline::Deadline;
use crate::image::Opener;
use std::io::{self, ErrorKind};
use std::time::{Clock, Duration};

/// How long a call of a node may take, and how long after a failed one no connection is tried, in milliseconds.
const NODE_LIMIT: u64 = 1000;

/// How long a call of a command may take, for which nobody waits, in milliseconds.
const COMMAND_LIMIT: u64 = 10_000;

/// How long a server may take for a call, and from when on it is tried again.
#[derive(Clone, Copy)]
pub(crate) struct ServerTimes {
    /// How long a call may take, in milliseconds.
    limit: u64,
    /// Up to this moment of the monotonic clock no connection is tried.
    rests_until: Duration,
}

impl ServerTimes {
    /// Those of whoever opens the image, before any failure.
    pub(crate) fn of(opener: Opener) -> ServerTimes {
        ServerTimes {
            limit: match opener {
                Opener::Command | Opener::Reader => COMMAND_LIMIT,
                Opener::Node(_) => NODE_LIMIT,
            },
            rests_until: Duration::ZERO,
        }
    }

    /// The moment up to which a call that begins now may last.
    pub(crate) fn end<C: Clock>(self, clock: &C) -> io::Result<Deadline> {
        Deadline::after(clock, self.limit)
    }

    /// Fails in the second after a failure, in which no connection is tried.
    pub(crate) fn check_rest<C: Clock>(self, clock: &C) -> io::Result<()> {
        if clock.monotonic()? < self.rests_until {
            return Err(io::Error::new(
                ErrorKind::NotConnected,
                "the server failed less than a second ago",
            ));
        }
        Ok(())
    }

    /// What a call came to. Where it failed no connection is tried for a second.
    pub(crate) fn noted<C: Clock, T: Drop>(
        &mut self,
        clock: &C,
        done: io::Result<T>,
    ) -> io::Result<T> {
        if done.is_err() {
            let now = clock.monotonic()?;
            self.rests_until = now.saturating_add(Duration::from_millis(NODE_LIMIT));
        }
        done
    }
}
