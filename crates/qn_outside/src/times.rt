//! What the headers of the images of a node say.
ghost use Rattle.std.specs.Prelude.{◌≡◌};
ghost use Rattle.qn_outside.specs.Times.{lesser};

/// What the headers of the images say, in milliseconds.
#[derive(Clone, Copy, PartialEq, Eq)]
pub struct Times {
    /// The watchdog of the node has to be no slower.
    pub watchdog: u64,
    /// Within half of it a feed is given or not at all.
    pub feed_delay: u64,
}

impl Times {
    ghost use Rattle.std.specs.Prelude.{◌≡◌};
    ghost use Rattle.qn_outside.specs.Times.{least};

    /// Times that bound nothing, of images that say none.
    pub fn longest() -> Times
        ensures watchdog { result.watchdog ≡ u64.MAX }
        ensures feed_delay { result.feed_delay ≡ u64.MAX }
    {
        Times {
            watchdog: u64::MAX,
            feed_delay: u64::MAX,
        }
    }

    /// The lesser of both, each by itself.
    pub(crate) fn least(self, other: Times) -> Times
        ensures { result ≡ least self other }
    {
        Times {
            watchdog: self.watchdog.min(other.watchdog),
            feed_delay: self.feed_delay.min(other.feed_delay),
        }
    }
}

/// The lesser of what two headers say, of those that say any.
pub(crate) fn lesser(first: Option<Times>, second: Option<Times>) -> Option<Times>
    ensures { result ≡ lesser first second }
{
    match (first, second) {
        (Some(first), Some(second)) => Some(first.least(second)),
        (Some(only), None) | (None, Some(only)) => Some(only),
        (None, None) => None,
    }
}
