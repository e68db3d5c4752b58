//! A feed that is given in time or not at all.
ghost use Rattle.std.specs.Prelude.{◌≡◌, ◌↔◌, ◌+◌, ◌<◌, ◌≤◌, IsTrue, IsSomeAnd, OnOk, OnErr, codes};
ghost use Rattle.std.specs.Io.KnownBytes.{Appends, Keeps};
ghost use Rattle.qn_exchange.specs.Feeds.{feed_limit};

use crate::again::write_again;
use std::fmt::{self, Display};
use std::io::{self, Write};

/// A feed is given only within this time after the last answer of `now`, in milliseconds, however long the feed delay of the image is: a
/// stop or a start before it may have taken long.
const LATEST_FEED: u64 = 500;

/// The least feed delay of which half is no less than that, in milliseconds.
const AMPLE_FEED_DELAY: u64 = 1000;

/// How long after the last answer of `now` a feed is still given beside an image of that feed delay, in milliseconds. The other half of the
/// feed delay is for what comes between this look at the clock and the byte.
pub fn feed_limit(feed_delay: u64) -> u64
    ensures { result ≡ feed_limit feed_delay }
{
    (feed_delay / 2).min(LATEST_FEED)
}

/// A feed delay of which half is less than 500 milliseconds.
#[derive(Clone, Copy, PartialEq, Eq, Drop)]
pub struct ShortFeedDelay {
    pub feed_delay: u64,
}

impl ShortFeedDelay {
    ghost use Rattle.std.specs.Prelude.{◌≡◌, ◌==◌, ◌<◌, ◌≤◌, IfSome, IfNone};
    ghost use Rattle.qn_exchange.specs.Feeds.{feed_limit};

    /// That feed delay, where it is short.
    pub fn of(feed_delay: u64) -> Option<ShortFeedDelay>
        ensures short { IfSome result (λ short.
            (short.feed_delay ≡ feed_delay) × (feed_delay < 1000)) }
        ensures ample { IfNone result (1000 ≤ feed_delay) }
    {
        if feed_delay < AMPLE_FEED_DELAY {
            Some(ShortFeedDelay { feed_delay })
        } else {
            None
        }
    }

    /// Whether no feed at all is in time beside it.
    pub fn allows_none(self) -> bool
        ensures { result ≡ (feed_limit self.feed_delay == 0) }
    {
        feed_limit(self.feed_delay) == 0
    }
}

impl Display for ShortFeedDelay {
    fn fmt<W: fmt::Write>(&self, f: &mut fmt::Formatter<W>) -> fmt::Result {
        let feed_delay = self.feed_delay;
        if self.allows_none() {
            return write!(f, "feed delay {feed_delay}: no feed is in time");
        }
        let limit = feed_limit(feed_delay);
        write!(
            f,
            "feed delay {feed_delay}: a feed is given within {limit} ms only; "
        )?;
        f.write_str("a longer stall of the node resets its machine. Take 1000 or more")
    }
}

/// Whether a feed at that tick is in time after the last answer of `now`.
fn is_feed_in_time(last_tick: Option<u64>, tick: u64, feed_delay: u64) -> bool
    ensures { IsTrue result ↔ IsSomeAnd last_tick
        (λ last. (last ≤ tick) × (tick < last + feed_limit feed_delay)) }
{
    match last_tick {
        Some(last) => last <= tick && tick - last < feed_limit(feed_delay),
        None => false,
    }
}

/// Feeds where that is in time beside an image of that feed delay: one byte `1`. Else nothing is written, and the call has failed.
pub fn feed_once<W: Write>(
    last_tick: Option<u64>,
    tick: u64,
    feed_delay: u64,
    writer: &mut W,
) -> io::Result<()>
    ensures in_time { OnOk result (IsSomeAnd last_tick
        (λ last. (last ≤ tick) × (tick < last + feed_limit feed_delay))) }
    ensures fed { OnOk result (Appends (W.contents writer.old) (W.contents writer.new) (codes "1")) }
    ensures nothing { OnErr result (Keeps (W.contents writer.old) (W.contents writer.new)) }
{
    if is_feed_in_time(last_tick, tick, feed_delay) {
        write_again(writer, b"1")?;
        Ok(())
    } else {
        Err(io::Error::other("too late for a feed"))
    }
}
