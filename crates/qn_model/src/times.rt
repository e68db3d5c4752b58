//! The five times of an image, and whether they are safe.
ghost use Rattle.std.specs.Prelude.{◌≡◌, ◌≤◌, IsTrue};
ghost use Rattle.qn_model.specs.Timing.{is_period, is_safe, outlasts_feeds};

use qn_base::LONGEST_PERIOD;

/// The five times of an image, in milliseconds: the watchdog, how long a written message takes to be
/// met (msgwait), the loop, the limit of a mailbox read, and the delay of a feed (sbd(8); read limit and
/// feed delay are this project's profile).
#[derive(Clone, Copy, PartialEq, Eq, Debug)]
pub struct Timing {
    pub watchdog: u64,
    pub msgwait: u64,
    pub loop_ms: u64,
    pub read_limit: u64,
    pub feed_delay: u64,
}

impl Timing {
    ghost use Rattle.std.specs.Prelude.{◌≡◌, ◌≤◌, IsTrue};
    ghost use Rattle.qn_model.specs.Timing.{has_periods, usual_times};

    /// The times that an image gets where none are given: 5000, 10000, 1000, 2000 and 1000 (sbd(8); read limit
    /// and feed delay are this project's profile).
    pub fn usual() -> Timing
        ensures { result ≡ usual_times }
    {
        Timing {
            watchdog: 5000,
            msgwait: 10000,
            loop_ms: 1000,
            read_limit: 2000,
            feed_delay: 1000,
        }
    }

    /// Whether each of the times is 1 to `LONGEST_PERIOD` milliseconds.
    pub fn has_periods(&self) -> bool
        ensures exact { result ≡ has_periods self.now }
        ensures watchdog { IsTrue result → self.now.watchdog ≤ LONGEST_PERIOD }
        ensures msgwait { IsTrue result → self.now.msgwait ≤ LONGEST_PERIOD }
        ensures read_limit { IsTrue result → self.now.read_limit ≤ LONGEST_PERIOD }
        ensures feed_delay { IsTrue result → self.now.feed_delay ≤ LONGEST_PERIOD }
    {
        is_period(self.watchdog)
            && is_period(self.msgwait)
            && is_period(self.loop_ms)
            && is_period(self.read_limit)
            && is_period(self.feed_delay)
    }
}

/// Whether each time is 1 to `LONGEST_PERIOD` milliseconds, and a node that misses a reset written to its
/// mailbox is down within msgwait, with clocks that may be one per cent off.
pub fn timing_safe(timing: &Timing) -> bool
    ensures { result ≡ is_safe timing.now }
{
    timing.has_periods() && outlasts_feeds(timing)
}

fn is_period(time: u64) -> bool
    ensures exact { result ≡ is_period time }
    ensures bounds { IsTrue result → (1 ≤ time) × (time ≤ LONGEST_PERIOD) }
{
    time >= 1 && time <= LONGEST_PERIOD
}

fn outlasts_feeds(timing: &Timing) -> bool
    requires watchdog { timing.now.watchdog ≤ LONGEST_PERIOD }
    requires msgwait { timing.now.msgwait ≤ LONGEST_PERIOD }
    requires read_limit { timing.now.read_limit ≤ LONGEST_PERIOD }
    requires feed_delay { timing.now.feed_delay ≤ LONGEST_PERIOD }
    ensures { result ≡ outlasts_feeds timing.now }
{
    let silence = timing.read_limit + 1 + timing.watchdog + timing.feed_delay;
    99 * timing.msgwait.saturating_sub(1) >= 101 * silence
}
