//! Times of an image, and how long a take-over takes with them.
ghost use Rattle.std.specs.Prelude.{◌≡◌, ◌<◌, ◌≤◌, ◌*◌, ℕ, IsTrue, IfSome, IfNone, None, false};
ghost use Rattle.qn_base.specs.declared.limits.TheConstants.{LONGEST_PERIOD};
ghost use Rattle.qn_model.specs.Timing.{has_periods, is_safe};
ghost use Rattle.qn_control.specs.Times.{take_over, ticks_of, turn_on, unbounded, with_msgwait};

use crate::unbounded::Unbounded;
use qn_base::LONGEST_PERIOD;
use qn_model::{Timing, timing_safe};

/// The least msgwait, in milliseconds, with which the other times are safe; None where there is none up to an hour (sbd(8), msgwait).
pub fn least_msgwait(timing: &Timing) -> Option<u64>
    ensures safe { IfSome result (λ msgwait. IsTrue (is_safe (with_msgwait timing.now msgwait))) }
    ensures least { IfSome result (λ msgwait. (less : ℕ) → 1 ≤ less → less < msgwait
        → is_safe (with_msgwait timing.now less) ≡ false) }
    ensures none { IfNone result ((msgwait : ℕ) → 1 ≤ msgwait → msgwait ≤ LONGEST_PERIOD
        → is_safe (with_msgwait timing.now msgwait) ≡ false) }
{
    for msgwait in 1..LONGEST_PERIOD + 1 {
        if is_safe_with(timing, msgwait) {
            return Some(msgwait);
        }
    }
    None
}

/// Whether the times are safe with this msgwait.
fn is_safe_with(timing: &Timing, msgwait: u64) -> bool
    ensures { result ≡ is_safe (with_msgwait timing.now msgwait) }
{
    timing_safe(&Timing {
        watchdog: timing.watchdog,
        msgwait,
        loop_ms: timing.loop_ms,
        read_limit: timing.read_limit,
        feed_delay: timing.feed_delay,
    })
}

/// The slowest disk, by the milliseconds that each of its calls takes at most, on which a take-over has a bound; None where even a
/// disk of one millisecond is too slow for the times.
pub fn slowest_disk(timing: &Timing) -> Option<u64>
    requires { IsTrue (has_periods timing.now) }
    ensures some { IfSome result (λ disk. 1 ≤ disk) }
    ensures period { IfSome result (λ disk. disk ≤ LONGEST_PERIOD) }
    ensures bounded { IfSome result (λ disk. unbounded timing.now disk ≡ None) }
    ensures slowest { IfSome result (λ disk. (slower : ℕ) → disk < slower
        → ¬ (unbounded timing.now slower ≡ None)) }
    ensures none { IfNone result ((disk : ℕ) → 1 ≤ disk → ¬ (unbounded timing.now disk ≡ None)) }
{
    for faster in 0..timing.loop_ms {
        let disk = timing.loop_ms - faster;
        if unbounded_on(timing, disk).is_none() {
            return Some(disk);
        }
    }
    None
}

/// The first condition of a take-over within a bound that is not met on a disk whose calls take so many milliseconds at most;
/// None where all are met: a call takes less than a loop, so that it is not all reads of the mailbox; each read of the mailbox
/// comes within the read limit; and two feeds are never a watchdog apart.
pub fn unbounded_on(timing: &Timing, disk: u64) -> Option<Unbounded>
    requires periods { IsTrue (has_periods timing.now) }
    requires disk { disk ≤ LONGEST_PERIOD }
    ensures { result ≡ unbounded timing.now disk }
{
    let call = ticks_of(disk);
    if call >= timing.loop_ms {
        Some(Unbounded::Loop)
    } else if 101 * disk > 100 * timing.read_limit {
        Some(Unbounded::ReadLimit)
    } else if timing.loop_ms + turn_on(disk) + call + timing.feed_delay > timing.watchdog {
        Some(Unbounded::Watchdog)
    } else {
        None
    }
}

/// After how many true milliseconds at the latest another node starts the resource, from the end of so many nodes at once: where a
/// call of the disk takes so many milliseconds at most, all other members see one another, and no second thing fails. The part
/// from the view without these nodes on is `take_over_ticks` of the law `law_take_over`. Fence delays and the way of a packet
/// come on top, and where it takes longer than fencing and msgwait, the hearing of the other members.
pub fn longest_take_over(timing: &Timing, disk: u64, lost: u64) -> u64
    requires periods { IsTrue (has_periods timing.now) }
    requires disk { disk ≤ LONGEST_PERIOD }
    requires lost { lost ≤ 31 }
    ensures { result ≡ take_over timing.now disk lost }
{
    let turn = turn_on(disk);
    let news = (timing.loop_ms + 15) / 16 + 2 * turn;
    let missing = 3 * timing.loop_ms + 1 + turn + news + (timing.loop_ms + turn);
    let fencing = ticks_of(disk).max(turn) + 4 * (ticks_of(disk) * lost);
    let ticks = missing + (fencing + 1 + timing.msgwait + turn);
    (100 * ticks + 98) / 99
}

/// How many ticks so many true milliseconds can be.
fn ticks_of(milliseconds: u64) -> u64
    requires { milliseconds ≤ LONGEST_PERIOD }
    ensures exact { result ≡ ticks_of milliseconds }
    ensures bound { result ≤ 2 * LONGEST_PERIOD }
{
    (101 * milliseconds + 99) / 100
}

/// How many ticks pass at most without a turn of a running node, whose waiting takes up to 50 milliseconds.
fn turn_on(disk: u64) -> u64
    requires { disk ≤ LONGEST_PERIOD }
    ensures exact { result ≡ turn_on disk }
    ensures bound { result ≤ 2 * LONGEST_PERIOD }
{
    ticks_of(disk).max(ticks_of(50))
}
