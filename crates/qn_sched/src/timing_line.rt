//! Reads the timing line of a schedule.
ghost use Rattle.std.specs.Prelude.{◌≡◌, ◌≤◌, ◌↔◌, Ok, IsTrue};
ghost use Rattle.std.specs.Option.{option_copied};
ghost use Rattle.qn_model.specs.Timing.{has_periods};
ghost use Rattle.qn_model.specs.declared.times.Timing.{Timing};
ghost use Rattle.qn_sched.specs.TimingLine.{time_of, times_of, times_of_words, timing_line, timing_of};
ghost use Rattle.qn_sched.specs.Words.{parts_left};

use crate::numbers::number_between;
use crate::words::{first_part, next_word, no_more_words};
use qn_base::{LONGEST_PERIOD, MOST_LINE_BYTES};
use qn_model::{LineFault, Timing};

/// The five times that a timing line gives, each from 1 to `LONGEST_PERIOD` milliseconds; whether they are
/// safe is another question. The faults, in the order in which they are tried: TooLong above `MOST_LINE_BYTES`,
/// UnknownWord where the first word is not `timing`, BadCount where not five words follow, BadNumber
/// where a time is no number in range.
pub fn read_timing(line: &[u8]) -> Result<Timing, LineFault>
    ensures first_fault { result ≡ timing_of line.now }
    ensures spelled { (timing : Timing)
        → (result ≡ Ok timing) ↔ (IsTrue (has_periods timing) × (line.now ≡ timing_line timing)) }
{
    read_line(line)
}

#[tactic(auto, unfolding(crate::specs::TimingLine::timing_of, crate::specs::TimingLine::timing_of_words))]
fn read_line(line: &[u8]) -> Result<Timing, LineFault>
    ensures { result ≡ timing_of line.now }
{
    if line.len() > MOST_LINE_BYTES {
        return Err(LineFault::TooLong);
    }
    let (first, rest) = first_part(line, b' ');
    if first != b"timing".as_slice() {
        return Err(LineFault::UnknownWord);
    }
    read_words(rest)
}

/// The times of the words after the first, of which there must be five.
#[tactic(auto, unfolding(crate::specs::TimingLine::times_of_words))]
fn read_words(rest: Option<&[u8]>) -> Result<Timing, LineFault>
    ensures { result ≡ times_of_words (parts_left 32 (option_copied rest.entry)) }
{
    let (watchdog, rest) = next_word(rest)?;
    let (msgwait, rest) = next_word(rest)?;
    let (loop_ms, rest) = next_word(rest)?;
    let (read_limit, rest) = next_word(rest)?;
    let (feed_delay, rest) = next_word(rest)?;
    no_more_words(rest)?;
    read_times(watchdog, msgwait, loop_ms, read_limit, feed_delay)
}

#[tactic(auto, unfolding(crate::specs::TimingLine::times_of))]
fn read_times(
    watchdog: &[u8],
    msgwait: &[u8],
    loop_ms: &[u8],
    read_limit: &[u8],
    feed_delay: &[u8],
) -> Result<Timing, LineFault>
    ensures { result ≡ times_of watchdog.now msgwait.now loop_ms.now read_limit.now feed_delay.now }
{
    Ok(Timing {
        watchdog: read_time(watchdog)?,
        msgwait: read_time(msgwait)?,
        loop_ms: read_time(loop_ms)?,
        read_limit: read_time(read_limit)?,
        feed_delay: read_time(feed_delay)?,
    })
}

#[tactic(auto, unfolding(crate::specs::TimingLine::time_of))]
fn read_time(word: &[u8]) -> Result<u64, LineFault>
    ensures { result ≡ time_of word.now }
{
    number_between(1, LONGEST_PERIOD, word)
}
