//! Reads the clocks of a pass of time, word by word.
ghost use Rattle.std.specs.Prelude.{◌≡◌, ◌<◌, IfOk};
ghost use Rattle.std.specs.Option.{option_copied};
ghost use Rattle.qn_model.specs.Settings.{ids};
ghost use Rattle.qn_sched.specs.ClockList.{clocks_read, no_clocks};
ghost use Rattle.qn_sched.specs.EventReading.{clock_at, clock_of, clocks_of};
ghost use Rattle.qn_sched.specs.Words.{parts_left};

use crate::members::known_rank;
use crate::numbers::number_between;
use crate::words::first_part;
use qn_base::Rank;
use qn_model::{Clocks, LineFault, Nodes};

/// The clocks of a pass while its words are judged one by one.
#[derive(Drop)]
pub(crate) struct ClockList {
    pub(crate) clocks: Clocks,
    /// The least rank that the next clock may have.
    next: u8,
    /// Whether every clock so far stands above the one before it.
    pub(crate) is_sound: bool,
}

impl ClockList {
    ghost use Rattle.std.specs.Prelude.{◌≡◌, ◌≤◌, ◌<◌, length};
    ghost use Rattle.qn_sched.specs.ClockList.{no_clocks, with_clock};

    /// No clock was read yet.
    pub(crate) fn new() -> Self
        ensures { result ≡ no_clocks }
    {
        ClockList {
            clocks: Clocks::new(),
            next: 0,
            is_sound: true,
        }
    }

    /// Adds one more clock.
    fn add(&mut self, clock: (Rank, u64))
        requires few { length self.old.clocks ≤ self.old.next }
        requires within { clock.0.0 < 32 }
        ensures value { self.new ≡ with_clock self.old clock }
        ensures few { length self.new.clocks ≤ self.new.next }
    {
        let rank = clock.0.0;
        if self.is_sound && self.next <= rank {
            self.clocks.push(clock);
            self.next = rank + 1;
        } else {
            self.is_sound = false;
        }
    }
}

/// Adds the clocks of a pass of which these words are left to a list that has none. The first fault from left to right is
/// named; that the ids do not ascend strictly comes after the faults of the words, and is said by the list.
#[tactic(auto, unfolding(crate::specs::ClockList::finished))]
pub(crate) fn read_clocks(
    nodes: &Nodes,
    words: Option<&[u8]>,
    list: &mut ClockList,
) -> Result<(), LineFault>
    requires { list.old ≡ no_clocks }
    ensures { clocks_read result list.new
        ≡ clocks_of (ids nodes.now) (parts_left 32 (option_copied words.entry)) }
{
    let mut rest = words;
    'words: while let Some(text) = rest {
        let (word, more) = first_part(text, b' ');
        list.add(read_clock(nodes, word)?);
        rest = more;
    }
    Ok(())
}

/// A clock, `ID=ADVANCE`.
fn read_clock(nodes: &Nodes, word: &[u8]) -> Result<(Rank, u64), LineFault>
    ensures value { result ≡ clock_of (ids nodes.now) word.now }
    ensures within { IfOk result (λ clock. clock.0.0 < 32) }
{
    let (id, rest) = first_part(word, b'=');
    match rest {
        Some(advance) => read_clock_at(nodes, id, advance),
        None => Err(LineFault::BadNumber),
    }
}

/// A clock whose two words stand apart.
#[tactic(auto, unfolding(crate::specs::EventReading::clock_at))]
fn read_clock_at(nodes: &Nodes, id: &[u8], advance: &[u8]) -> Result<(Rank, u64), LineFault>
    ensures value { result ≡ clock_at (ids nodes.now) id.now advance.now }
    ensures within { IfOk result (λ clock. clock.0.0 < 32) }
{
    let rank = known_rank(nodes, id)?;
    let advance = number_between(0, 1_000_000_000_000, advance)?;
    Ok((rank, advance))
}
