//! What a node tells the others of itself, and when.
ghost use Rattle.std.specs.Prelude.{◌≡◌};
ghost use Rattle.qn_told.specs.Tellings.{changes, is_old, since_after};

use qn_shown::{Group, Told};

/// How the node is, as it tells it.
#[derive(Clone, Copy)]
pub struct Telling {
    /// How the group of resources of this host is.
    pub group: Group,
    /// The tick from which on it holds; None where it does not.
    since: Option<u64>,
    /// The tick at which it told last.
    told: Option<u64>,
}

impl Telling {
    ghost use Rattle.std.specs.Prelude.{◌≡◌, None, true, is_some, option_map};
    ghost use Rattle.qn_told.specs.Tellings.{after_telling, held_ms, is_change, is_due, told_of};

    /// A node that told nothing.
    pub fn new() -> Telling
        ensures { result ≡ record { group = Group.NoGroup; since = None; told = None } }
    {
        Telling {
            group: Group::NoGroup,
            since: None,
            told: None,
        }
    }

    /// For how many milliseconds it holds at that tick; None where it does not.
    pub fn held_ms(&self, tick: u64) -> Option<u64>
        ensures { result ≡ held_ms self.now tick }
    {
        let since = self.since?;
        Some(tick.saturating_sub(since))
    }

    /// Takes whether it holds at that tick, and gives whether that is to be told now: at once where it changed, and once a loop.
    pub fn is_due(&mut self, tick: u64, loop_ms: u64, holds: bool) -> bool
        ensures due { result ≡ is_due self.old tick loop_ms holds }
        ensures after { self.new ≡ after_telling self.old tick loop_ms holds }
        ensures at_once { is_change self.old holds ≡ true → result ≡ true }
        ensures holds { is_some self.new.since ≡ holds }
    {
        let is_due = is_change(self.since, holds) || is_old(self.told, tick, loop_ms);
        self.since = since_after(self.since, tick, holds);
        if is_due {
            self.told = Some(tick);
        }
        is_due
    }

    /// What it tells at that tick, in the boot of that number; None before there is one.
    pub fn telling(
        &self,
        tick: u64,
        incarnation: Option<u64>,
        leaving: bool,
        quorate: bool,
    ) -> Option<Told>
        ensures { result
            ≡ option_map (told_of self.now tick leaving quorate) incarnation }
    {
        Some(Told {
            group: self.group,
            held_ms: self.held_ms(tick).unwrap_or(0),
            holds: self.since.is_some(),
            incarnation: incarnation?,
            leaving,
            quorate,
        })
    }
}

/// Whether a node holds otherwise than before.
fn is_change(since: Option<u64>, holds: bool) -> bool
    ensures { result ≡ changes since holds }
{
    match since {
        Some(_) => !holds,
        None => holds,
    }
}

/// Whether a node told nothing for a loop.
fn is_old(told: Option<u64>, tick: u64, loop_ms: u64) -> bool
    ensures { result ≡ is_old told tick loop_ms }
{
    match told {
        Some(told) => tick >= told.saturating_add(loop_ms),
        None => true,
    }
}

/// Since when a node holds that holds at that tick, or does not.
fn since_after(since: Option<u64>, tick: u64, holds: bool) -> Option<u64>
    ensures { result ≡ since_after since tick holds }
{
    match since {
        Some(since) if holds => Some(since),
        Some(_) | None => holds.then_some(tick),
    }
}
