//! The stages of a node's life, from before its first entry to its end.
use crate::booting::{begin, checked, claimed, cleared, header, slot};
use crate::live::Live;
use crate::own::Own;
use crate::rest::Rest;
use crate::tally::Tally;
use qn_boot::{Boot, WantCheck, WantClaim, WantClear, WantHeader, WantSlot};
use qn_model::{Answer, Entry, Outs, Phase, VoteWhat, Why};
use std::mem;

/// Where a node is in its life.
#[derive(Drop)]
pub enum Stage {
    /// No entry came yet.
    Idle,
    /// The boot waits for the header.
    Header(Boot<WantHeader>),
    /// The boot waits for the own slot.
    Slot(Boot<WantSlot>),
    /// The boot, a clean start, waits for the check of the own mailbox.
    Check(Boot<WantCheck>),
    /// The boot waits for its claim to be written.
    Claim(Boot<WantClaim>),
    /// The boot waits for the own mailbox to be cleared.
    Clear(Boot<WantClear>),
    /// The node takes part.
    Live(Live),
    /// Nothing comes of it any more.
    Rest(Rest),
}

impl Stage {
    ghost use Rattle.std.specs.Prelude.{◌≡◌, ◌≤◌, ◌<◌, ◌+◌, List, [], true, false};
    ghost use Rattle.qn_model.specs.Log.{Line, now};
    ghost use Rattle.qn_model.specs.Fitting.{read_as};
    ghost use Rattle.qn_model.specs.NodeOutputs.{newest_outs, with_entry, with_read};
    ghost use Rattle.qn_model.specs.NodeVotes.{answer_with_tie, votes};
    ghost use Rattle.qn_model.specs.Phases.{is_live};
    ghost use Rattle.qn_model.specs.Unmet.{unmet};
    ghost use Rattle.qn_fence.specs.Fence.{IsAskedInside};
    ghost use Rattle.qn_node.specs.Stage.{StageFor, claims_in, holds_in, installs_in, takes_part, stage_phase};
    ghost use Rattle.qn_node.specs.Tally.{TallyFor};

    /// Takes an entry in, and gives its outputs.
    pub fn step(&mut self, own: &Own, tally: &mut Tally, entry: Entry, outs: &mut Outs)
        requires few { installs_in self.old < u64.MAX }
        requires few_counted { tally.old.installs < u64.MAX }
        requires empty { outs.old ≡ [] }
        ensures few { installs_in self.new ≤ installs_in self.old + 1 }
        ensures few_counted { tally.new.installs ≤ tally.old.installs + 1 }
        ensures counts { (log : List Line)
            → StageFor self.old own.now.settings own.now.me.0 log
            → TallyFor tally.old own.now.settings (votes log)
            → TallyFor tally.new own.now.settings
            (votes (with_entry own.now.settings own.now.me.0 log entry)) }
        ensures stands { (log : List Line)
            → StageFor self.old own.now.settings own.now.me.0 log
            → TallyFor tally.old own.now.settings (votes log)
            → IsAskedInside log
            → now log ≤ entry.tick
            → StageFor self.new own.now.settings own.now.me.0
            (with_entry own.now.settings own.now.me.0 log entry) }
        ensures outs { (log : List Line)
            → StageFor self.old own.now.settings own.now.me.0 log
            → TallyFor tally.old own.now.settings (votes log)
            → now log ≤ entry.tick
            → outs.new ≡ newest_outs (with_entry own.now.settings own.now.me.0 log entry) }
    {
        if let Stage::Live(live) = self {
            if let Some(rest) = live.step(own, tally, entry, outs) {
                *self = Stage::Rest(rest);
            }
            return;
        }
        self.step_quiet(own, tally, entry, outs);
    }

    /// The same, of a node that takes no part.
    #[inline(never)]
    fn step_quiet(&mut self, own: &Own, tally: &mut Tally, entry: Entry, outs: &mut Outs)
        requires quiet { takes_part self.old ≡ false }
        requires few_counted { tally.old.installs < u64.MAX }
        requires empty { outs.old ≡ [] }
        ensures few { installs_in self.new ≡ 0 }
        ensures few_counted { tally.new.installs ≤ tally.old.installs + 1 }
        ensures counts { (log : List Line)
            → StageFor self.old own.now.settings own.now.me.0 log
            → TallyFor tally.old own.now.settings (votes log)
            → TallyFor tally.new own.now.settings
            (votes (with_entry own.now.settings own.now.me.0 log entry)) }
        ensures stands { (log : List Line)
            → StageFor self.old own.now.settings own.now.me.0 log
            → IsAskedInside log
            → StageFor self.new own.now.settings own.now.me.0
            (with_entry own.now.settings own.now.me.0 log entry) }
        ensures outs { (log : List Line)
            → StageFor self.old own.now.settings own.now.me.0 log
            → outs.new ≡ newest_outs (with_entry own.now.settings own.now.me.0 log entry) }
    {
        tally.count(own, entry.tick, VoteWhat::Tick);
        if let Stage::Rest(rest) = self {
            *rest = rest.step(entry.tick, entry.what);
            return;
        }
        self.step_booting(own, entry, outs);
    }

    /// The stage after an entry to a node that boots, with its outputs.
    #[inline(never)]
    fn step_booting(&mut self, own: &Own, entry: Entry, outs: &mut Outs)
        requires quiet { takes_part self.old ≡ false }
        requires empty { outs.old ≡ [] }
        ensures few { installs_in self.new ≡ 0 }
        ensures stands { (log : List Line)
            → StageFor self.old own.now.settings own.now.me.0 log
            → IsAskedInside log
            → StageFor self.new own.now.settings own.now.me.0
            (with_read own.now.settings own.now.me.0 log entry.tick
            (read_as own.now.settings own.now.me.0 log entry.what)) }
        ensures outs { (log : List Line)
            → StageFor self.old own.now.settings own.now.me.0 log
            → outs.new ≡ newest_outs (with_read own.now.settings own.now.me.0 log entry.tick
            (read_as own.now.settings own.now.me.0 log entry.what)) }
    {
        let quiet = mem::replace(self, Stage::Idle);
        *self = quiet.next(own, entry, outs);
    }

    /// The next stage of a node that takes no part, after an entry, of which it gives the outputs.
    fn next(self, own: &Own, entry: Entry, outs: &mut Outs) -> Stage
        requires quiet { takes_part self ≡ false }
        requires empty { outs.old ≡ [] }
        ensures few { installs_in result ≡ 0 }
        ensures stands { (log : List Line)
            → StageFor self own.now.settings own.now.me.0 log
            → IsAskedInside log
            → StageFor result own.now.settings own.now.me.0
            (with_read own.now.settings own.now.me.0 log entry.tick
            (read_as own.now.settings own.now.me.0 log entry.what)) }
        ensures outs { (log : List Line)
            → StageFor self own.now.settings own.now.me.0 log
            → outs.new ≡ newest_outs (with_read own.now.settings own.now.me.0 log entry.tick
            (read_as own.now.settings own.now.me.0 log entry.what)) }
    {
        let Entry { tick, what } = entry;
        match self {
            Stage::Idle => begin(own, tick, what, outs),
            Stage::Header(boot) => header(boot, own, tick, what, outs),
            Stage::Slot(boot) => slot(boot, own, tick, what, outs),
            Stage::Check(boot) => checked(boot, own, tick, what, outs),
            Stage::Claim(boot) => claimed(boot, own, tick, what, outs),
            Stage::Clear(boot) => cleared(boot, own, tick, what, outs),
            Stage::Live(_) => unreachable!(),
            Stage::Rest(rest) => Stage::Rest(rest.step(tick, what)),
        }
    }

    /// The first condition that blocks a start of the resource at this tick, which is not below that of
    /// the last entry. `answer` is the count of votes at the tick, with the tie breaker.
    #[inline(always)]
    pub fn why(&self, own: &Own, tick: u64, answer: Answer) -> Why
        ensures { (log : List Line)
            → StageFor self.now own.now.settings own.now.me.0 log
            → now log ≤ tick
            → answer ≡ answer_with_tie own.now.settings log tick
            → result ≡ unmet own.now.settings own.now.me.0 log tick }
    {
        if let Stage::Live(live) = self {
            live.why(own, tick, answer)
        } else {
            Why::Down
        }
    }

    /// An equal stage, of a node that takes part.
    pub fn copy(&self) -> Self
        requires { is_live (stage_phase self.now) ≡ true }
        ensures { result ≡ self.now }
    {
        match self {
            Stage::Live(live) => Stage::Live(live.copy()),
            Stage::Rest(rest) => Stage::Rest(*rest),
            Stage::Idle
            | Stage::Header(_)
            | Stage::Slot(_)
            | Stage::Check(_)
            | Stage::Claim(_)
            | Stage::Clear(_) => unreachable!(),
        }
    }

    /// The incarnation that was claimed.
    pub fn claims(&self) -> Option<u64>
        ensures { result ≡ claims_in self.now }
    {
        match self {
            Stage::Idle | Stage::Header(_) | Stage::Slot(_) | Stage::Check(_) => None,
            Stage::Claim(boot) => Some(boot.claims()),
            Stage::Clear(boot) => Some(boot.claims()),
            Stage::Live(live) => Some(live.incarnation()),
            Stage::Rest(rest) => rest.claims,
        }
    }

    /// The phase of a node at this stage.
    pub fn phase(&self) -> Phase
        ensures { result ≡ stage_phase self.now }
    {
        match self {
            Stage::Live(live) => live.phase(),
            Stage::Rest(rest) => rest.phase,
            Stage::Idle
            | Stage::Header(_)
            | Stage::Slot(_)
            | Stage::Check(_)
            | Stage::Claim(_)
            | Stage::Clear(_) => Phase::Booting,
        }
    }

    /// Whether a node at this stage holds the resource.
    pub fn holds(&self) -> bool
        ensures { result ≡ holds_in self.now }
    {
        match self {
            Stage::Live(live) => live.holds(),
            Stage::Rest(rest) => rest.resource.is_held(),
            Stage::Idle
            | Stage::Header(_)
            | Stage::Slot(_)
            | Stage::Check(_)
            | Stage::Claim(_)
            | Stage::Clear(_) => false,
        }
    }
}
