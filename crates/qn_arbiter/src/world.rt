//! A world beside an arbiter and its public calls.
ghost use Rattle.std.specs.Prelude.{◌≡◌};
ghost use Rattle.qn_arbiter.specs.Stepping.{blank_report};

use crate::state::State;
use qn_base::{Mask, NoMemory};
use qn_model::{Refused, Rule, Settings, Timing};
use qn_safety::{ArbiterEvent, ArbiterReport, Lease, Said, law_one_lease};
use std::alloc::Global;
use std::marker::Model;

/// A cluster in true time beside its arbiter: the nodes and the image that they share, the arbiter where it runs, the pollers
/// of the nodes, and the polls and the replies that were sent. It changes by events, each of which one of fifteen rules may
/// refuse; `apply` takes its memory from the allocator that `new` was given.
#[derive(Drop)]
pub struct ArbiterWorld {
    state: State,
}

impl Model for ArbiterWorld {
    ghost use Rattle.qn_arbiter.specs.Whole.{Whole, whole_of};

    ghost Value = { Whole };

    ghost use Rattle.qn_arbiter.specs.Standing.{IsReached};

    ghost view = { λ w. whole_of w.state };

    ghost invariant = { λ w. IsReached (whole_of w.state) };
}

impl ArbiterWorld {
    ghost use Rattle.std.specs.Prelude.{◌≡◌, ◌<◌, ◌≤◌, ◌+◌, ℕ, true, None, Some, All, IfErr, IfOk, IsTrue, MatchResult, OnErr, OnOk};
    ghost use Rattle.qn_base.specs.declared.limits.TheConstants.{LATEST_TIME};
    ghost use Rattle.qn_base.specs.Members.{is_member};
    ghost use Rattle.qn_safety.specs.ArbiterRules.{is_well_formed_beside, refusal_beside};
    ghost use Rattle.qn_safety.specs.ArbiterSteps.{report_beside, step_beside};
    ghost use Rattle.qn_safety.specs.ArbiterWorld.{ArbiterWorld as World, first_arbiter_world};
    ghost use Rattle.qn_safety.specs.Lease.{is_safe_lease};
    ghost use Rattle.qn_model.specs.Settings.{IsValid};
    ghost use Rattle.qn_model.specs.Steps.{holders};
    ghost use Rattle.qn_model.specs.Timing.{is_safe};
    ghost use Rattle.qn_node.specs.Outputs.{IsNodeOutput};
    ghost use Rattle.qn_arbiter.specs.Memory.{needs_memory};
    ghost use Rattle.qn_arbiter.specs.Standing.{ArbiterFor};
    ghost use Rattle.qn_arbiter.specs.Stepping.{OneVoteIn, RefusedBy};

    /// The first world: all nodes and the arbiter are off, no slot was ever claimed, all mailboxes are empty, and nothing was
    /// sent.
    pub fn new(
        alloc: Global,
        settings: Settings,
        timing: Timing,
        lease: Lease,
    ) -> Result<ArbiterWorld, NoMemory>
        requires valid { IsValid settings }
        requires safe { is_safe timing ≡ true }
        requires safe_lease { is_safe_lease settings lease ≡ true }
        ensures first { IfOk result (λ w. ArbiterFor w (first_arbiter_world lease)) }
        ensures settings { IfOk result (λ w. w.settings ≡ settings) }
        ensures timing { IfOk result (λ w. w.timing ≡ timing) }
        ensures lease { IfOk result (λ w. w.lease ≡ lease) }
        ensures steps { IfOk result (λ w. w.steps ≡ u64.MAX) }
    {
        let state = State::first(alloc, settings, timing, lease)?;
        Ok(ArbiterWorld { state })
    }

    /// Whether an event is allowed, else the rule that refuses it: the first, where several do.
    pub fn allowed(&self, event: &ArbiterEvent) -> Result<(), Rule>
        requires formed { is_well_formed_beside self.now.settings event.now ≡ true }
        requires early { self.now.time ≤ LATEST_TIME }
        ensures { (d : World) → ArbiterFor self.now d → MatchResult result
            (λ _. refusal_beside self.now.settings self.now.timing event.now d ≡ None)
            (λ rule. refusal_beside self.now.settings self.now.timing event.now d ≡ Some rule.0) }
    {
        self.state.allowed(event)
    }

    /// The step of an event, and what it came to. An event that is not allowed is refused first; it runs out of memory
    /// only where a poll or a reply is sent, or the step of the nodes wants memory. After a refusal the world is as it was.
    pub fn apply(&mut self, event: &ArbiterEvent) -> Result<ArbiterReport, Refused>
        requires formed { is_well_formed_beside self.old.settings event.now ≡ true }
        requires early { self.old.time ≤ LATEST_TIME }
        requires room { 0 < self.old.steps }
        ensures stands { OnOk result ((d : World)
            → ArbiterFor self.old d
            → ArbiterFor self.new
            (step_beside self.old.settings self.old.timing self.old.lease event.now d)) }
        ensures report { IfOk result (λ r. (d : World)
            → ArbiterFor self.old d
            → r ≡ report_beside self.old.settings event.now d
            (step_beside self.old.settings self.old.timing self.old.lease event.now d)) }
        ensures outs { IfOk result (λ r. All (IsNodeOutput self.old.settings) r.report.outs) }
        ensures one_holder { IfOk result (λ r. (i j : ℕ)
            → IsTrue (is_member r.report.holders i)
            → IsTrue (is_member r.report.holders j)
            → i ≡ j) }

        // Where the vote is leased, no two running nodes with disjoint present views are both quorate.
        ensures one_vote { OnOk result ((d : World)
            → ArbiterFor self.new d
            → OneVoteIn self.old.settings self.old.lease d) }
        ensures allowed { OnOk result ((d : World)
            → ArbiterFor self.old d
            → refusal_beside self.old.settings self.old.timing event.now d ≡ None) }
        ensures steps { OnOk result (self.new.steps + 1 ≡ self.old.steps) }

        // An event is refused by the first rule that refuses it, or since there is no memory for it.
        ensures refused { IfErr result (λ r. (d : World)
            → ArbiterFor self.old d
            → RefusedBy (refusal_beside self.old.settings self.old.timing event.now d) r) }
        ensures memory { result ≡ Err Refused.NoMemory
            → (d : World)
            → ArbiterFor self.old d
            → needs_memory self.old.settings self.old.timing event.now d ≡ true }
        ensures err { OnErr result (self.new ≡ self.old) }

        ensures settings { self.new.settings ≡ self.old.settings }
        ensures timing { self.new.timing ≡ self.old.timing }
        ensures lease { self.new.lease ≡ self.old.lease }
    {
        let mut report = blank_report();
        self.apply_into(event, &mut report)?;
        Ok(report)
    }

    /// The same as `apply`, with the report written over one that is there. What it holds after a refusal is not said.
    pub fn apply_into(
        &mut self,
        event: &ArbiterEvent,
        into: &mut ArbiterReport,
    ) -> Result<(), Refused>
        requires formed { is_well_formed_beside self.old.settings event.now ≡ true }
        requires early { self.old.time ≤ LATEST_TIME }
        requires room { 0 < self.old.steps }
        ensures stands { OnOk result ((d : World)
            → ArbiterFor self.old d
            → ArbiterFor self.new
            (step_beside self.old.settings self.old.timing self.old.lease event.now d)) }
        ensures report { OnOk result ((d : World)
            → ArbiterFor self.old d
            → into.new ≡ report_beside self.old.settings event.now d
            (step_beside self.old.settings self.old.timing self.old.lease event.now d)) }
        ensures outs { OnOk result (All (IsNodeOutput self.old.settings) into.new.report.outs) }
        ensures one_holder { OnOk result ((i j : ℕ)
            → IsTrue (is_member into.new.report.holders i)
            → IsTrue (is_member into.new.report.holders j)
            → i ≡ j) }

        // Where the vote is leased, no two running nodes with disjoint present views are both quorate.
        ensures one_vote { OnOk result ((d : World)
            → ArbiterFor self.new d
            → OneVoteIn self.old.settings self.old.lease d) }
        ensures allowed { OnOk result ((d : World)
            → ArbiterFor self.old d
            → refusal_beside self.old.settings self.old.timing event.now d ≡ None) }
        ensures steps { OnOk result (self.new.steps + 1 ≡ self.old.steps) }

        // An event is refused by the first rule that refuses it, or since there is no memory for it.
        ensures refused { IfErr result (λ r. (d : World)
            → ArbiterFor self.old d
            → RefusedBy (refusal_beside self.old.settings self.old.timing event.now d) r) }
        ensures memory { result ≡ Err Refused.NoMemory
            → (d : World)
            → ArbiterFor self.old d
            → needs_memory self.old.settings self.old.timing event.now d ≡ true }
        ensures err { OnErr result (self.new ≡ self.old) }

        ensures settings { self.new.settings ≡ self.old.settings }
        ensures timing { self.new.timing ≡ self.old.timing }
        ensures lease { self.new.lease ≡ self.old.lease }
    {
        law_one_lease();
        self.state.apply(event, into)?;
        Ok(())
    }

    /// The settings that were handed to `new`.
    pub fn settings(&self) -> &Settings
        ensures same { result.now ≡ self.now.settings }
        ensures valid { IsValid self.now.settings }
    {
        self.state.world.settings()
    }

    /// The true time, in milliseconds.
    pub fn time(&self) -> u64
        ensures { result ≡ self.now.time }
    {
        self.state.world.time()
    }

    /// How many events can still be applied.
    pub fn steps_left(&self) -> u64
        ensures { result ≡ self.now.steps }
    {
        self.state.steps
    }

    /// The nodes that hold the resource: at most one.
    pub fn holders(&self) -> Mask
        ensures exact { (d : World)
            → ArbiterFor self.now d
            → result ≡ holders self.now.settings d.world }
        ensures one_holder { (i j : ℕ)
            → IsTrue (is_member result i)
            → IsTrue (is_member result j)
            → i ≡ j }
    {
        self.state.holders()
    }
}

/// A report of nothing, for the first call of `ArbiterWorld::apply_into`.
pub fn blank_report() -> ArbiterReport
    ensures { result ≡ blank_report }
{
    ArbiterReport {
        report: qn_world::blank_report(),
        said: Said::Nothing,
    }
}
