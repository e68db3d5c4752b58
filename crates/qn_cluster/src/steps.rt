//! How a world of nodes and their disk takes an event, whatever the disk is.
use crate::has_nodes::HasNodes;
use qn_base::NoMemory;
use qn_model::{Outs, Refused, Report, Rule, Settings, Timing};
use std::alloc::Global;

/// A world that takes events: a rule refuses an event, else the world makes its step and reports it.
pub trait Steps: HasNodes {
    ghost use Rattle.std.specs.Prelude.{◌≡◌, ◌<◌, ◌≤◌, [], true, None, Some, IfErr, IfOk, MatchResult, OnErr, OnOk};
    ghost use Rattle.qn_base.specs.declared.limits.TheConstants.{LATEST_TIME};
    ghost use Rattle.qn_model.specs.Settings.{IsValid};
    ghost use Rattle.qn_model.specs.Timing.{is_safe};
    ghost use Rattle.qn_cluster.specs.WorldSteps.{Applied, HoldsOnce, IsAllowed, IsFormed, IsReady, IsStanding, Made, OutOfMemory, Refuses, Stepped, outs_of, report_of, rule_of};

    /// What is kept of the first world.
    fn first(alloc: Global, settings: Settings, timing: Timing) -> Result<Self, NoMemory>
        requires valid { IsValid settings }
        requires safe { is_safe timing ≡ true }
        ensures first { IfOk result (λ w. Self.kind.StandsFor w Self.kind.first) }
        ensures settings { IfOk result (λ w. (Self.kind.nodes w).settings ≡ settings) }
        ensures timing { IfOk result (λ w. Self.kind.timing w ≡ timing) }
        ensures steps { IfOk result (λ w. (Self.kind.nodes w).steps ≡ u64.MAX) };

    /// The law that at most one node holds in each world that allowed events lead to.
    fn law_one_holds()
        ensures { HoldsOnce Self.kind };

    /// The number of the rule that refuses an event: the first, where several do.
    fn refusal(&self, event: &Self::Event) -> Option<u8>
        requires formed { IsFormed Self.kind self.now event.now }
        requires standing { IsStanding Self.kind self.now }
        requires early { (Self.kind.nodes self.now).time ≤ LATEST_TIME }
        ensures { (d : Self.World)
            → Self.kind.StandsFor self.now d
            → result ≡ rule_of Self.kind self.now event.now d };

    /// The world makes the step of an event that is allowed; or it finds no memory, and is as it was.
    fn step(&mut self, event: &Self::Event, outs: &mut Outs) -> Result<(), NoMemory>
        requires ready { IsReady Self.kind self.old event.now }
        requires none { outs.old ≡ [] }
        ensures ok { OnOk result (Stepped Self.kind self.old self.new event.now outs.new) }
        ensures err { OnErr result (OutOfMemory Self.kind self.old self.new event.now) };

    /// Fills in what is reported of an event once its step is made, beside the outputs that it gave.
    fn fill(&self, event: &Self::Event, into: &mut Report)
        requires formed { IsFormed Self.kind self.now event.now }
        requires standing { IsStanding Self.kind self.now }
        ensures { (d : Self.World)
            → Self.kind.StandsFor self.now d
            → into.old.outs ≡ outs_of Self.kind self.now event.now d
            → into.new ≡ report_of Self.kind self.now event.now d };

    /// Whether an event is allowed, else the rule that refuses it.
    #[inline(always)]
    final fn allowed(&self, event: &Self::Event) -> Result<(), Rule>
        requires formed { IsFormed Self.kind self.now event.now }
        requires standing { IsStanding Self.kind self.now }
        requires early { (Self.kind.nodes self.now).time ≤ LATEST_TIME }
        ensures { (d : Self.World) → Self.kind.StandsFor self.now d → MatchResult result
            (λ _. rule_of Self.kind self.now event.now d ≡ None)
            (λ rule. rule_of Self.kind self.now event.now d ≡ Some rule.0) }
    {
        match self.refusal(event) {
            None => Ok(()),
            Some(rule) => Err(Rule(rule)),
        }
    }

    /// The step of an event of which it is known that no rule refuses it, with the outputs that it gave in place of `outs`;
    /// or it finds no memory, and the world is as it was. What `outs` holds then is not said.
    #[inline(always)]
    final fn apply_allowed(&mut self, event: &Self::Event, outs: &mut Outs) -> Result<(), NoMemory>
        requires formed { IsFormed Self.kind self.old event.now }
        requires standing { IsStanding Self.kind self.old }
        requires early { (Self.kind.nodes self.old).time ≤ LATEST_TIME }
        requires room { 0 < (Self.kind.nodes self.old).steps }
        requires allowed { (d : Self.World)
            → Self.kind.StandsFor self.old d
            → IsAllowed Self.kind self.old event.now d }
        ensures ok { OnOk result (Made Self.kind self.old self.new event.now outs.new) }
        ensures err { OnErr result (OutOfMemory Self.kind self.old self.new event.now) }
    {
        outs.clear();
        let steps = self.cluster().steps_left();
        self.set_steps(steps - 1);
        if self.step(event, outs).is_err() {
            self.set_steps(steps);
            return Err(NoMemory);
        }
        Ok(())
    }

    /// The step of an event, if the event is allowed and there is memory for it; what it came to is written over a report
    /// that is there. What that holds after a refusal is not said.
    #[inline(always)]
    final fn apply_into(&mut self, event: &Self::Event, into: &mut Report) -> Result<(), Refused>
        requires formed { IsFormed Self.kind self.old event.now }
        requires standing { IsStanding Self.kind self.old }
        requires early { (Self.kind.nodes self.old).time ≤ LATEST_TIME }
        requires room { 0 < (Self.kind.nodes self.old).steps }
        ensures ok { OnOk result (Applied Self.kind self.old self.new event.now into.new) }
        ensures err { IfErr result
            (λ answer. Refuses Self.kind self.old self.new event.now answer) }
    {
        if let Err(rule) = self.allowed(event) {
            return Err(Refused::NotAllowed(rule));
        }
        if self.apply_allowed(event, &mut into.outs).is_err() {
            return Err(Refused::NoMemory);
        }
        self.fill(event, into);
        Ok(())
    }
}
