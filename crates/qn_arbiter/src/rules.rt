//! The rules that an event has to obey. Those of the nodes, 1 to 10, are rules of `qn_world`.
use crate::kinds::{is_yes_of_device, pass_of};
use crate::state::State;
use qn_base::Rank;
use qn_cluster::unless;
use qn_model::{Event, Rule};
use qn_safety::ArbiterEvent;

impl State {
    ghost use Rattle.std.specs.Prelude.{◌≡◌, ◌<◌, ◌≤◌, true, None, Some, MatchResult, length};
    ghost use Rattle.qn_base.specs.declared.limits.TheConstants.{LATEST_TIME};
    ghost use Rattle.qn_safety.specs.ArbiterRules.{is_arbiter_on, is_well_formed_beside, may_hear, may_pass_with, may_poll, may_reply, refusal_beside};
    ghost use Rattle.qn_safety.specs.ArbiterWorld.{ArbiterWorld};
    ghost use Rattle.qn_model.specs.Rules.{is_well_formed};
    ghost use Rattle.qn_arbiter.specs.OwnRules.{own_refusal};
    ghost use Rattle.qn_arbiter.specs.Standing.{IsStanding, KeptFor};

    /// Whether the event is allowed, else the rule that refuses it.
    pub(crate) fn allowed(&self, event: &ArbiterEvent) -> Result<(), Rule>
        requires formed { is_well_formed_beside self.now.world.settings event.now ≡ true }
        requires standing { IsStanding self.now }
        requires early { self.now.world.time ≤ LATEST_TIME }
        ensures { (d : ArbiterWorld) → KeptFor self.now d → MatchResult result
            (λ _. refusal_beside self.now.world.settings self.now.world.timing event.now d ≡ None)
            (λ rule. refusal_beside self.now.world.settings self.now.world.timing event.now d
            ≡ Some rule.0) }
    {
        if let Some(rule) = self.refusal(event) {
            return Err(Rule(rule));
        }
        match event {
            ArbiterEvent::One(one) => self.world.allowed(one),
            ArbiterEvent::PassWith(_, one) => self.world.allowed(one),
            ArbiterEvent::ArbiterBoot(_) => Ok(()),
            ArbiterEvent::ArbiterCrash => Ok(()),
            ArbiterEvent::Poll(_) => Ok(()),
            ArbiterEvent::Hear(_) => Ok(()),
            ArbiterEvent::Reply(_) => Ok(()),
        }
    }

    /// The number of the rule, of 11 to 15, that refuses the event.
    pub(crate) fn refusal(&self, event: &ArbiterEvent) -> Option<u8>
        requires formed { is_well_formed_beside self.now.world.settings event.now ≡ true }
        requires standing { IsStanding self.now }
        ensures { (d : ArbiterWorld)
            → KeptFor self.now d
            → result ≡ own_refusal self.now.world.settings event.now d }
    {
        match event {
            ArbiterEvent::One(one) => unless(!is_yes_of_device(one), 11),
            ArbiterEvent::PassWith(advance, one) => unless(self.may_pass_with(*advance, one), 15),
            ArbiterEvent::ArbiterBoot(_) => unless(!self.is_arbiter_on(), 12),
            ArbiterEvent::ArbiterCrash => unless(self.is_arbiter_on(), 12),
            ArbiterEvent::Poll(i) => unless(self.may_poll(*i), 13),
            ArbiterEvent::Hear(number) => {
                unless(self.is_arbiter_on(), 12).or(unless(self.may_hear(*number), 14))
            }
            ArbiterEvent::Reply(number) => unless(self.may_reply(*number), 14),
        }
    }

    fn is_arbiter_on(&self) -> bool
        ensures { (d : ArbiterWorld) → KeptFor self.now d → result ≡ is_arbiter_on d }
    {
        self.arbiter.is_some()
    }

    /// Rule 13: the node is up and has a view.
    fn may_poll(&self, i: Rank) -> bool
        requires { i.0 < length self.now.world.settings.nodes }
        ensures { (d : ArbiterWorld)
            → KeptFor self.now d
            → result ≡ may_poll self.now.world.settings i.0 d }
    {
        self.standing(i).is_some()
    }

    /// Rule 14, of a poll: it was sent.
    fn may_hear(&self, number: u64) -> bool
        ensures { (d : ArbiterWorld) → KeptFor self.now d → result ≡ may_hear number d }
    {
        self.poll_at(number).is_some()
    }

    /// Rule 14, of a reply: it was sent, and its node runs.
    fn may_reply(&self, number: u64) -> bool
        requires { IsStanding self.now }
        ensures { (d : ArbiterWorld)
            → KeptFor self.now d
            → result ≡ may_reply self.now.world.settings number d }
    {
        match self.reply_at(number) {
            Some(reply) => self.world.tick(reply.to).is_some(),
            None => false,
        }
    }

    /// Rule 15: the event is a pass, the arbiter runs, and its clock keeps its bounds.
    fn may_pass_with(&self, advance: u64, event: &Event) -> bool
        requires { is_well_formed self.now.world.settings event.now ≡ true }
        ensures { (d : ArbiterWorld)
            → KeptFor self.now d
            → result ≡ may_pass_with advance event.now d }
    {
        match pass_of(event) {
            Some(dt) => self.is_arbiter_on() && 99 * dt <= advance && advance <= 101 * dt,
            None => false,
        }
    }
}
