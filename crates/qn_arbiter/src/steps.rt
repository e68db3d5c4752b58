//! The step of each event beside an arbiter.
use crate::kinds::pass_of;
use crate::running::{RunningArbiter, advance, hear, reply_to};
use crate::state::{State, append};
use qn_base::Rank;
use qn_model::{Event, Refused, Rule};
use qn_polls::Standing;
use qn_safety::{ArbiterEvent, ArbiterReport, Poll, Reply, Said};

impl State {
    ghost use Rattle.std.specs.Prelude.{◌≡◌, ◌<◌, ◌≤◌, true, IfErr, IfOk, OnOk, OnErr, length};
    ghost use Rattle.qn_base.specs.declared.limits.TheConstants.{LATEST_TIME};
    ghost use Rattle.qn_polls.specs.Poller.{standing_of};
    ghost use Rattle.qn_safety.specs.ArbiterRules.{is_well_formed_beside};
    ghost use Rattle.qn_safety.specs.ArbiterWorld.{ArbiterWorld};
    ghost use Rattle.qn_arbiter.specs.Standing.{IsStanding, KeptFor};
    ghost use Rattle.qn_arbiter.specs.Stepping.{Applied, IsReady, Polls, Refuses, Replies, Stepped, heard_at};

    /// The step of an event, and what it came to, if the event is allowed and there is memory for it.
    pub(crate) fn apply(
        &mut self,
        event: &ArbiterEvent,
        into: &mut ArbiterReport,
    ) -> Result<(), Refused>
        requires formed { is_well_formed_beside self.old.world.settings event.now ≡ true }
        requires standing { IsStanding self.old }
        requires early { self.old.world.time ≤ LATEST_TIME }
        requires left { 0 < self.old.steps }
        requires room { self.old.steps ≤ self.old.world.steps }
        ensures ok { OnOk result (Applied self.old self.new event.now into.new) }
        ensures err { IfErr result (λ answer. Refuses self.old self.new event.now answer) }
    {
        if let Some(rule) = self.refusal(event) {
            return Err(Refused::NotAllowed(Rule(rule)));
        }
        self.step(event, into)?;
        self.steps -= 1;
        Ok(())
    }

    /// The world makes the step of an event that no rule of its own refuses; or a rule of its nodes does, or it finds no
    /// memory.
    fn step(&mut self, event: &ArbiterEvent, into: &mut ArbiterReport) -> Result<(), Refused>
        requires { IsReady self.old event.now }
        ensures ok { OnOk result (Stepped self.old self.new event.now into.new) }
        ensures err { IfErr result (λ answer. Refuses self.old self.new event.now answer) }
    {
        match event {
            ArbiterEvent::One(one) => self.meet(one, into),
            ArbiterEvent::PassWith(advance, one) => self.pass_with(*advance, one, into),
            ArbiterEvent::ArbiterBoot(base) => {
                self.boot_arbiter(*base, into);
                Ok(())
            }
            ArbiterEvent::ArbiterCrash => {
                self.crash_arbiter(into);
                Ok(())
            }
            ArbiterEvent::Poll(i) => self.poll(*i, into),
            ArbiterEvent::Hear(number) => self.hear(*number, into),
            ArbiterEvent::Reply(number) => self.take_reply(*number, into),
        }
    }

    /// The nodes meet an event. Where it is a pass, a running arbiter's clock advances by 100 hundredths a millisecond.
    fn meet(&mut self, one: &Event, into: &mut ArbiterReport) -> Result<(), Refused>
        requires { IsReady self.old (ArbiterEvent.One one.now) }
        ensures ok { OnOk result (Stepped self.old self.new (ArbiterEvent.One one.now) into.new) }
        ensures err { IfErr result (λ answer.
            Refuses self.old self.new (ArbiterEvent.One one.now) answer) }
    {
        self.world.apply_into(one, &mut into.report)?;
        advance(&mut self.arbiter, 100 * pass_of(one).unwrap_or(0));
        self.pollers.meet(self.lease.limit, one);
        into.said = Said::Nothing;
        Ok(())
    }

    /// A pass, in which the arbiter's clock advances by so many hundredths.
    fn pass_with(
        &mut self,
        hundredths: u64,
        one: &Event,
        into: &mut ArbiterReport,
    ) -> Result<(), Refused>
        requires { IsReady self.old (ArbiterEvent.PassWith hundredths one.now) }
        ensures ok { OnOk result
            (Stepped self.old self.new (ArbiterEvent.PassWith hundredths one.now) into.new) }
        ensures err { IfErr result (λ answer.
            Refuses self.old self.new (ArbiterEvent.PassWith hundredths one.now) answer) }
    {
        self.world.apply_into(one, &mut into.report)?;
        advance(&mut self.arbiter, hundredths);
        into.said = Said::Nothing;
        Ok(())
    }

    /// The arbiter boots, and its clock starts at this base.
    fn boot_arbiter(&mut self, base: u64, into: &mut ArbiterReport)
        requires { IsReady self.old (ArbiterEvent.ArbiterBoot base) }
        ensures { Stepped self.old self.new (ArbiterEvent.ArbiterBoot base) into.new }
    {
        self.arbiter = Some(RunningArbiter::boot(self.lease.lease, base));
        self.report_quiet(None, Said::Nothing, into);
    }

    /// The arbiter is off at once.
    fn crash_arbiter(&mut self, into: &mut ArbiterReport)
        requires { IsReady self.old ArbiterEvent.ArbiterCrash }
        ensures { Stepped self.old self.new ArbiterEvent.ArbiterCrash into.new }
    {
        self.arbiter = None;
        self.report_quiet(None, Said::Nothing, into);
    }

    /// A node sends a poll.
    fn poll(&mut self, i: Rank, into: &mut ArbiterReport) -> Result<(), Refused>
        requires { IsReady self.old (ArbiterEvent.Poll i) }
        ensures ok { OnOk result (Stepped self.old self.new (ArbiterEvent.Poll i) into.new) }
        ensures err { IfErr result (λ answer.
            Refuses self.old self.new (ArbiterEvent.Poll i) answer) }
    {
        match self.standing(i) {
            Some(at) => {
                let number = self.send_poll(i, at)?;
                self.report_quiet(Some(i), Said::Polled(number), into);
                Ok(())
            }
            // Rule 13 refused it before.
            None => Ok(()),
        }
    }

    /// The poll of a node that stands so is sent: this is its number.
    fn send_poll(&mut self, i: Rank, at: Standing) -> Result<u64, Refused>
        requires formed { is_well_formed_beside self.old.world.settings (ArbiterEvent.Poll i)
            ≡ true }
        requires standing { IsStanding self.old }
        ensures ok { OnOk result (Polls self.old self.new i (standing_of at)) }
        ensures number { IfOk result (λ number. number ≡ length self.old.polls) }
        ensures err { OnErr result (self.new ≡ self.old) }
        ensures memory { IfErr result (λ answer. answer ≡ Refused.NoMemory) }
    {
        let poll = self.pollers.next(i, at);
        if append(&mut self.polls, poll).is_err() {
            return Err(Refused::NoMemory);
        }
        let number = self.polls.len() as u64 - 1;
        self.pollers.send(i, at);
        Ok(number)
    }

    /// The arbiter hears the poll of that number, and sends its reply.
    fn hear(&mut self, number: u64, into: &mut ArbiterReport) -> Result<(), Refused>
        requires { IsReady self.old (ArbiterEvent.Hear number) }
        ensures ok { OnOk result (Stepped self.old self.new (ArbiterEvent.Hear number) into.new) }
        ensures err { IfErr result (λ answer.
            Refuses self.old self.new (ArbiterEvent.Hear number) answer) }
    {
        match self.answer(number) {
            Some((poll, reply)) => {
                let number = self.replies.len() as u64;
                let agrees = reply.agrees;
                self.send_reply(&poll, reply)?;
                self.report_quiet(None, Said::Answered { number, agrees }, into);
                Ok(())
            }
            // Rule 12 or 14 refused it before.
            None => Ok(()),
        }
    }

    /// The poll of that number, and the reply of the arbiter to it.
    fn answer(&self, number: u64) -> Option<(Poll, Reply)>
        requires { IsStanding self.now }
        ensures { (d : ArbiterWorld) → KeptFor self.now d → result ≡ heard_at number d }
    {
        let poll = self.poll_at(number)?;
        let reply = reply_to(&self.arbiter, &poll)?;
        Some((poll, reply))
    }

    /// The reply of the arbiter to a poll is sent, and the arbiter heard it.
    fn send_reply(&mut self, poll: &Poll, reply: Reply) -> Result<(), Refused>
        requires few { poll.now.from.0 < 32 }
        ensures ok { OnOk result (Replies self.old self.new poll.now reply) }
        ensures err { OnErr result (self.new ≡ self.old) }
        ensures memory { IfErr result (λ answer. answer ≡ Refused.NoMemory) }
    {
        if append(&mut self.replies, reply).is_err() {
            return Err(Refused::NoMemory);
        }
        hear(&mut self.arbiter, poll);
        Ok(())
    }

    /// The node to which it was sent gets the reply of that number.
    fn take_reply(&mut self, number: u64, into: &mut ArbiterReport) -> Result<(), Refused>
        requires { IsReady self.old (ArbiterEvent.Reply number) }
        ensures ok { OnOk result (Stepped self.old self.new (ArbiterEvent.Reply number) into.new) }
        ensures err { IfErr result (λ answer.
            Refuses self.old self.new (ArbiterEvent.Reply number) answer) }
    {
        match self.reply_event(number) {
            Some(event) => {
                self.world.apply_into(&event, &mut into.report)?;
                into.said = Said::Nothing;
                Ok(())
            }
            // Rule 14 refused it before.
            None => Ok(()),
        }
    }
}
