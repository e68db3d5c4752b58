//! An arbiter that runs, with its clock.
ghost use Rattle.std.specs.Prelude.{◌≡◌, ◌<◌, ◌+◌, ◌^◌, Option};
ghost use Rattle.std.specs.Option.{option_map};
ghost use Rattle.qn_safety.specs.ArbiterSteps.{advanced_arbiter, hearing, reply_to};
ghost use Rattle.qn_safety.specs.ArbiterWorld.{Arbiter as DefinedArbiter};
ghost use Rattle.qn_arbiter.specs.Standing.{HasRoomFor, RunsOrOff};

use qn_polls::Arbiter;
use qn_safety::{Poll, Reply};

/// An arbiter that runs. Its clock is in hundredths of a millisecond.
#[derive(Clone, Copy)]
pub(crate) struct RunningArbiter {
    pub(crate) clock: u64,
    pub(crate) memory: Arbiter,
}

impl RunningArbiter {
    ghost use Rattle.std.specs.Prelude.{◌≡◌, ◌<◌, ◌+◌, ◌^◌};
    ghost use Rattle.qn_safety.specs.ArbiterSteps.{advanced_arbiter, booted_arbiter, hearing, reply_to};
    ghost use Rattle.qn_safety.specs.ArbiterWorld.{Arbiter as DefinedArbiter};
    ghost use Rattle.qn_model.specs.Moments.{tick_of};
    ghost use Rattle.qn_arbiter.specs.Standing.{RunsFor};

    /// An arbiter that boots, with a lease in milliseconds and a clock that starts at this base.
    pub(crate) fn boot(lease: u64, base: u64) -> Self
        ensures { RunsFor result (booted_arbiter lease base) }
    {
        RunningArbiter {
            clock: base,
            memory: Arbiter::new(lease, base / 100),
        }
    }

    /// The tick of its clock, in milliseconds.
    fn tick(&self) -> u64
        ensures { result ≡ tick_of self.now.clock }
    {
        self.clock / 100
    }

    fn advance(&mut self, hundredths: u64)
        requires { self.old.clock + hundredths < 2 ^ 64 }
        ensures { (arbiter : DefinedArbiter)
            → RunsFor self.old arbiter
            → RunsFor self.new (advanced_arbiter hundredths arbiter) }
    {
        self.clock += hundredths;
    }

    /// Its reply to a poll, which it does not hear yet.
    fn reply_to(&self, poll: &Poll) -> Reply
        requires { poll.now.from.0 < 32 }
        ensures { (arbiter : DefinedArbiter)
            → RunsFor self.now arbiter
            → result ≡ reply_to arbiter poll.now }
    {
        Reply {
            to: poll.from,
            number: poll.number,
            incarnation: poll.incarnation,
            install: poll.install,
            agrees: self.memory.would_agree(self.tick(), poll),
        }
    }

    fn hear(&mut self, poll: &Poll)
        requires { poll.now.from.0 < 32 }
        ensures { (arbiter : DefinedArbiter)
            → RunsFor self.old arbiter
            → RunsFor self.new (hearing poll.now arbiter) }
    {
        let tick = self.tick();
        self.memory.poll(tick, poll);
    }
}

/// The clock of an arbiter that runs advances.
pub(crate) fn advance(arbiter: &mut Option<RunningArbiter>, hundredths: u64)
    requires { HasRoomFor arbiter.old hundredths }
    ensures { (theirs : Option DefinedArbiter)
        → RunsOrOff arbiter.old theirs
        → RunsOrOff arbiter.new (option_map (advanced_arbiter hundredths) theirs) }
{
    if let Some(running) = arbiter {
        running.advance(hundredths);
    }
}

/// The reply of an arbiter that runs to a poll, which it does not hear yet.
pub(crate) fn reply_to(arbiter: &Option<RunningArbiter>, poll: &Poll) -> Option<Reply>
    requires { poll.now.from.0 < 32 }
    ensures { (theirs : Option DefinedArbiter)
        → RunsOrOff arbiter.now theirs
        → result ≡ option_map (λ running. reply_to running poll.now) theirs }
{
    match arbiter {
        Some(running) => Some(running.reply_to(poll)),
        None => None,
    }
}

/// An arbiter that runs hears a poll.
pub(crate) fn hear(arbiter: &mut Option<RunningArbiter>, poll: &Poll)
    requires { poll.now.from.0 < 32 }
    ensures { (theirs : Option DefinedArbiter)
        → RunsOrOff arbiter.old theirs
        → RunsOrOff arbiter.new (option_map (hearing poll.now) theirs) }
{
    if let Some(running) = arbiter {
        running.hear(poll);
    }
}
