//! The outside of a node over the deeds of its machine.
ghost use Rattle.std.specs.Prelude.{◌≡◌, ◌≤◌, false, is_ok};
ghost use Rattle.qn_io.specs.Outside.{HasRisen};

use crate::machine::Machine;
use qn_base::Failed;
use qn_exchange::{Obeyed, Order};
use qn_io::Opening;

/// The outside of a node: its machine, the last answer of the clock, the feed delay of the images in milliseconds, and the count of faults.
/// No other crate sets the last answer or the feed delay.
#[derive(Drop)]
pub struct Outside<M: Machine + Drop> {
    pub machine: M,
    last_tick: Option<u64>,
    feed_delay: u64,
    pub faults: u64,
}

impl<M: Machine + Drop> Outside<M> {
    ghost use Rattle.std.specs.Prelude.{◌≡◌, ◌∷◌, [], None, Some, IfNone, IfSome, OnErr, OnOk, is_ok, option_map};
    ghost use Rattle.qn_base.specs.declared.calls.Call.TheVariants.{Now, Feed, Start, Stop, Disarm};
    ghost use Rattle.qn_base.specs.Plans.{Made};
    ghost use Rattle.qn_io.specs.Openings.{node_opening};
    ghost use Rattle.qn_outside.specs.Deeds.{calls_of, FeedsInTime, OpensInOrder, OpensParts, Silent};

    /// The outside of a node over this machine, before it is opened: without an answer of the clock, and with a feed delay of 0, at which
    /// nothing is fed.
    pub fn new(machine: M) -> Outside<M>
        ensures unread { result.last_tick ≡ None }
        ensures unfed { result.feed_delay ≡ 0 }
        ensures machine { (result.machine ≡ machine) × (result.faults ≡ 0) }
    {
        Outside {
            machine,
            last_tick: None,
            feed_delay: 0,
            faults: 0,
        }
    }

    /// The last answer of the clock, where there was one, in milliseconds.
    pub fn last_tick(&self) -> Option<u64>
        ensures { result ≡ self.now.last_tick }
    {
        self.last_tick
    }

    /// Opens all that a node uses; the watchdog is armed last.
    pub fn open_node(&mut self, opening: &Opening<'_>) -> Result<(), Failed>
        ensures made { Made self.old.faults self.new.faults
            (option_map calls_of (M.did self.old.machine)) (option_map calls_of (M.did self.new.machine))
            (node_opening opening.now (is_ok result) ∷ []) }
        ensures order { OnOk result (OpensInOrder (M.did self.old.machine) (M.did self.new.machine)
            opening.now self.new.feed_delay) }
        ensures unopened { OnErr result (self.new.feed_delay ≡ self.old.feed_delay) }
        ensures kept { self.new.last_tick ≡ self.old.last_tick }
    {
        let done = self.open_parts(opening);
        let ok = done.is_ok();
        self.machine.say_opening(opening, ok);
        self.faults = counted(self.faults, ok);
        done
    }

    fn open_parts(&mut self, opening: &Opening<'_>) -> Result<(), Failed>
        ensures parts { OnOk result (OpensParts (M.did self.old.machine) (M.did self.new.machine) self.new.feed_delay) }
        ensures silent { Silent (M.did self.old.machine) (M.did self.new.machine) }
        ensures unopened { OnErr result (self.new.feed_delay ≡ self.old.feed_delay) }
        ensures faults { self.new.faults ≡ self.old.faults }
        ensures kept { self.new.last_tick ≡ self.old.last_tick }
    {
        self.machine.listen(opening)?;
        self.machine.open_images(opening)?;
        let times = self.machine.read_headers()?;
        self.machine.stop_first(opening)?;
        self.machine.look(opening, times.watchdog)?;
        self.machine.arm(opening)?;
        self.feed_delay = times.feed_delay;
        Ok(())
    }

    /// The time of the clock.
    pub fn now(&mut self) -> u64
        ensures made { Made self.old.faults self.new.faults
            (option_map calls_of (M.did self.old.machine)) (option_map calls_of (M.did self.new.machine))
            (Now result ∷ []) }
        ensures last { IfSome self.new.last_tick (λ tick. tick ≡ result) }
        ensures known { IfSome self.old.last_tick (λ _. self.new.last_tick ≡ Some result) }
        ensures unread { IfNone self.new.last_tick (HasRisen self.old.faults self.new.faults) }
        ensures kept { self.new.feed_delay ≡ self.old.feed_delay }
    {
        let (tick, ok) = self.machine.tick(self.last_tick.unwrap_or(0));
        self.faults = counted(self.faults, ok);
        if ok {
            self.last_tick = Some(tick);
        }
        tick
    }

    /// Feeds the watchdog, where that is in time after the last answer of `now`.
    pub fn feed(&mut self) -> Result<(), Failed>
        ensures made { Made self.old.faults self.new.faults
            (option_map calls_of (M.did self.old.machine)) (option_map calls_of (M.did self.new.machine))
            (Feed (is_ok result) ∷ []) }
        ensures in_time { OnOk result (FeedsInTime (M.did self.old.machine) (M.did self.new.machine)
            self.old.last_tick self.old.feed_delay) }
        ensures kept { (self.new.last_tick ≡ self.old.last_tick)
            × (self.new.feed_delay ≡ self.old.feed_delay) }
    {
        let tick = self.machine.glance();
        let done = self.machine.feed(self.last_tick, tick, self.feed_delay);
        self.faults = counted(self.faults, done.is_ok());
        done
    }

    /// Has the resource started.
    pub fn start(&mut self) -> Result<(), Failed>
        ensures made { Made self.old.faults self.new.faults
            (option_map calls_of (M.did self.old.machine)) (option_map calls_of (M.did self.new.machine))
            (Start (is_ok result) ∷ []) }
        ensures kept { (self.new.last_tick ≡ self.old.last_tick)
            × (self.new.feed_delay ≡ self.old.feed_delay) }
    {
        let answer = self.machine.order(Order::Start);
        let done = settled(answer);
        self.faults = counted(self.faults, done.is_ok());
        done
    }

    /// Has the resource stopped.
    pub fn stop(&mut self) -> Result<(), Failed>
        ensures made { Made self.old.faults self.new.faults
            (option_map calls_of (M.did self.old.machine)) (option_map calls_of (M.did self.new.machine))
            (Stop (is_ok result) ∷ []) }
        ensures kept { (self.new.last_tick ≡ self.old.last_tick)
            × (self.new.feed_delay ≡ self.old.feed_delay) }
    {
        let answer = self.machine.order(Order::Stop);
        let done = settled(answer);
        self.faults = counted(self.faults, done.is_ok());
        done
    }

    /// Disarms the watchdog.
    pub fn disarm(&mut self) -> Result<(), Failed>
        ensures made { Made self.old.faults self.new.faults
            (option_map calls_of (M.did self.old.machine)) (option_map calls_of (M.did self.new.machine))
            (Disarm (is_ok result) ∷ []) }
        ensures kept { (self.new.last_tick ≡ self.old.last_tick)
            × (self.new.feed_delay ≡ self.old.feed_delay) }
    {
        let done = self.machine.disarm();
        self.faults = counted(self.faults, done.is_ok());
        done
    }
}

/// Whether an order was obeyed.
fn settled(answer: Result<Obeyed, Failed>) -> Result<(), Failed>
    ensures { is_ok result ≡ is_ok answer }
{
    match answer {
        Ok(_) => Ok(()),
        Err(failed) => Err(failed),
    }
}

/// The count of faults after a call.
fn counted(faults: u64, ok: bool) -> u64
    ensures never_falls { faults ≤ result }
    ensures cause { ok ≡ false → HasRisen faults result }
{
    if ok { faults } else { faults.saturating_add(1) }
}
