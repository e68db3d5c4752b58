//! The first world of three images, and the step of each event.
ghost use Rattle.std.specs.Prelude.{◌≡◌, IfOk, replicate};

use crate::disk::{is_left_over, only_on};
use crate::state::State;
use qn_base::{NoMemory, Rank};
use qn_cluster::{Cluster, HasNodes, Leftovers, Sectors, Steps};
use qn_model::{Event, Message, Outs, Report, Settings, Timing};
use qn_parts::Part;
use qn_safety::{TripleEvent, law_triple_no_two_holders};
use std::alloc::Global;

/// A list of so many equal items.
fn filled<T: Copy + Drop>(alloc: Global, count: usize, item: T) -> Result<Vec<T>, NoMemory>
    ensures { IfOk result (λ v. v.items ≡ replicate count item) }
{
    let mut items = Vec::new(alloc);
    match items.resize(count, item) {
        Ok(()) => Ok(items),
        Err(_) => Err(NoMemory),
    }
}

impl Steps for State {
    fn first(alloc: Global, settings: Settings, timing: Timing) -> Result<State, NoMemory> {
        let cluster = Cluster::new(alloc, settings)?;
        let parts = filled(alloc, 32, [Part::Pending; 3])?;
        let good = filled(alloc, 32, [true; 3])?;
        let sectors = filled(alloc, 3, Sectors::new())?;
        Ok(State {
            cluster,
            timing,
            parts,
            good,
            sectors,
            left: Leftovers::new(alloc),
        })
    }

    fn law_one_holds() {
        law_triple_no_two_holders();
    }

    fn refusal(&self, event: &TripleEvent) -> Option<u8> {
        match event {
            TripleEvent::One(event) => self.refuses_one(event),
            TripleEvent::LandOn(i, image) => self.refuses_land(*i, *image),
            TripleEvent::FailOn(i, image) => self.refuses_fail(*i, *image),
            TripleEvent::LateOn(i, image, number) => self.refuses_late(*i, *image, *number),
            TripleEvent::OperatorOn(i, image, message) => {
                self.refuses_operator(*i, *image, *message)
            }
        }
    }

    fn step(&mut self, event: &TripleEvent, outs: &mut Outs) -> Result<(), NoMemory> {
        match event {
            TripleEvent::One(event) => self.step_one(event, outs),
            TripleEvent::LandOn(i, image) => {
                self.land(*i, *image);
                Ok(())
            }
            TripleEvent::FailOn(i, image) => self.fail(*i, *image),
            TripleEvent::LateOn(i, image, number) => {
                self.late(*i, *image, *number);
                Ok(())
            }
            TripleEvent::OperatorOn(i, image, message) => {
                self.operate(*i, *image, *message);
                Ok(())
            }
        }
    }

    fn fill(&self, event: &TripleEvent, into: &mut Report) {
        match event {
            TripleEvent::One(event) => self.cluster.fill(event, into),
            TripleEvent::LandOn(i, _) => self.cluster.fill(&Event::Land(*i), into),
            TripleEvent::FailOn(i, _) => self.cluster.fill(&Event::Land(*i), into),
            TripleEvent::LateOn(i, _, number) => self.cluster.fill(&Event::Late(*i, *number), into),
            TripleEvent::OperatorOn(i, _, message) => {
                self.cluster.fill(&Event::Operator(*i, *message), into);
            }
        }
    }
}

impl State {
    ghost use Rattle.std.specs.Prelude.{◌≡◌, [], true, OnOk, OnErr};
    ghost use Rattle.qn_cluster.specs.Events.{is_of_nodes};
    ghost use Rattle.qn_cluster.specs.WorldSteps.{IsReady, OutOfMemory, Stepped, boot_event};
    ghost use Rattle.qn_triple.specs.Standing.{three_images};

    /// The step of an event that names no image.
    fn step_one(&mut self, event: &Event, outs: &mut Outs) -> Result<(), NoMemory>
        requires ready { IsReady three_images self.old (TripleEvent.One event.now) }
        requires none { outs.old ≡ [] }
        ensures ok { OnOk result
            (Stepped three_images self.old self.new (TripleEvent.One event.now) outs.new) }
        ensures err { OnErr result
            (OutOfMemory three_images self.old self.new (TripleEvent.One event.now)) }
    {
        match event {
            Event::Boot(i, base) => {
                self.boot(*i, *base, false, outs);
                Ok(())
            }
            Event::BootClean(i, base) => {
                self.boot(*i, *base, true, outs);
                Ok(())
            }
            Event::Crash(i) => self.crash(*i),
            Event::Done(i) => self.done(*i, outs),
            Event::Land(_) => Ok(()),
            Event::Fail(_) => Ok(()),
            Event::Late(_, _) => Ok(()),
            Event::Operator(_, _) => Ok(()),
            Event::Pass { .. }
            | Event::View(_, _)
            | Event::Deliver(_, _)
            | Event::Device(_, _)
            | Event::Tick(_)
            | Event::Stopped(_)
            | Event::Unstopped(_)
            | Event::Leave(_)
            | Event::Feed(_) => self.step_nodes(event, outs),
        }
    }

    /// The nodes make the step of an event that changes them alone.
    fn step_nodes(&mut self, event: &Event, outs: &mut Outs) -> Result<(), NoMemory>
        requires ready { IsReady three_images self.old (TripleEvent.One event.now) }
        requires nodes { is_of_nodes event.now ≡ true }
        requires none { outs.old ≡ [] }
        ensures ok { OnOk result
            (Stepped three_images self.old self.new (TripleEvent.One event.now) outs.new) }
        ensures err { OnErr result
            (OutOfMemory three_images self.old self.new (TripleEvent.One event.now)) }
    {
        self.cluster.step(event, outs)
    }

    /// A node boots, as a clean start or not: its leftovers are dropped, and all images are good ones until its clear is
    /// answered.
    fn boot(&mut self, i: Rank, base: u64, clean: bool, outs: &mut Outs)
        requires { IsReady three_images self.old (TripleEvent.One (boot_event i base clean)) }
        ensures { Stepped three_images self.old self.new
            (TripleEvent.One (boot_event i base clean)) outs.new }
    {
        self.drop_left(i);
        self.forget_parts(i);
        self.trust_all(i);
        self.cluster.boot(i, base, clean, outs);
    }

    /// A node is off at once: each pending write is left over on its image.
    fn crash(&mut self, i: Rank) -> Result<(), NoMemory>
        requires { IsReady three_images self.old (TripleEvent.One (Event.Crash i)) }
        ensures ok { OnOk result
            (Stepped three_images self.old self.new (TripleEvent.One (Event.Crash i)) []) }
        ensures err { OnErr result
            (OutOfMemory three_images self.old self.new (TripleEvent.One (Event.Crash i))) }
    {
        self.give_up(i)?;
        self.forget_parts(i);
        self.cluster.end(i);
        Ok(())
    }

    /// The operation of a node is answered by its parts.
    fn done(&mut self, i: Rank, outs: &mut Outs) -> Result<(), NoMemory>
        requires { IsReady three_images self.old (TripleEvent.One (Event.Done i)) }
        ensures ok { OnOk result
            (Stepped three_images self.old self.new (TripleEvent.One (Event.Done i)) outs.new) }
        ensures err { OnErr result
            (OutOfMemory three_images self.old self.new (TripleEvent.One (Event.Done i))) }
    {
        if let Some(op) = self.op(i) {
            let entry = self.answer(i, op);
            self.cluster.hand(i, entry, outs)?;
            self.close(i, op);
        }
        Ok(())
    }

    /// The part of an operation of a node lands on an image.
    fn land(&mut self, i: Rank, image: u8)
        requires { IsReady three_images self.old (TripleEvent.LandOn i image) }
        ensures { Stepped three_images self.old self.new (TripleEvent.LandOn i image) [] }
    {
        if let Some(op) = self.op(i) {
            let entry = self.taken(i, image, op);
            self.write(i, image, op);
            self.set_part(i, image, Part::Landed(entry));
        }
    }

    /// The part of an operation of a node fails on an image: a write that did not land there is left over.
    fn fail(&mut self, i: Rank, image: u8) -> Result<(), NoMemory>
        requires { IsReady three_images self.old (TripleEvent.FailOn i image) }
        ensures ok { OnOk result
            (Stepped three_images self.old self.new (TripleEvent.FailOn i image) []) }
        ensures err { OnErr result
            (OutOfMemory three_images self.old self.new (TripleEvent.FailOn i image)) }
    {
        if let Some(op) = self.op(i) {
            let left = is_left_over(op, self.part(i, image));
            self.leave_over(i, op, only_on(left, image))?;
            self.set_part(i, image, Part::Failed);
        }
        Ok(())
    }

    /// A leftover of a node lands on an image.
    fn late(&mut self, i: Rank, image: u8, number: u64)
        requires { IsReady three_images self.old (TripleEvent.LateOn i image number) }
        ensures { Stepped three_images self.old self.new (TripleEvent.LateOn i image number) [] }
    {
        if let Some(op) = self.take_left(i, image, number) {
            self.write(i, image, op);
        }
    }

    /// An operator writes a message to the mailbox of a node on an image.
    fn operate(&mut self, i: Rank, image: u8, message: Message)
        requires { IsReady three_images self.old (TripleEvent.OperatorOn i image message) }
        ensures { Stepped three_images self.old self.new
            (TripleEvent.OperatorOn i image message) [] }
    {
        self.set_mailbox(i, image, message);
    }
}
