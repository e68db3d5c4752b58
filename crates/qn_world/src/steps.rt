//! The step of each event.
ghost use Rattle.std.specs.Prelude.{◌≡◌};

use crate::state::State;
use qn_base::{NoMemory, Rank};
use qn_cluster::{Cluster, HasNodes, Leftovers, Sectors, Steps};
use qn_model::{Event, Message, Outs, Report, Settings, Timing};
use qn_safety::law_no_two_holders;
use std::alloc::Global;

impl Steps for State {
    fn first(alloc: Global, settings: Settings, timing: Timing) -> Result<State, NoMemory> {
        let cluster = Cluster::new(alloc, settings)?;
        Ok(State {
            cluster,
            timing,
            took: [None; 32],
            sectors: Sectors::new(),
            left: Leftovers::new(alloc),
        })
    }

    fn law_one_holds() {
        law_no_two_holders();
    }

    fn refusal(&self, event: &Event) -> Option<u8> {
        match event {
            Event::Land(i) => self.refuses_land(*i),
            Event::Done(i) => self.refuses_done(*i),
            Event::Fail(i) => self.refuses_fail(*i),
            Event::Late(i, number) => self.refuses_late(*i, *number),
            Event::Operator(i, message) => self.refuses_operator(*i, *message),
            Event::Pass { .. }
            | Event::Boot(_, _)
            | Event::BootClean(_, _)
            | Event::Crash(_)
            | Event::View(_, _)
            | Event::Deliver(_, _)
            | Event::Device(_, _)
            | Event::Tick(_)
            | Event::Stopped(_)
            | Event::Unstopped(_)
            | Event::Leave(_)
            | Event::Feed(_) => self.refuses_node(event),
        }
    }

    fn step(&mut self, event: &Event, outs: &mut Outs) -> Result<(), NoMemory> {
        match event {
            Event::Boot(i, base) => {
                self.boot(*i, *base, false, outs);
                Ok(())
            }
            Event::BootClean(i, base) => {
                self.boot(*i, *base, true, outs);
                Ok(())
            }
            Event::Crash(i) => self.crash(*i),
            Event::Land(i) => {
                self.land(*i);
                Ok(())
            }
            Event::Done(i) => self.done(*i, outs),
            Event::Fail(i) => self.fail(*i, outs),
            Event::Late(i, number) => {
                self.late(*i, *number);
                Ok(())
            }
            Event::Operator(i, message) => {
                self.operate(*i, *message);
                Ok(())
            }
            Event::Pass { .. }
            | Event::View(_, _)
            | Event::Deliver(_, _)
            | Event::Device(_, _)
            | Event::Tick(_)
            | Event::Stopped(_)
            | Event::Unstopped(_)
            | Event::Leave(_)
            | Event::Feed(_) => self.step_nodes(event, outs),
        }
    }

    fn fill(&self, event: &Event, into: &mut Report) {
        self.cluster.fill(event, into);
    }
}

impl State {
    ghost use Rattle.std.specs.Prelude.{◌≡◌, [], true, OnOk, OnErr};
    ghost use Rattle.qn_cluster.specs.Events.{is_of_nodes};
    ghost use Rattle.qn_cluster.specs.WorldSteps.{IsReady, OutOfMemory, Stepped, boot_event};
    ghost use Rattle.qn_world.specs.Standing.{one_image};

    /// The nodes make the step of an event that changes them alone.
    fn step_nodes(&mut self, event: &Event, outs: &mut Outs) -> Result<(), NoMemory>
        requires ready { IsReady one_image self.old event.now }
        requires nodes { is_of_nodes event.now ≡ true }
        requires none { outs.old ≡ [] }
        ensures ok { OnOk result (Stepped one_image self.old self.new event.now outs.new) }
        ensures err { OnErr result (OutOfMemory one_image self.old self.new event.now) }
    {
        self.cluster.step(event, outs)
    }

    /// A node boots, as a clean start or not; its leftovers are dropped.
    fn boot(&mut self, i: Rank, base: u64, clean: bool, outs: &mut Outs)
        requires { IsReady one_image self.old (boot_event i base clean) }
        ensures { Stepped one_image self.old self.new (boot_event i base clean) outs.new }
    {
        self.drop_left(i);
        self.take(i, None);
        self.cluster.boot(i, base, clean, outs);
    }

    /// A node is off at once.
    fn crash(&mut self, i: Rank) -> Result<(), NoMemory>
        requires { IsReady one_image self.old (Event.Crash i) }
        ensures ok { OnOk result (Stepped one_image self.old self.new (Event.Crash i) []) }
        ensures err { OnErr result (OutOfMemory one_image self.old self.new (Event.Crash i)) }
    {
        let op = self.op(i);
        let took = self.took(i);
        self.give_up(i, op, took)?;
        self.take(i, None);
        self.cluster.end(i);
        Ok(())
    }

    /// The operation of a node lands.
    fn land(&mut self, i: Rank)
        requires { IsReady one_image self.old (Event.Land i) }
        ensures { Stepped one_image self.old self.new (Event.Land i) [] }
    {
        if let Some(op) = self.op(i) {
            let entry = self.taken(i, op);
            self.write(i, op);
            self.take(i, Some(entry));
        }
    }

    /// The operation of a node, which landed, is answered.
    fn done(&mut self, i: Rank, outs: &mut Outs) -> Result<(), NoMemory>
        requires { IsReady one_image self.old (Event.Done i) }
        ensures ok { OnOk result (Stepped one_image self.old self.new (Event.Done i) outs.new) }
        ensures err { OnErr result (OutOfMemory one_image self.old self.new (Event.Done i)) }
    {
        if let Some(entry) = self.took(i) {
            self.hand(i, entry, outs)?;
            self.take(i, None);
        }
        Ok(())
    }

    /// The operation of a node fails; a write that did not land is left over.
    fn fail(&mut self, i: Rank, outs: &mut Outs) -> Result<(), NoMemory>
        requires { IsReady one_image self.old (Event.Fail i) }
        ensures ok { OnOk result (Stepped one_image self.old self.new (Event.Fail i) outs.new) }
        ensures err { OnErr result (OutOfMemory one_image self.old self.new (Event.Fail i)) }
    {
        if let Some(op) = self.op(i) {
            let took = self.took(i);
            let before = self.left_count();
            self.give_up(i, Some(op), took)?;
            if let Err(error) = self.hand(i, op.failed(), outs) {
                self.keep_left(before);
                return Err(error);
            }
            self.take(i, None);
        }
        Ok(())
    }

    /// A leftover of a node lands.
    fn late(&mut self, i: Rank, number: u64)
        requires { IsReady one_image self.old (Event.Late i number) }
        ensures { Stepped one_image self.old self.new (Event.Late i number) [] }
    {
        if let Some(op) = self.take_left(i, number) {
            self.write(i, op);
        }
    }

    /// An operator writes a message to the mailbox of a node.
    fn operate(&mut self, i: Rank, message: Message)
        requires { IsReady one_image self.old (Event.Operator i message) }
        ensures { Stepped one_image self.old self.new (Event.Operator i message) [] }
    {
        self.set_mailbox(i, message);
    }
}
