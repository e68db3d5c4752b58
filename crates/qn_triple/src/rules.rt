//! The ten rules that an event of three images has to obey. Those that look at nodes alone are rules of `qn_cluster`.
ghost use Rattle.std.specs.Prelude.{◌≡◌, is_some, not, ◌&&◌, ◌||◌};
ghost use Rattle.qn_model.specs.Sectors.{is_deadly};
ghost use Rattle.qn_safety.specs.TripleWorld.{has_failed, is_pending};

use crate::disk::{has_failed, is_pending};
use crate::state::State;
use qn_base::Rank;
use qn_cluster::{HasNodes, unless};
use qn_model::{DiskOp, Event, Message};
use qn_parts::Part;
use qn_safety::TripleEvent;

/// Whether an operator may write a message over the one that is there, to a node that runs or is off.
fn may_operate(message: Message, there: Message, on: bool) -> bool
    ensures { result ≡ (is_deadly message || not (is_deadly there) || not on) }
{
    message.is_deadly() || !there.is_deadly() || !on
}

/// Whether an operation is out and its part on an image is pending.
fn may_land(op: Option<DiskOp>, part: Part) -> bool
    ensures { result ≡ (is_some op && is_pending part) }
{
    op.is_some() && is_pending(part)
}

/// Whether an operation is out and its part on an image has not failed.
fn may_fail(op: Option<DiskOp>, part: Part) -> bool
    ensures { result ≡ (is_some op && not (has_failed part)) }
{
    op.is_some() && !has_failed(part)
}

/// Whether an operation is out and its parts are settled.
fn may_be_done(op: Option<DiskOp>, settled: bool) -> bool
    ensures { result ≡ (is_some op && settled) }
{
    op.is_some() && settled
}

impl State {
    ghost use Rattle.std.specs.Prelude.{◌≡◌, ◌<◌, ◌≤◌, ℕ, true, Option, length};
    ghost use Rattle.qn_base.specs.declared.limits.TheConstants.{LATEST_TIME};
    ghost use Rattle.qn_model.specs.Rules.{is_well_formed, may_be_late, may_operate, unless};
    ghost use Rattle.qn_safety.specs.TripleRules.{is_image, is_on_triple, may_be_done_triple, may_fail_on, may_land_on, refusal_of_one, unless_off};
    ghost use Rattle.qn_safety.specs.TripleWorld.{TripleWorld, image_of};
    ghost use Rattle.qn_triple.specs.Standing.{IsStanding, TripleFor};

    /// The number of the rule that refuses an event which names no image.
    pub(crate) fn refuses_one(&self, event: &Event) -> Option<u8>
        requires formed { is_well_formed self.now.settings event.now ≡ true }
        requires standing { IsStanding self.now }
        requires early { self.now.time ≤ LATEST_TIME }
        ensures { (d : TripleWorld)
            → TripleFor self.now d
            → result ≡ refusal_of_one self.now.settings self.now.timing event.now d }
    {
        match event {
            Event::Land(i) => self.unless_off(*i, Some(4)),
            Event::Fail(i) => self.unless_off(*i, Some(5)),
            Event::Late(_, _) => Some(6),
            Event::Operator(_, _) => Some(10),
            Event::Done(i) => self.refuses_done(*i),
            Event::Pass { .. }
            | Event::Boot(_, _)
            | Event::BootClean(_, _)
            | Event::Crash(_)
            | Event::View(_, _)
            | Event::Deliver(_, _)
            | Event::Device(_, _)
            | Event::Tick(_)
            | Event::Stopped(_)
            | Event::Unstopped(_)
            | Event::Leave(_)
            | Event::Feed(_) => self.refuses_node(event),
        }
    }

    /// Rule 3, and then another one: the node is running.
    fn unless_off(&self, i: Rank, other: Option<u8>) -> Option<u8>
        requires { i.0 < length self.now.seats }
        ensures { (d : TripleWorld) (theirs : Option ℕ)
            → TripleFor self.now d
            → (is_on_triple self.now.settings i.0 d ≡ true → other ≡ theirs)
            → result ≡ unless_off self.now.settings i.0 d theirs }
    {
        self.cluster.unless_running(i, other)
    }

    /// Rules 3 and 5, of an answer.
    fn refuses_done(&self, i: Rank) -> Option<u8>
        requires within { i.0 < length self.now.seats }
        requires few { i.0 < 32 }
        ensures { (d : TripleWorld)
            → TripleFor self.now d
            → result ≡ unless_off self.now.settings i.0 d
            (unless (may_be_done_triple self.now.settings i.0 d) 5) }
    {
        let may = may_be_done(self.op(i), self.none_pending(i));
        self.unless_off(i, unless(may, 5))
    }

    /// Rules 3 and 4.
    pub(crate) fn refuses_land(&self, i: Rank, image: u8) -> Option<u8>
        requires within { i.0 < length self.now.seats }
        requires few { i.0 < 32 }
        requires image { is_image image ≡ true }
        ensures { (d : TripleWorld)
            → TripleFor self.now d
            → result ≡ unless_off self.now.settings i.0 d
            (unless (may_land_on self.now.settings i.0 image d) 4) }
    {
        let may = may_land(self.op(i), self.part(i, image));
        self.unless_off(i, unless(may, 4))
    }

    /// Rules 3 and 5, of a failure.
    pub(crate) fn refuses_fail(&self, i: Rank, image: u8) -> Option<u8>
        requires within { i.0 < length self.now.seats }
        requires few { i.0 < 32 }
        requires image { is_image image ≡ true }
        ensures { (d : TripleWorld)
            → TripleFor self.now d
            → result ≡ unless_off self.now.settings i.0 d
            (unless (may_fail_on self.now.settings i.0 image d) 5) }
    {
        let may = may_fail(self.op(i), self.part(i, image));
        self.unless_off(i, unless(may, 5))
    }

    /// Rule 6: there is a leftover of that number on the image.
    pub(crate) fn refuses_late(&self, i: Rank, image: u8, number: u64) -> Option<u8>
        requires image { is_image image ≡ true }
        requires number { 1 ≤ number }
        ensures { (d : TripleWorld)
            → TripleFor self.now d
            → result ≡ unless (may_be_late i.0 number (image_of image d)) 6 }
    {
        unless(self.has_left(i, image, number), 6)
    }

    /// Rule 10: the message is deadly, or the mailbox of the image holds no deadly one, or the node is off.
    pub(crate) fn refuses_operator(&self, i: Rank, image: u8, message: Message) -> Option<u8>
        requires within { i.0 < length self.now.seats }
        requires few { i.0 < 32 }
        requires image { is_image image ≡ true }
        ensures { (d : TripleWorld)
            → TripleFor self.now d
            → result ≡ unless (may_operate self.now.settings i.0 message (image_of image d)) 10 }
    {
        let there = self.mailbox(i, image);
        unless(may_operate(message, there, self.cluster.is_on(i)), 10)
    }
}
