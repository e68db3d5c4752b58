//! The run of a node on one image or on three, as a machine that names its next call and takes its answer.
ghost use Rattle.std.specs.Prelude.{◌≡◌, ◌≤◌, ◌<◌, length};

use crate::node_images::NodeImages;
use crate::triple_run::TripleRun;
use crate::{Asked, Decoded, Given, LiveEnd, NodeRun, Room};
use qn_base::Rank;
use qn_model::Settings;

/// A running node that waits for the answer of its next call, or whose run is over.
#[derive(Drop)]
pub enum ImagesRun {
    /// On one image.
    One(NodeRun),
    /// On three images.
    Three(TripleRun),
}

impl ImagesRun {
    ghost use Rattle.std.specs.Prelude.{IfErr, IfOk, OnOk, Some};
    ghost use Rattle.qn_base.specs.declared.calls.Call.{Call};
    ghost use Rattle.qn_base.specs.Calls.{blank};
    ghost use Rattle.qn_base.specs.Plans.{Plan, left, question};
    ghost use Rattle.qn_io.specs.Receives.{FitsPacket};
    ghost use Rattle.qn_model.specs.Settings.{IsValid};
    ghost use Rattle.qn_live.specs.Asking.{IsServed, Tells, question_of};
    ghost use Rattle.qn_live.specs.Decoding.{decoded_of};
    ghost use Rattle.qn_live.specs.Machine.{EndsWith};
    ghost use Rattle.qn_live.specs.Running.{Ran};
    ghost use Rattle.qn_live.specs.Images.{HasRun, RunsAs, WasAnswered, has_work, images_work, node_run, plan_on};

    /// A run of that many turns of the node of that rank on these images; `clean` says that its boot is a clean start, and
    /// `leave_at` is the number of the turn from which on it is to leave.
    pub fn new(
        images: NodeImages,
        settings: Settings,
        me: Rank,
        clean: bool,
        leave_at: Option<u64>,
        polls: Option<u64>,
        turns: u64,
    ) -> ImagesRun
        requires valid { IsValid settings }
        requires configured { me.0 < length settings.nodes }
        requires some_turn { 1 ≤ turns }
        ensures { RunsAs result (plan_on images settings me.0 clean leave_at polls turns) }
    {
        match images {
            NodeImages::One => {
                ImagesRun::One(NodeRun::new(settings, me, clean, leave_at, polls, turns))
            }
            NodeImages::Three => {
                ImagesRun::Three(TripleRun::new(settings, me, clean, leave_at, polls, turns))
            }
        }
    }

    /// The run as that of a node on one image.
    pub fn node_run(&self) -> &NodeRun
        ensures { result.now ≡ node_run self.now }
    {
        match self {
            ImagesRun::One(run) => run,
            ImagesRun::Three(run) => run.node_run(),
        }
    }

    /// The call that comes next, whose bytes are put into the room, or how the run ended.
    pub fn asks(&self, room: &mut Room) -> Result<Asked, LiveEnd>
        requires under_way { HasRun self.now }
        ensures asked { IfOk result (λ asked. (plan : Plan Ran)
            → RunsAs self.now plan
            → question plan ≡ Some (question_of asked room.new)) }
        ensures served { IfOk result IsServed }
        ensures work { OnOk result (0 < has_work self.now) }
        ensures over { IfErr result
            (λ end. (plan : Plan Ran) → RunsAs self.now plan → EndsWith plan end) }
    {
        match self {
            ImagesRun::One(run) => run.asks(room),
            ImagesRun::Three(run) => run.asks(room),
        }
    }

    /// Takes the answer of the call that was asked for, with its bytes in the room, and goes on to the next call. It gives what the bytes
    /// are.
    pub fn answer(&mut self, given: Given, room: &Room) -> Decoded
        requires fits { FitsPacket given.got }
        requires answered { WasAnswered self.old given room.now }
        ensures runs { (plan : Plan Ran) (call : Call)
            → RunsAs self.old plan
            → Tells call given room.now
            → question plan ≡ Some (blank call)
            → RunsAs self.new (left plan call) }
        ensures work { 0 < has_work self.old → images_work self.new < images_work self.old }
        ensures decoded { result ≡ decoded_of (node_run self.old) given room.now }
    {
        match self {
            ImagesRun::One(run) => run.answer(given, room),
            ImagesRun::Three(run) => run.answer(given, room),
        }
    }
}
