//! Judges the calls of a log, one after the other: each must be the one that the run asks for.
ghost use Rattle.std.specs.Prelude.{◌≡◌};

use crate::answering::is_wanted;
use crate::logged_call::LoggedCall;
use qn_base::Rank;
use qn_live::{ImagesRun, LiveEnd, NodeImages, Room};
use qn_model::Settings;

/// A run of a node as far as the calls of a log tell of it.
#[derive(Drop)]
pub struct Auditor {
    run: ImagesRun,
    room: Room,
}

/// How far the calls of a log are a run.
#[derive(Clone, Copy, PartialEq, Eq)]
pub enum Verdict {
    /// They are a whole run, which ends so.
    Whole(LiveEnd),
    /// They are the beginning of a run, which goes on.
    Prefix,
}

/// The call is not the one that the run asks for.
#[derive(Clone, Copy, PartialEq, Eq)]
pub struct NotNext;

impl Auditor {
    ghost use Rattle.std.specs.Prelude.{◌≤◌, ◌<◌, length, OnOk, OnErr};
    ghost use Rattle.qn_base.specs.Plans.{Plan, left};
    ghost use Rattle.qn_live.specs.Running.{Ran};
    ghost use Rattle.qn_live.specs.Images.{plan_on};
    ghost use Rattle.qn_model.specs.Settings.{IsValid};
    ghost use Rattle.qn_audit.specs.Auditing.{IsJudging, StandsFor, VerdictFor};
    ghost use Rattle.qn_audit.specs.Judging.{IsNext};
    ghost use Rattle.qn_audit.specs.LoggedCalls.{IsToldIn, call_in};

    /// The run of the node of that rank on these images before its first call. `clean` says that its boot is a clean start, and
    /// `leave_at` is the number of the turn from which on it is to leave; `polls` is the limit, in milliseconds, within which it
    /// takes a reply of its arbiter, where it has one.
    pub fn new(
        images: NodeImages,
        settings: Settings,
        me: Rank,
        clean: bool,
        leave_at: Option<u64>,
        polls: Option<u64>,
        turns: u64,
    ) -> Auditor
        requires valid { IsValid settings }
        requires configured { me.0 < length settings.nodes }
        requires some_turn { 1 ≤ turns }
        ensures { StandsFor result (plan_on images settings me.0 clean leave_at polls turns) }
    {
        Auditor {
            run: ImagesRun::new(images, settings, me, clean, leave_at, polls, turns),
            room: Room::new(),
        }
    }

    /// Takes the next call of the log with its answer, whose bytes stand in the room. At `NotNext` the run stands where it
    /// stood.
    pub fn take(&mut self, call: LoggedCall, room: &Room) -> Result<(), NotNext>
        requires judging { IsJudging self.old }
        requires told { IsToldIn call room.now }
        ensures next { OnOk result ((plan : Plan Ran)
            → StandsFor self.old plan
            → IsNext plan (call_in call room.now)) }
        ensures stands { OnOk result ((plan : Plan Ran)
            → StandsFor self.old plan
            → StandsFor self.new (left plan (call_in call room.now))) }
        ensures other { OnErr result ((plan : Plan Ran)
            → StandsFor self.old plan
            → IsNext plan (call_in call room.now)
            → ⊥) }
        ensures kept { OnErr result
            ((plan : Plan Ran) → StandsFor self.old plan → StandsFor self.new plan) }
    {
        let asked = match self.run.asks(&mut self.room) {
            Ok(asked) => asked,
            Err(_) => return Err(NotNext),
        };
        if !is_wanted(call.asked, room, asked, &self.room) {
            return Err(NotNext);
        }
        self.run.answer(call.given, room);
        Ok(())
    }

    /// Whether the run is over after the calls that were taken, or goes on.
    pub fn verdict(&mut self) -> Verdict
        requires judging { IsJudging self.old }
        ensures verdict { (plan : Plan Ran) → StandsFor self.old plan → VerdictFor result plan }
        ensures kept { (plan : Plan Ran) → StandsFor self.old plan → StandsFor self.new plan }
    {
        match self.run.asks(&mut self.room) {
            Ok(_) => Verdict::Prefix,
            Err(end) => Verdict::Whole(end),
        }
    }
}
