//! Runs a node over an outside and records its calls.
ghost use Rattle.std.specs.Prelude.{◌≡◌, ◌≤◌, ◌<◌, List, length};
ghost use Rattle.qn_live.specs.Images.{plan_on};
ghost use Rattle.qn_model.specs.Log.{Line};
ghost use Rattle.qn_model.specs.Settings.{IsValid};
ghost use Rattle.qn_audit.specs.Recording.{DidLogged, log_of, recorded};

use crate::recorder::Recorder;
use qn_base::Rank;
use qn_io::{Env, Sink};
use qn_live::{LiveEnd, NodeImages, Notices, run_on};
use qn_model::Settings;

/// Runs the node of that rank on these images for that many turns at most, over an outside whose calls are recorded, as
/// `qn_live::run_node` and `qn_live::run_node3` do. The calls that were made are those of the plan, and they were given to the log in that order.
/// `notices` is told of each call, and of the end.
pub fn run_recorded<E: Env, O: Sink, N: Notices>(
    recorder: &mut Recorder<'_, E, O>,
    notices: &mut N,
    images: NodeImages,
    settings: &Settings,
    me: Rank,
    clean: bool,
    leave_at: Option<u64>,
    polls: Option<u64>,
    turns: u64,
) -> LiveEnd
    requires valid { IsValid settings.now }
    requires configured { me.0 < length settings.now.nodes }
    requires some_turn { 1 ≤ turns }
    ensures did { let before = recorded (E.faults recorder.old.env.now)
        (E.calls recorder.old.env.now)
        (log_of O.written O.faults recorder.old) in
        let after = recorded (E.faults recorder.new.env.now) (E.calls recorder.new.env.now)
        (log_of O.written O.faults recorder.new) in
        (log : List Line) × DidLogged (plan_on images settings.now me.0 clean leave_at polls turns)
        (record { end = result; log = log }) before after }
    ensures same_env { recorder.new.env.ghost_name ≡ recorder.old.env.ghost_name }
    ensures same_out { recorder.new.out.ghost_name ≡ recorder.old.out.ghost_name }
    ensures env_faults { E.faults recorder.old.env.now ≤ E.faults recorder.new.env.now }
    ensures sink_faults { O.faults recorder.old.out.now ≤ O.faults recorder.new.out.now }
{
    run_on(
        recorder, notices, images, settings, me, clean, leave_at, polls, turns,
    )
}
