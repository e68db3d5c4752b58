//! Runs a node over an outside, on one image or on three.
ghost use Rattle.std.specs.Prelude.{◌≡◌, ◌≤◌, ◌<◌, false, List, length};
ghost use Rattle.qn_base.specs.declared.calls.Call.{Call};
ghost use Rattle.qn_base.specs.Faults.{HasRisen};
ghost use Rattle.qn_base.specs.Plans.{Did, Made};
ghost use Rattle.qn_live.specs.Images.{HasHeard, RanOn, plan_on};
ghost use Rattle.qn_live.specs.Laws.{is_no_failure};
ghost use Rattle.qn_live.specs.Runs.{live_plan};
ghost use Rattle.qn_live.specs.Sound.{Shows};
ghost use Rattle.qn_live.specs.TripleHalts.{HaltedOnThree};
ghost use Rattle.qn_live.specs.TripleRuns.{triple_plan};
ghost use Rattle.qn_model.specs.declared.outputs.BootCause.{BootCause};
ghost use Rattle.qn_model.specs.Log.{Line};
ghost use Rattle.qn_model.specs.Settings.{IsValid};

use crate::asked::Room;
use crate::calling::call;
use crate::images_run::ImagesRun;
use crate::live_end::LiveEnd;
use crate::node_images::NodeImages;
use crate::notices::Notices;
use qn_base::Rank;
use qn_io::Env;
use qn_model::Settings;

/// Runs the node of that rank on these images for that many turns at most. `clean` says that its boot is a clean start, and
/// `leave_at` is the number of the turn, from 1, from which on it is to leave; `polls` is the limit, in milliseconds, within
/// which it takes a reply of its arbiter, where it has one. `notices` is told of each call, and of the end.
pub fn run_on<E: Env, N: Notices>(
    env: &mut E,
    notices: &mut N,
    images: NodeImages,
    settings: &Settings,
    me: Rank,
    clean: bool,
    leave_at: Option<u64>,
    polls: Option<u64>,
    turns: u64,
) -> LiveEnd
    requires valid { IsValid settings.now }
    requires configured { me.0 < length settings.now.nodes }
    requires some_turn { 1 ≤ turns }
    ensures { RanOn E.faults E.calls env.old env.new (λ calls. Shows E.shows env.old env.new calls
        × HasHeard N.hears N.hears_end notices.old notices.new calls result)
        (plan_on images settings.now me.0 clean leave_at polls turns) result }
{
    let mut run = ImagesRun::new(images, settings.copy(), me, clean, leave_at, polls, turns);
    let mut room = Room::new();
    'calls: loop {
        let asked = match run.asks(&mut room) {
            Ok(asked) => asked,
            Err(end) => {
                notices.ended(end, run.node_run());
                return end;
            }
        };
        let given = call(env, asked, &mut room);
        let decoded = run.answer(given, &room);
        notices.made(asked, given, decoded, run.node_run());
    }
}

/// Runs a node on one image, as `run_on` does.
pub fn run_node<E: Env, N: Notices>(
    env: &mut E,
    notices: &mut N,
    settings: &Settings,
    me: Rank,
    clean: bool,
    leave_at: Option<u64>,
    polls: Option<u64>,
    turns: u64,
) -> LiveEnd
    requires valid { IsValid settings.now }
    requires configured { me.0 < length settings.now.nodes }
    requires some_turn { 1 ≤ turns }
    ensures did { (log : List Line)
        × Did (E.faults env.old) (E.faults env.new) (E.calls env.old) (E.calls env.new)
        (live_plan settings.now me.0 clean leave_at polls turns) (record { end = result; log = log }) }
{
    run_on(
        env,
        notices,
        NodeImages::One,
        settings,
        me,
        clean,
        leave_at,
        polls,
        turns,
    )
}

/// Runs a node on three images, as `run_on` does.
pub fn run_node3<E: Env, N: Notices>(
    env: &mut E,
    notices: &mut N,
    settings: &Settings,
    me: Rank,
    clean: bool,
    leave_at: Option<u64>,
    polls: Option<u64>,
    turns: u64,
) -> LiveEnd
    requires valid { IsValid settings.now }
    requires configured { me.0 < length settings.now.nodes }
    requires some_turn { 1 ≤ turns }
    ensures did { (log : List Line)
        × Did (E.faults env.old) (E.faults env.new) (E.calls env.old) (E.calls env.new)
        (triple_plan settings.now me.0 clean leave_at polls turns) (record { end = result; log = log }) }
    ensures halted { (cause : BootCause) → result ≡ LiveEnd.BootHalted cause
        → is_no_failure cause ≡ false → (calls : List Call)
        × Made (E.faults env.old) (E.faults env.new) (E.calls env.old) (E.calls env.new) calls
        × HaltedOnThree settings.now me.0 cause calls
        × HasRisen (E.faults env.old) (E.faults env.new) }
{
    run_on(
        env,
        notices,
        NodeImages::Three,
        settings,
        me,
        clean,
        leave_at,
        polls,
        turns,
    )
}
