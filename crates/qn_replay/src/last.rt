//! The world after the last event of a schedule, of which nothing is written.
ghost use Rattle.std.specs.Prelude.{◌≡◌, ◌≢◌, ◌≤◌, Err, IfErr, IfSome};
ghost use Rattle.qn_io.specs.Outside.{HasRisen};
ghost use Rattle.qn_model.specs.Lines.{Ended};
ghost use Rattle.qn_replay.specs.Replay.{replay_of};
ghost use Rattle.qn_replay.specs.Runs.{GivesWorld, IsFault, Reaches};

use crate::playback::Playback;
use crate::takes_events::TakesEvents;
use qn_io::{Pieces, Source};
use qn_playback::{NullSink, Output, play, read_head};
use qn_sched::ReplayEnd;
use qn_world::World;
use std::alloc::Global;

/// The world after the last event of a schedule that is good to its end. Otherwise how its replay ends, which
/// is never `Done`, `WriteFault` or `UnsafeLease`; `NoMemory` comes only where it ran out of memory. It reads as
/// `replay` does, and writes nothing.
pub fn last_world<I: Source>(alloc: Global, input: &mut I) -> Result<World, ReplayEnd>
    ensures reaches { Reaches (I.left input.old) (I.left input.new)
        (HasRisen (I.faults input.old) (I.faults input.new)) result }
    ensures complete { ¬ HasRisen (I.faults input.old) (I.faults input.new)
        → result ≢ Err ReplayEnd.NoMemory
        → IfSome (I.left input.old) (λ bytes. GivesWorld result (replay_of Ended bytes)) }
    ensures fault { IfErr result IsFault }
    ensures read_fault { result ≡ Err ReplayEnd.ReadFault
        → HasRisen (I.faults input.old) (I.faults input.new) }
    ensures source_faults { I.faults input.old ≤ I.faults input.new }
{
    run_silent(alloc, input)
}

/// A replay up to its end, of which no trace is kept and nothing is written.
fn run_silent<I: Source>(alloc: Global, input: &mut I) -> Result<World, ReplayEnd>
    ensures reaches { Reaches (I.left input.old) (I.left input.new)
        (HasRisen (I.faults input.old) (I.faults input.new)) result }
    ensures fault { IfErr result IsFault }
    ensures source_faults { I.faults input.old ≤ I.faults input.new }
{
    let mut pieces = Pieces::new();
    let head = read_head(alloc, &mut pieces, input)?;
    let lines = head.lines;
    let Ok(world) = World::begin(alloc, head) else {
        return Err(ReplayEnd::NoMemory);
    };
    let mut playback = Playback::new(world, lines, false);
    let end = play(
        &mut playback,
        lines,
        pieces,
        Output::new(),
        input,
        &mut NullSink,
    );
    playback.last(end)
}
