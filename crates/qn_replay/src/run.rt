//! The run of a replay, whatever world takes its events: the head, the events and the end.
ghost use Rattle.std.specs.Prelude.{◌≡◌, ◌≢◌, ◌≤◌, ℕ, IfSome};
ghost use Rattle.qn_playback.specs.Replays.{Completes, Replays, RunsOut, answer_of};
ghost use Rattle.qn_io.specs.Outside.{HasRisen};
ghost use Rattle.qn_model.specs.Lines.{Ended};
ghost use Rattle.qn_playback.specs.Runs.{AnswersWhole, IfDone};

use crate::playback::Playback;
use crate::takes_events::TakesEvents;
use qn_io::{Pieces, Sink, Source};
use qn_playback::{Output, play};
use qn_sched::ReplayEnd;
use std::alloc::Global;

/// Replays a schedule of a world: reads its input in pieces of at most 4096 bytes, up to the byte that decides the
/// end, and keeps no more of it than the settings text, one line, one piece and the world. It writes the trace
/// alone, and nothing of the end. The trace is written in blocks of up to 8192 bytes, always before more of the
/// input is read and before the replay ends.
pub(crate) fn replay_by<W: TakesEvents, I: Source, O: Sink>(
    alloc: Global,
    input: &mut I,
    out: &mut O,
) -> ReplayEnd
    // The end is the defined one of the bytes that were taken, and what was written is their trace, or a prefix
    // of it at WriteFault and NoMemory.
    ensures replays { Replays W.replay (I.left input.old) (I.left input.new)
        (HasRisen (I.faults input.old) (I.faults input.new))
        (O.written out.old) (O.written out.new)
        (HasRisen (O.faults out.old) (O.faults out.new)) result }

    ensures complete { ¬ HasRisen (I.faults input.old) (I.faults input.new)
        → ¬ HasRisen (O.faults out.old) (O.faults out.new)
        → result ≢ ReplayEnd.NoMemory
        → IfSome (I.left input.old)
        (λ bytes. AnswersWhole (answer_of W.replay Ended bytes) (O.written out.old)
        (O.written out.new) result) }
    ensures done { IfDone result
        (Completes W.replay (I.left input.old) (I.left input.new) (O.written out.old)
        (O.written out.new) result) }

    // Out of memory.
    ensures memory { result ≡ ReplayEnd.NoMemory
        → RunsOut W.replay (I.left input.old) (I.left input.new) (O.written out.old)
        (O.written out.new) }

    ensures lease { (timeout limit lease : ℕ)
        → result ≡ ReplayEnd.UnsafeLease timeout limit lease
        → W.Leased }

    // The faults of the outside.
    ensures read_fault { result ≡ ReplayEnd.ReadFault
        → HasRisen (I.faults input.old) (I.faults input.new) }
    ensures write_fault { result ≡ ReplayEnd.WriteFault
        → HasRisen (O.faults out.old) (O.faults out.new) }
    ensures source_faults { I.faults input.old ≤ I.faults input.new }
    ensures sink_faults { O.faults out.old ≤ O.faults out.new }
{
    run::<W, I, O>(alloc, input, out)
}

/// A replay up to its end.
fn run<W: TakesEvents, I: Source, O: Sink>(alloc: Global, input: &mut I, out: &mut O) -> ReplayEnd
    ensures replays { Replays W.replay (I.left input.old) (I.left input.new)
        (HasRisen (I.faults input.old) (I.faults input.new))
        (O.written out.old) (O.written out.new)
        (HasRisen (O.faults out.old) (O.faults out.new)) result }
    ensures source_faults { I.faults input.old ≤ I.faults input.new }
    ensures sink_faults { O.faults out.old ≤ O.faults out.new }
{
    let mut pieces = Pieces::new();
    let head = match W::read_head(alloc, &mut pieces, input) {
        Ok(head) => head,
        Err(end) => return end,
    };
    let lines = W::lines(&head);
    let Ok(world) = W::begin(alloc, head) else {
        return ReplayEnd::NoMemory;
    };
    let mut playback = Playback::new(world, lines, true);
    play(&mut playback, lines, pieces, Output::new(), input, out)
}
