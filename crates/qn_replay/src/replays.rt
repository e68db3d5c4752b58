//! The public calls of the replays.
ghost use Rattle.std.specs.Prelude.{◌≡◌, ◌≢◌, ◌≤◌, ℕ, IfSome};
ghost use Rattle.qn_playback.specs.Replays.{Completes, Replays, RunsOut};
ghost use Rattle.qn_io.specs.Outside.{HasRisen};
ghost use Rattle.qn_model.specs.Lines.{Ended};
ghost use Rattle.qn_playback.specs.Runs.{AnswersWhole, IfDone};
ghost use Rattle.qn_replay.specs.BesideReplay.{beside_replay, replay_arbiter_of};
ghost use Rattle.qn_replay.specs.Replay.{image_replay, replay_of};
ghost use Rattle.qn_replay.specs.TripleReplay.{replay3_of, triple_replay};

use crate::run::replay_by;
use qn_arbiter::ArbiterWorld;
use qn_io::{Sink, Source};
use qn_sched::ReplayEnd;
use qn_triple::TripleWorld;
use qn_world::World;
use std::alloc::Global;

/// Replays a schedule: reads its input in pieces of at most 4096 bytes, up to the byte that decides the end,
/// and keeps no more of it than the settings text, one line, one piece and the world. It writes the trace
/// alone, and nothing of the end. The trace is written in blocks of up to 8192 bytes, always before more of the
/// input is read and before the replay ends. After the first trace line, `NoMemory` comes only where the next
/// event adds a packet or a leftover to the world.
pub fn replay<I: Source, O: Sink>(alloc: Global, input: &mut I, out: &mut O) -> ReplayEnd
    // The end is the defined one of the bytes that were taken, and what was written is their trace, or a prefix
    // of it at WriteFault and NoMemory.
    ensures replays { Replays image_replay (I.left input.old) (I.left input.new)
        (HasRisen (I.faults input.old) (I.faults input.new))
        (O.written out.old) (O.written out.new)
        (HasRisen (O.faults out.old) (O.faults out.new)) result }

    ensures complete { ¬ HasRisen (I.faults input.old) (I.faults input.new)
        → ¬ HasRisen (O.faults out.old) (O.faults out.new)
        → result ≢ ReplayEnd.NoMemory
        → IfSome (I.left input.old)
        (λ bytes. AnswersWhole (replay_of Ended bytes) (O.written out.old)
        (O.written out.new) result) }
    ensures done { IfDone result
        (Completes image_replay (I.left input.old) (I.left input.new) (O.written out.old)
        (O.written out.new) result) }

    // Out of memory.
    ensures memory { result ≡ ReplayEnd.NoMemory
        → RunsOut image_replay (I.left input.old) (I.left input.new) (O.written out.old)
        (O.written out.new) }

    // No lease is judged.
    ensures no_lease { (timeout limit lease : ℕ)
        → result ≢ ReplayEnd.UnsafeLease timeout limit lease }

    // The faults of the outside.
    ensures read_fault { result ≡ ReplayEnd.ReadFault
        → HasRisen (I.faults input.old) (I.faults input.new) }
    ensures write_fault { result ≡ ReplayEnd.WriteFault
        → HasRisen (O.faults out.old) (O.faults out.new) }
    ensures source_faults { I.faults input.old ≤ I.faults input.new }
    ensures sink_faults { O.faults out.old ≤ O.faults out.new }
{
    replay_by::<World, I, O>(alloc, input, out)
}

/// Replays a schedule of three images: reads its input in pieces of at most 4096 bytes, up to the byte that decides
/// the end, and keeps no more of it than the settings text, one line, one piece and the world. It writes the trace
/// alone, and nothing of the end. The trace is written in blocks of up to 8192 bytes, always before more of the
/// input is read and before the replay ends. After the first trace line, `NoMemory` comes only where the next
/// event adds a packet or a leftover to the world.
pub fn replay3<I: Source, O: Sink>(alloc: Global, input: &mut I, out: &mut O) -> ReplayEnd
    // The end is the defined one of the bytes that were taken, and what was written is their trace, or a prefix
    // of it at WriteFault and NoMemory.
    ensures replays { Replays triple_replay (I.left input.old) (I.left input.new)
        (HasRisen (I.faults input.old) (I.faults input.new))
        (O.written out.old) (O.written out.new)
        (HasRisen (O.faults out.old) (O.faults out.new)) result }

    ensures complete { ¬ HasRisen (I.faults input.old) (I.faults input.new)
        → ¬ HasRisen (O.faults out.old) (O.faults out.new)
        → result ≢ ReplayEnd.NoMemory
        → IfSome (I.left input.old) (λ bytes.
        AnswersWhole (replay3_of Ended bytes) (O.written out.old) (O.written out.new) result) }
    ensures done { IfDone result
        (Completes triple_replay (I.left input.old) (I.left input.new) (O.written out.old)
        (O.written out.new) result) }

    // Out of memory.
    ensures memory { result ≡ ReplayEnd.NoMemory
        → RunsOut triple_replay (I.left input.old) (I.left input.new) (O.written out.old)
        (O.written out.new) }

    // No lease is judged.
    ensures no_lease { (timeout limit lease : ℕ)
        → result ≢ ReplayEnd.UnsafeLease timeout limit lease }

    // The faults of the outside.
    ensures read_fault { result ≡ ReplayEnd.ReadFault
        → HasRisen (I.faults input.old) (I.faults input.new) }
    ensures write_fault { result ≡ ReplayEnd.WriteFault
        → HasRisen (O.faults out.old) (O.faults out.new) }
    ensures source_faults { I.faults input.old ≤ I.faults input.new }
    ensures sink_faults { O.faults out.old ≤ O.faults out.new }
{
    replay_by::<TripleWorld, I, O>(alloc, input, out)
}

/// Replays a schedule beside an arbiter: reads its input in pieces of at most 4096 bytes, up to the byte that decides
/// the end, and keeps no more of it than the settings text, one line, one piece and the world. It writes the trace
/// alone, and nothing of the end. The trace is written in blocks of up to 8192 bytes, always before more of the
/// input is read and before the replay ends. `UnsafeLease` comes where the lease line is good and its times are not
/// safe. After the first trace line, `NoMemory` comes only where the world wants memory for the next event.
pub fn replay_arbiter<I: Source, O: Sink>(alloc: Global, input: &mut I, out: &mut O) -> ReplayEnd
    // The end is the defined one of the bytes that were taken, and what was written is their trace, or a prefix
    // of it at WriteFault and NoMemory.
    ensures replays { Replays beside_replay (I.left input.old) (I.left input.new)
        (HasRisen (I.faults input.old) (I.faults input.new))
        (O.written out.old) (O.written out.new)
        (HasRisen (O.faults out.old) (O.faults out.new)) result }

    ensures complete { ¬ HasRisen (I.faults input.old) (I.faults input.new)
        → ¬ HasRisen (O.faults out.old) (O.faults out.new)
        → result ≢ ReplayEnd.NoMemory
        → IfSome (I.left input.old) (λ bytes.
        AnswersWhole (replay_arbiter_of Ended bytes) (O.written out.old)
        (O.written out.new) result) }
    ensures done { IfDone result
        (Completes beside_replay (I.left input.old) (I.left input.new) (O.written out.old)
        (O.written out.new) result) }

    // Out of memory.
    ensures memory { result ≡ ReplayEnd.NoMemory
        → RunsOut beside_replay (I.left input.old) (I.left input.new) (O.written out.old)
        (O.written out.new) }

    // The faults of the outside.
    ensures read_fault { result ≡ ReplayEnd.ReadFault
        → HasRisen (I.faults input.old) (I.faults input.new) }
    ensures write_fault { result ≡ ReplayEnd.WriteFault
        → HasRisen (O.faults out.old) (O.faults out.new) }
    ensures source_faults { I.faults input.old ≤ I.faults input.new }
    ensures sink_faults { O.faults out.old ≤ O.faults out.new }
{
    replay_by::<ArbiterWorld, I, O>(alloc, input, out)
}
