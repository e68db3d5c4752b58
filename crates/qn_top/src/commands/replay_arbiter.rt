//! `replay-arbiter`: the trace of a schedule beside an arbiter.
ghost use Rattle.qn_commands.specs.Seen.{Outside, seen, sink, source};
ghost use Rattle.qn_commands.specs.Statuses.{code_of};
ghost use Rattle.qn_top.specs.Commands.ReplayArbiter.{ReplaysBeside, ShowsRunBeside};

use crate::replay_end::finish_replay;
use qn_commands::Status;
use qn_io::{Sink, Source};
use qn_replay::{law_arbiter_ending, law_arbiter_traces, replay_arbiter};
use qn_sched::ReplayEnd;
use std::alloc::Global;

/// `replay-arbiter`: the trace of the schedule beside an arbiter that the input is, and then how it ended.
#[inline(never)]
pub(crate) fn run_replay_arbiter<I: Source, O: Sink>(
    alloc: Global,
    input: &mut I,
    out: &mut O,
) -> Status
    ensures replays { (env : Outside) →
        let before = seen (source I.left I.faults input.old)
        (sink O.written O.faults out.old) env in
        let after = seen (source I.left I.faults input.new)
        (sink O.written O.faults out.new) env in
        ReplaysBeside before after (code_of result) }
    ensures one_holder { ShowsRunBeside (O.written out.old) (O.written out.new) }
{
    law_arbiter_ending();
    law_arbiter_traces();
    match replay_arbiter(alloc, input, out) {
        ReplayEnd::WriteFault => Status::WriteFault,
        end => finish_replay(out, end),
    }
}
