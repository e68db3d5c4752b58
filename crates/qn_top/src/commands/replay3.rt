//! `replay3`: the trace of a schedule of three images.
ghost use Rattle.qn_commands.specs.Seen.{Outside, seen, sink, source};
ghost use Rattle.qn_commands.specs.Statuses.{code_of};
ghost use Rattle.qn_top.specs.Commands.Replay3.{Replays3, ShowsTripleRun};

use crate::replay_end::finish_replay;
use qn_commands::Status;
use qn_io::{Sink, Source};
use qn_replay::{law_triple_ending, law_triple_one_holder, replay3};
use qn_sched::ReplayEnd;
use std::alloc::Global;

/// `replay3`: the trace of the schedule of three images that the input is, and then how it ended.
#[inline(never)]
pub(crate) fn run_replay3<I: Source, O: Sink>(alloc: Global, input: &mut I, out: &mut O) -> Status
    ensures replays { (env : Outside) →
        let before = seen (source I.left I.faults input.old)
        (sink O.written O.faults out.old) env in
        let after = seen (source I.left I.faults input.new)
        (sink O.written O.faults out.new) env in
        Replays3 before after (code_of result) }
    ensures one_holder { ShowsTripleRun (O.written out.old) (O.written out.new) }
{
    law_triple_ending();
    law_triple_one_holder();
    match replay3(alloc, input, out) {
        ReplayEnd::WriteFault => Status::WriteFault,
        end => finish_replay(out, end),
    }
}
