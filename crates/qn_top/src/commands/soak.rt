//! `soak`: what events that are drawn from a seed come to.
ghost use Rattle.std.specs.Prelude.{◌≡◌, ◌≤◌};
ghost use Rattle.qn_commands.specs.Seen.{Input, Outside, seen, sink};
ghost use Rattle.qn_commands.specs.Statuses.{code_of};
ghost use Rattle.qn_replay.specs.Soak.{soaked};
ghost use Rattle.qn_top.specs.Commands.Soak.{Soaks};

use qn_base::MOST_EVENTS;
use qn_commands::{Fault, Status, refuse};
use qn_io::Sink;
use qn_replay::soak;
use qn_sched::ReplayEnd;
use std::alloc::Global;

/// `soak`: the summary of so many events that are drawn from a seed.
#[inline(never)]
pub(crate) fn run_soak<O: Sink>(alloc: Global, seed: u64, events: u64, out: &mut O) -> Status
    requires { events ≤ MOST_EVENTS }
    ensures soaks { (input : Input) (env : Outside) →
        let before = seen input (sink O.written O.faults out.old) env in
        let after = seen input (sink O.written O.faults out.new) env in
        Soaks seed events before after (code_of result) }
    ensures one_holder { code_of result ≡ 0 → (soaked seed events).tally.most_holders ≤ 1 }
{
    match soak(alloc, seed, events, out) {
        ReplayEnd::Done { .. } => Status::Done,
        ReplayEnd::WriteFault => Status::WriteFault,
        ReplayEnd::NoMemory => refuse(out, Fault::NoMemory),
        _ => unreachable!(),
    }
}
