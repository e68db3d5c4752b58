//! The last line of a replay.
ghost use Rattle.std.specs.Prelude.{◌≡◌, ◌≢◌, ◌≤◌};
ghost use Rattle.qn_commands.specs.Endings.{Says};
ghost use Rattle.qn_commands.specs.Seen.{sink};
ghost use Rattle.qn_commands.specs.Statuses.{code_of};
ghost use Rattle.qn_top.specs.ReplayEnds.{end_outcome};

use qn_base::ShortText;
use qn_commands::{Fault, LeaseTimes, Status, refuse, say};
use qn_io::Sink;
use qn_sched::ReplayEnd;

/// Writes the last line of a replay.
pub(crate) fn finish_replay<O: Sink>(out: &mut O, end: ReplayEnd) -> Status
    requires { end ≢ ReplayEnd.WriteFault }
    ensures says { Says (end_outcome end).text (end_outcome end).status
        (sink O.written O.faults out.old) (sink O.written O.faults out.new) (code_of result) }
    ensures sink_faults { O.faults out.old ≤ O.faults out.new }
{
    match end {
        ReplayEnd::Done { events } => say(out, &end_text(events)),
        ReplayEnd::BadConf(fault) => refuse(out, Fault::BadConf(fault)),
        ReplayEnd::BadSettings(fault) => refuse(out, Fault::BadSettings(fault)),
        ReplayEnd::BadSchedule { line, fault } => refuse(out, Fault::BadSchedule { line, fault }),
        ReplayEnd::NotAllowed { line, rule } => refuse(out, Fault::NotAllowed { line, rule }),
        ReplayEnd::ReadFault => refuse(out, Fault::ReadFault),
        ReplayEnd::WriteFault => unreachable!(),
        ReplayEnd::UnsafeTiming(timing) => refuse(out, Fault::UnsafeTiming(timing)),
        ReplayEnd::UnsafeLease {
            timeout,
            limit,
            lease,
        } => refuse(
            out,
            Fault::UnsafeLease(LeaseTimes {
                timeout,
                limit,
                lease,
            }),
        ),
        ReplayEnd::NoMemory => refuse(out, Fault::NoMemory),
    }
}

/// The last line of a replay that was good to its end.
fn end_text(events: u64) -> ShortText
    ensures { result ≡ (end_outcome (ReplayEnd.Done events)).text }
{
    let mut text = ShortText::new();
    text.add(b"end ");
    text.add_number(events);
    text.add(b"\n");
    text
}
