//! The end of a command: its last text, and its status.
ghost use Rattle.std.specs.Prelude.{◌≡◌, ◌≤◌, ◌⊎◌};
ghost use Rattle.qn_io.specs.Outside.{HasRisen};
ghost use Rattle.qn_commands.specs.Endings.{Refuses, Says};
ghost use Rattle.qn_commands.specs.Faults.{status_of};
ghost use Rattle.qn_commands.specs.Seen.{sink};
ghost use Rattle.qn_commands.specs.Statuses.{code_of};

use crate::fault::Fault;
use crate::status::Status;
use qn_base::{Failed, ShortText};
use qn_io::{Sink, put_all};

/// The end of a command that did its whole work: writes its text.
pub fn say<O: Sink>(out: &mut O, text: &ShortText) -> Status
    ensures says { Says text.now 0 (sink O.written O.faults out.old)
        (sink O.written O.faults out.new) (code_of result) }
    ensures own { (code_of result ≡ 0) ⊎ (code_of result ≡ 7) }
    ensures write_fault { code_of result ≡ 7 → HasRisen (O.faults out.old) (O.faults out.new) }
    ensures sink_faults { O.faults out.old ≤ O.faults out.new }
{
    match put_all(out, text.as_slice()) {
        Ok(()) => Status::Done,
        Err(Failed) => Status::WriteFault,
    }
}

/// The end of a command at a fault: writes its line.
pub fn refuse<O: Sink>(out: &mut O, fault: Fault) -> Status
    ensures refuses { Refuses fault (sink O.written O.faults out.old)
        (sink O.written O.faults out.new) (code_of result) }
    ensures own { (code_of result ≡ status_of fault) ⊎ (code_of result ≡ 7) }
    ensures write_fault { code_of result ≡ 7 → HasRisen (O.faults out.old) (O.faults out.new) }
    ensures sink_faults { O.faults out.old ≤ O.faults out.new }
{
    let line = fault.line();
    match put_all(out, line.as_slice()) {
        Ok(()) => fault.status(),
        Err(Failed) => Status::WriteFault,
    }
}
