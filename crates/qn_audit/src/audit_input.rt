//! Audits the log of a recorded node behind its settings.
ghost use Rattle.std.specs.Prelude.{◌≤◌};
ghost use Rattle.qn_audit.specs.Inputs.{JudgesInput, input_at};

use crate::audit_end::AuditEnd;
use crate::auditor::Auditor;
use crate::log::audit_log;
use qn_base::NodeId;
use qn_io::{Pieces, Source};
use qn_live::NodeImages;
use qn_playback::read_settings;
use std::alloc::Global;

/// Judges an input of a settings text, a line `----` and a log: whether the log is a whole run of so many turns, or the
/// beginning of one, of the node with that id on these images. `clean` says that its boot is a clean start, and `leave_at` is the number
/// of the turn from which on it is to leave; `polls` is the limit, in milliseconds, within which it takes a reply of its arbiter, where it
/// polls one. Memory is taken for the settings alone.
pub fn audit<I: Source>(
    alloc: Global,
    input: &mut I,
    images: NodeImages,
    id: NodeId,
    turns: u64,
    leave_at: Option<u64>,
    polls: Option<u64>,
    clean: bool,
) -> AuditEnd
    requires some_turn { 1 ≤ turns }
    ensures judges { JudgesInput
        (record { images = images; id = id; clean = clean; leave = leave_at; polls = polls; turns = turns })
        (input_at I.left I.faults input.old) (input_at I.left I.faults input.new) result }
    ensures never_falls { I.faults input.old ≤ I.faults input.new }
{
    let mut pieces = Pieces::new();
    let head = match read_settings(alloc, &mut pieces, input) {
        Ok(head) => head,
        Err(fault) => return AuditEnd::from(fault),
    };
    let number = u64::from(id.0);
    let Some(me) = head.settings.nodes.rank_of(number) else {
        return AuditEnd::UnknownNode;
    };
    let lines = head.lines;
    let mut auditor = Auditor::new(images, head.settings, me, clean, leave_at, polls, turns);
    audit_log(&mut auditor, lines, &mut pieces, input)
}
