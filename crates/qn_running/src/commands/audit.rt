//! `audit`: whether a log is a run of a node.
ghost use Rattle.std.specs.Prelude.{◌≡◌, ◌≤◌, ◌++◌, codes, decimal, length};
ghost use Rattle.qn_io.specs.Outside.{HasRisen};
ghost use Rattle.qn_running.specs.Commands.Audit.{Audits, audit_outcome};
ghost use Rattle.qn_commands.specs.Endings.{Says};
ghost use Rattle.qn_commands.specs.Seen.{Outside, seen, sink, source};
ghost use Rattle.qn_commands.specs.Statuses.{code_of};

use qn_audit::{AuditEnd, audit};
use qn_base::{NodeId, ShortText};
use qn_commands::{Fault, Status, refuse, say};
use qn_io::{Sink, Source};
use qn_live::NodeImages;
use std::alloc::Global;

/// What the words of `audit` say of the run that a log is to be.
#[derive(Drop)]
pub struct AuditWords {
    /// On which images the node ran.
    pub images: NodeImages,
    pub id: NodeId,
    /// How many turns the node was to run at most, from 1.
    pub turns: u64,
    /// The number of the turn, from 1, from which on the node was to leave.
    pub leave: Option<u64>,
    /// The limit, in milliseconds, within which the node took a reply of its arbiter, where it polled one.
    pub polls: Option<u64>,
    /// Whether the boot was a clean start (start mode 1).
    pub clean: bool,
}

/// `audit`: judges the log behind the settings of the input. Memory is taken for the settings text alone.
#[inline(never)]
pub fn run_audit<I: Source, O: Sink>(
    alloc: Global,
    words: &AuditWords,
    input: &mut I,
    out: &mut O,
) -> Status
    requires some_turn { 1 ≤ words.now.turns }
    ensures { (env : Outside) →
        let before = seen (source I.left I.faults input.old)
        (sink O.written O.faults out.old) env in
        let after = seen (source I.left I.faults input.new)
        (sink O.written O.faults out.new) env in
        Audits words.now before after (code_of result) }
{
    let end = audit(
        alloc,
        input,
        words.images,
        words.id,
        words.turns,
        words.leave,
        words.polls,
        words.clean,
    );
    finish_audit(out, words.id, end)
}

/// Writes how the audit of the log of that node ended.
fn finish_audit<O: Sink>(out: &mut O, id: NodeId, end: AuditEnd) -> Status
    ensures says { Says (audit_outcome id end).text (audit_outcome id end).status
        (sink O.written O.faults out.old) (sink O.written O.faults out.new) (code_of result) }
    ensures write_fault { code_of result ≡ 7 → HasRisen (O.faults out.old) (O.faults out.new) }
    ensures sink_faults { O.faults out.old ≤ O.faults out.new }
{
    match end {
        AuditEnd::Whole { turns } => say(out, &run_text(b"run whole turns ", turns)),
        AuditEnd::Prefix { turns } => say(out, &run_text(b"run prefix turns ", turns)),
        AuditEnd::NotARun { line } => refuse(out, Fault::NotARun { line }),
        AuditEnd::UnknownNode => refuse(out, Fault::UnknownNode { id }),
        AuditEnd::BadConf(fault) => refuse(out, Fault::BadConf(fault)),
        AuditEnd::BadSettings(fault) => refuse(out, Fault::BadSettings(fault)),
        AuditEnd::BadSchedule { line, fault } => refuse(out, Fault::BadSchedule { line, fault }),
        AuditEnd::ReadFault => refuse(out, Fault::ReadFault),
        AuditEnd::NoMemory => refuse(out, Fault::NoMemory),
    }
}

/// The line of a log that is a run of so many turns, or the beginning of one.
fn run_text(front: &[u8], turns: u64) -> ShortText
    requires { length front.now ≤ 100 }
    ensures { result ≡ front.now ++ decimal turns ++ codes "\n" }
{
    let mut text = ShortText::new();
    text.add(front);
    text.add_number(turns);
    text.add(b"\n");
    text
}
