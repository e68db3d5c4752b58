//! What `node` writes at its end.
ghost use Rattle.std.specs.Prelude.{◌≡◌, ◌≤◌, ◌⊎◌};
ghost use Rattle.qn_io.specs.Outside.{HasRisen};
ghost use Rattle.qn_commands.specs.Endings.{Says};
ghost use Rattle.qn_running.specs.NodeTexts.{end_outcome, left_text, turns_text};
ghost use Rattle.qn_commands.specs.Seen.{sink};
ghost use Rattle.qn_commands.specs.Statuses.{code_of};

use arrayvec::ArrayVec;
use qn_base::{ShortText, yes_no};
use qn_commands::{Fault, Status, refuse, say};
use qn_io::Sink;
use qn_live::LiveEnd;
use qn_model::{Answer, Phase, Why};
use qn_names::{answer_text, phase_name, write_why};

/// Writes how a run of so many turns ended.
pub(crate) fn finish_node<O: Sink>(out: &mut O, turns: u64, end: LiveEnd) -> Status
    ensures says { Says (end_outcome turns end).text (end_outcome turns end).status
        (sink O.written O.faults out.old) (sink O.written O.faults out.new) (code_of result) }
    ensures own { (code_of result ≡ (end_outcome turns end).status) ⊎ (code_of result ≡ 7) }
    ensures write_fault { code_of result ≡ 7 → HasRisen (O.faults out.old) (O.faults out.new) }
    ensures sink_faults { O.faults out.old ≤ O.faults out.new }
{
    match end {
        LiveEnd::Turns {
            phase,
            holds,
            answer,
            why,
        } => say(out, &turns_text(turns, phase, holds, &answer, &why)),
        LiveEnd::Left { clean } => say(out, &left_text(clean)),
        LiveEnd::ClockBack { before, now } => refuse(out, Fault::ClockBack { before, now }),
        LiveEnd::SelfReset(message) => refuse(out, Fault::SelfReset(message)),
        LiveEnd::BootHalted(cause) => refuse(out, Fault::BootHalted(cause)),
    }
}

/// What a node writes after its last turn.
#[tactic(auto, unfolding(crate::specs::NodeTexts::turns_text))]
fn turns_text(turns: u64, phase: Phase, holds: bool, answer: &Answer, why: &Why) -> ShortText
    ensures { result ≡ turns_text turns phase holds answer.now why.now }
{
    let mut condition = ArrayVec::new();
    write_why(why, &mut condition);
    let mut text = ShortText::new();
    text.add(b"turns ");
    text.add_number(turns);
    text.add(b" ");
    text.add(phase_name(phase).as_bytes());
    text.add(b" holds=");
    text.add(yes_no(holds));
    text.add(answer_text(answer).as_slice());
    text.add(b" why=");
    text.add(condition.as_slice());
    text.add(b"\n");
    text
}

/// What a node writes that left the cluster.
fn left_text(clean: bool) -> ShortText
    ensures { result ≡ left_text clean }
{
    let mut text = ShortText::new();
    text.add(if clean {
        b"left clean\n".as_slice()
    } else {
        b"left dirty\n".as_slice()
    });
    text
}
