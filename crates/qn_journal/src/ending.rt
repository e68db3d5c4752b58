//! How a run ended, as the line that `node` ends with says it.
ghost use Rattle.std.specs.Prelude.{◌≡◌};
ghost use Rattle.qn_journal.specs.Endings.{end_text, is_fault, turns_text};

use arrayvec::ArrayVec;
use qn_base::{ShortText, yes_no};
use qn_live::LiveEnd;
use qn_model::{Answer, Phase, Why};
use qn_names::{answer_text, cause_number, phase_name, write_why};

/// The text of an end, of a run of so many turns.
pub(crate) fn end_text(end: LiveEnd, turns: u64) -> ShortText
    ensures { result ≡ end_text end turns }
{
    let mut text = ShortText::new();
    match end {
        LiveEnd::Turns {
            phase,
            holds,
            answer,
            why,
        } => return turns_text(turns, phase, holds, &answer, &why),
        LiveEnd::Left { clean: true } => text.add(b"left clean"),
        LiveEnd::Left { clean: false } => text.add(b"left dirty"),
        LiveEnd::ClockBack { before, now } => {
            text.add(b"fault ClockBack ");
            text.add_number(before);
            text.add(b" ");
            text.add_number(now);
        }
        LiveEnd::SelfReset(message) => {
            text.add(b"fault SelfReset ");
            text.add(message.name().as_bytes());
        }
        LiveEnd::BootHalted(cause) => {
            text.add(b"fault BootHalted ");
            text.add_number(cause_number(cause));
        }
    }
    text
}

/// The text of the end of the last of so many turns.
#[tactic(auto, unfolding(crate::specs::Endings::turns_text))]
fn turns_text(turns: u64, phase: Phase, holds: bool, answer: &Answer, why: &Why) -> ShortText
    ensures { result ≡ turns_text turns phase holds answer.now why.now }
{
    let mut condition = ArrayVec::new();
    write_why(why, &mut condition);
    let mut text = ShortText::new();
    text.add(b"turns ");
    text.add_number(turns);
    text.add(b" ");
    text.add(phase_name(phase).as_bytes());
    text.add(b" holds=");
    text.add(yes_no(holds));
    text.add(answer_text(answer).as_slice());
    text.add(b" why=");
    text.add(condition.as_slice());
    text
}

/// Whether an end is a fault.
pub(crate) fn is_fault(end: LiveEnd) -> bool
    ensures { result ≡ is_fault end }
{
    match end {
        LiveEnd::Turns { .. } | LiveEnd::Left { .. } => false,
        LiveEnd::ClockBack { .. } | LiveEnd::SelfReset(_) | LiveEnd::BootHalted(_) => true,
    }
}
