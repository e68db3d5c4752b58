//! Writes the trace line of an event beside an arbiter.
ghost use Rattle.std.specs.Prelude.{◌≡◌, ◌≤◌, ◌+◌, ◌++◌, length, codes, decimal};
ghost use Rattle.qn_model.specs.Settings.{ids};
ghost use Rattle.qn_arbiter.specs.TraceLines.{arbiter_trace_line, said_word};

use arrayvec::ArrayVec;
use qn_base::{ShortText, yes_no};
use qn_model::Settings;
use qn_safety::{ArbiterEvent, ArbiterReport, Said};
use qn_sched::{write_trace, write_trace_with};

/// Empties `into` and writes the trace line of the event of that number, without its end. At an event of the arbiter
/// `arbiter` and what it sent stand in place of a node and its outputs, and at a poll `poll:N` in place of the outputs. The
/// id of a rank that is not configured is 0.
#[tactic(auto, unfolding(crate::specs::TraceLines::arbiter_trace_line))]
pub fn write_arbiter_trace(
    number: u64,
    event: &ArbiterEvent,
    report: &ArbiterReport,
    settings: &Settings,
    into: &mut ArrayVec<u8, 4096>,
)
    ensures text { into.new.items
        ≡ arbiter_trace_line (ids settings.now.nodes) number event.now report.now }
    ensures fits { length into.new.items ≤ 4000 }
{
    let nodes_report = &report.report;
    match event {
        ArbiterEvent::One(_) | ArbiterEvent::PassWith(_, _) | ArbiterEvent::Reply(_) => {
            write_trace(number, nodes_report, settings, into);
        }
        ArbiterEvent::Poll(_) => {
            let text = said_text(b"", report.said);
            write_trace_with(number, nodes_report, text.as_slice(), settings, into);
        }
        ArbiterEvent::ArbiterBoot(_) | ArbiterEvent::ArbiterCrash | ArbiterEvent::Hear(_) => {
            let text = said_text(b"arbiter ", report.said);
            write_trace_with(number, nodes_report, text.as_slice(), settings, into);
        }
    }
}

/// What was sent between nodes and the arbiter, after this text.
fn said_text(before: &[u8], said: Said) -> ShortText
    requires { length before.now ≤ 10 }
    ensures text { result ≡ before.now ++ said_word said }
    ensures len { length result ≤ length before.now + 30 }
{
    let mut text = ShortText::new();
    text.add(before);
    match said {
        Said::Nothing => text.add(b"-"),
        Said::Polled(number) => add_numbered(&mut text, b"poll", number),
        Said::Answered { number, agrees } => add_numbered(&mut text, yes_no(agrees), number),
    }
    text
}

/// Adds a word and a number after a colon.
fn add_numbered(text: &mut ShortText, word: &[u8], number: u64)
    requires before { length text.old ≤ 10 }
    requires word { length word.now ≤ 4 }
    ensures text { text.new ≡ text.old ++ word.now ++ codes ":" ++ decimal number }
    ensures len { length text.new ≤ length text.old + length word.now + 21 }
{
    text.add(word);
    text.add(b":");
    text.add_number(number);
}
