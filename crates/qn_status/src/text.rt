//! The status of nodes as text, a line each.
ghost use Rattle.std.specs.Prelude.{◌≡◌, ◌≤◌, ◌+◌, ◌++◌, ℕ, codes, flat_map, length, OnOk, OnErr};
ghost use Rattle.std.specs.Io.KnownBytes.{append_known};
ghost use Rattle.qn_io.specs.Outside.{HasRisen};
ghost use Rattle.qn_io.specs.Writes.{AppendsFront};
ghost use Rattle.qn_names.specs.WhyTexts.{why_text};
ghost use Rattle.qn_status.specs.StatusText.{count_text, state_line};

use crate::node_state::NodeState;
use arrayvec::ArrayVec;
use qn_base::{Failed, ShortText, yes_no};
use qn_io::{Sink, put_all};
use qn_model::{Answer, Why};
use qn_names::{answer_text, phase_name, write_why};

/// Writes the line of each node. At `Failed` a prefix of the lines was written.
pub(crate) fn write_lines<O: Sink>(nodes: &[NodeState], out: &mut O) -> Result<(), Failed>
    ensures whole { OnOk result
        (O.written out.new ≡ append_known (O.written out.old) (flat_map state_line nodes.now)) }
    ensures front { OnErr result
        (AppendsFront (O.written out.old) (O.written out.new) (flat_map state_line nodes.now)) }
    ensures never_falls { O.faults out.old ≤ O.faults out.new }
    ensures cause { OnErr result (HasRisen (O.faults out.old) (O.faults out.new)) }
{
    'nodes: for node in nodes {
        let line = state_line(*node);
        put_all(out, line.as_slice())?;
    }
    Ok(())
}

/// The line of a node.
#[tactic(auto, unfolding(crate::specs::StatusText::state_line))]
fn state_line(node: NodeState) -> ShortText
    ensures { result ≡ state_line node }
{
    let mut line = ShortText::new();
    line.add(b"node ");
    line.add_number(u64::from(node.id.0));
    line.add(b" ");
    line.add(phase_name(node.phase).as_bytes());
    line.add(b" holds=");
    line.add(yes_no(node.holds));
    add_count(&mut line, node.answer);
    add_why(&mut line, node.why);
    line
}

/// Adds the whole count of a node.
#[tactic(auto, unfolding(crate::specs::StatusText::count_text))]
fn add_count(line: &mut ShortText, answer: Answer)
    requires { length line.old ≤ 64 }
    ensures text { line.new ≡ line.old ++ count_text answer }
    ensures len { length line.new ≤ length line.old + 110 }
{
    line.add(answer_text(&answer).as_slice());
    line.add(b" expected=");
    line.add_number(answer.expected);
    line.add(b" released=");
    line.add(yes_no(answer.released));
}

/// Adds the condition that blocks a start of a node, and ends the line.
fn add_why(line: &mut ShortText, why: Why)
    requires { length line.old ≤ 180 }
    ensures { line.new ≡ line.old ++ (codes " why=" ++ why_text why ++ codes "\n") }
{
    let mut text = ArrayVec::new();
    write_why(&why, &mut text);
    line.add(b" why=");
    line.add(text.as_slice());
    line.add(b"\n");
}
