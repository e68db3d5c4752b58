//! The status of nodes as one line of JSON.
ghost use Rattle.std.specs.Prelude.{◌≡◌, string_bytes, IfOk};
ghost use Rattle.serde_json.specs.View.{view};
ghost use Rattle.qn_names.specs.WhyTexts.{why_text};
ghost use Rattle.qn_status.specs.StateData.{state_data, states_data};
ghost use Rattle.qn_status.specs.StatusJson.{states_line};

use crate::node_state::NodeState;
use arrayvec::ArrayVec;
use qn_model::Why;
use qn_names::{phase_name, write_why};
use serde_json::{Value, json};
use std::alloc::{AllocError, Global};
use std::str::from_utf8;

/// The line with the array of these nodes.
pub(crate) fn states_line(alloc: Global, nodes: &[NodeState]) -> Result<String, AllocError>
    ensures { IfOk result (λ line. string_bytes line ≡ states_line nodes.now) }
{
    let mut line = states_value(alloc, nodes)?.to_string(alloc)?;
    line.push('\n')?;
    Ok(line)
}

/// The array of these nodes.
fn states_value(alloc: Global, nodes: &[NodeState]) -> Result<Value, AllocError>
    ensures { IfOk result (λ value. view value ≡ states_data nodes.now) }
{
    let mut items = Vec::new(alloc);
    'nodes: for node in nodes {
        let value = state_value(alloc, *node)?;
        items.push(value)?;
    }
    Ok(Value::Array(items))
}

/// The object of a node.
fn state_value(alloc: Global, node: NodeState) -> Result<Value, AllocError>
    ensures { IfOk result (λ value. view value ≡ state_data node) }
{
    let mut text = ArrayVec::new();
    write_why(&node.why, &mut text);
    let why = why_string(node.why, text.as_slice());
    json!(in alloc; {
        "expected": node.answer.expected,
        "holds": node.holds,
        "id": node.id.0,
        "phase": phase_name(node.phase),
        "quorate": node.answer.quorate,
        "quorum": node.answer.quorum,
        "released": node.answer.released,
        "votes": node.answer.votes,
        "why": why,
    })
}

/// The text of a condition, as a string.
fn why_string(why: Why, text: &[u8]) -> &str
    requires { text.now ≡ why_text why }
    ensures { result.now ≡ why_text why }
{
    match from_utf8(text) {
        Ok(text) => text,
        Err(_) => unreachable!(),
    }
}
