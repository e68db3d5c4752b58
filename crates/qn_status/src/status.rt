//! The two public calls: the status of a world as text, and as JSON.
ghost use Rattle.std.specs.Prelude.{◌≡◌, ◌≤◌, ◌<◌, OnOk, OnErr, IsErrOf, length};
ghost use Rattle.std.specs.Io.KnownBytes.{append_known};
ghost use Rattle.qn_io.specs.Outside.{HasRisen};
ghost use Rattle.qn_io.specs.Writes.{AppendsFront};
ghost use Rattle.qn_model.specs.World.{World as WorldBefore};
ghost use Rattle.qn_status.specs.NodeStates.{node_state, node_states};
ghost use Rattle.qn_status.specs.StatusJson.{status_json};
ghost use Rattle.qn_status.specs.StatusText.{status_text};
ghost use Rattle.qn_world.specs.Standing.{WorldFor};

use crate::as_json::states_line;
use crate::node_state::NodeState;
use crate::text::write_lines;
use arrayvec::ArrayVec;
use qn_base::{Failed, Rank};
use qn_io::{Sink, put_all};
use qn_world::World;
use std::alloc::Global;

/// Why a status was not written.
#[derive(Clone, Copy, PartialEq, Eq)]
pub enum StatusFault {
    /// The sink failed; a prefix of the status was written.
    Failed,
    /// Out of memory; nothing was written.
    NoMemory,
}

/// Writes the status of a world as text, a line for each node. At `Failed` a prefix of it was written.
pub fn status_text<O: Sink>(world: &World, out: &mut O) -> Result<(), Failed>
    ensures whole { OnOk result ((d : WorldBefore) → WorldFor world.now d
        → O.written out.new ≡ append_known (O.written out.old) (status_text world.now.settings d)) }
    ensures front { OnErr result ((d : WorldBefore) → WorldFor world.now d
        → AppendsFront (O.written out.old) (O.written out.new) (status_text world.now.settings d)) }
    ensures never_falls { O.faults out.old ≤ O.faults out.new }
    ensures cause { OnErr result (HasRisen (O.faults out.old) (O.faults out.new)) }
{
    let nodes = node_states(world);
    write_lines(nodes.as_slice(), out)?;
    Ok(())
}

/// Writes the status of a world as one line of JSON. At `Failed` a prefix of it was written, at `NoMemory`
/// nothing.
pub fn status_json<O: Sink>(alloc: Global, world: &World, out: &mut O) -> Result<(), StatusFault>
    ensures whole { OnOk result ((d : WorldBefore) → WorldFor world.now d
        → O.written out.new ≡ append_known (O.written out.old) (status_json world.now.settings d)) }
    ensures front { IsErrOf result StatusFault.Failed → (d : WorldBefore) → WorldFor world.now d
        → AppendsFront (O.written out.old) (O.written out.new) (status_json world.now.settings d) }
    ensures wanted { IsErrOf result StatusFault.NoMemory → out.new ≡ out.old }
    ensures never_falls { O.faults out.old ≤ O.faults out.new }
    ensures cause { IsErrOf result StatusFault.Failed
        → HasRisen (O.faults out.old) (O.faults out.new) }
{
    let nodes = node_states(world);
    match states_line(alloc, nodes.as_slice()) {
        Ok(line) => match put_all(out, line.as_bytes()) {
            Ok(()) => Ok(()),
            Err(Failed) => Err(StatusFault::Failed),
        },
        Err(_) => Err(StatusFault::NoMemory),
    }
}

/// The nodes of a world in ascending id.
#[tactic(auto, unfolding(crate::specs::NodeStates::node_states))]
fn node_states(world: &World) -> ArrayVec<NodeState, 32>
    ensures { (d : WorldBefore) → WorldFor world.now d
        → result.items ≡ node_states world.now.settings d }
{
    let mut nodes = ArrayVec::new();
    'ranks: for rank in 0..world.settings().nodes.len() {
        nodes.push(node_state(world, Rank(rank as u8)));
    }
    nodes
}

/// The node of a rank.
fn node_state(world: &World, rank: Rank) -> NodeState
    requires { rank.0 < length world.now.settings.nodes }
    ensures { (d : WorldBefore) → WorldFor world.now d
        → result ≡ node_state world.now.settings d rank.0 }
{
    let seen = world.seen(rank);
    NodeState {
        id: world.settings().id_of(rank),
        phase: seen.phase,
        holds: seen.holds,
        answer: seen.answer,
        why: seen.why,
    }
}
