//! The settings and times of a soak.
ghost use Rattle.std.specs.Prelude.{◌≡◌, true};
ghost use Rattle.qn_model.specs.Settings.{IsValid};
ghost use Rattle.qn_model.specs.Timing.{is_safe};
ghost use Rattle.qn_replay.specs.Generator.{node_of, soak_settings, soak_timing};

use qn_base::NodeId;
use qn_model::{NodeEntry, Nodes, Settings, Timing};

/// The settings of a soak: three nodes with the ids 1, 2 and 3 and one vote each, without flags.
pub(crate) fn soak_settings() -> Settings
    ensures value { result ≡ soak_settings }
    ensures valid { IsValid result }
{
    let mut nodes = Nodes::new();
    nodes.push(node_of(1));
    nodes.push(node_of(2));
    nodes.push(node_of(3));
    Settings {
        nodes,
        two_node: false,
        wait_for_all: false,
        last_man_standing: false,
        window: 10000,
        device: None,
        expected: 3,
        tie: None,
    }
}

fn node_of(id: u32) -> NodeEntry
    ensures { result ≡ node_of id }
{
    NodeEntry {
        id: NodeId(id),
        votes: 1,
        fence_delay: 0,
    }
}

/// The times of a soak: the usual ones.
pub(crate) fn soak_timing() -> Timing
    ensures value { result ≡ soak_timing }
    ensures safe { is_safe result ≡ true }
{
    Timing::usual()
}
