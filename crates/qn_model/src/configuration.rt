//! The settings of a cluster, and the quorum for a number of expected votes.
use crate::nodelist::Nodes;
use crate::order::Order;
use qn_base::{NodeId, Rank};

/// The quorum device: its votes, and for how many milliseconds a yes of it counts
/// (corosync.conf(5), `quorum`, `device`).
#[derive(Clone, Copy, PartialEq, Eq)]
pub struct Device {
    pub votes: u32,
    pub timeout: u64,
}

/// The settings of a cluster, as corosync.conf gives them: the nodes in ascending id, the flags of
/// votequorum(5), the window of last man standing in milliseconds, the device, the expected votes at the
/// start, and where `auto_tie_breaker` is on the nodes in order of preference. `specs/Settings` says when
/// they are valid.
#[derive(Drop)]
pub struct Settings {
    pub nodes: Nodes,
    pub two_node: bool,
    pub wait_for_all: bool,
    pub last_man_standing: bool,
    pub window: u64,
    pub device: Option<Device>,
    pub expected: u64,
    pub tie: Option<Order>,
}

impl Settings {
    ghost use Rattle.std.specs.Prelude.{◌≡◌, ◌<◌, ◌≤◌, length};
    ghost use Rattle.qn_model.specs.Settings.{IsValid};
    ghost use Rattle.qn_model.specs.Unmet.{id_of};
    ghost use Rattle.qn_model.specs.Votes.{quorum_of};

    /// Equal settings.
    pub fn copy(&self) -> Self
        ensures { result ≡ self.now }
    {
        Settings {
            nodes: self.nodes.copy(),
            two_node: self.two_node,
            wait_for_all: self.wait_for_all,
            last_man_standing: self.last_man_standing,
            window: self.window,
            device: self.device,
            expected: self.expected,
            tie: self.tie.as_ref().map(Order::copy),
        }
    }

    /// The id of a rank, 0 where it is not configured.
    pub fn id_of(&self, rank: Rank) -> NodeId
        ensures id { result ≡ id_of self.now rank.0 }
        ensures from_one { IsValid self.now → rank.0 < length self.now.nodes → 1 ≤ result.0 }
        ensures few { rank.0 < length self.now.nodes → rank.0 < 32 }
    {
        self.nodes.id_of(rank)
    }

    /// The votes that are needed where `expected` votes are expected: 1 with two_node, else more than half
    /// (votequorum(5), "OVERVIEW" and "two_node").
    pub fn quorum(&self, expected: u64) -> u64
        ensures { result ≡ quorum_of self.now expected }
    {
        if self.two_node { 1 } else { expected / 2 + 1 }
    }
}
