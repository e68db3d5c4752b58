//! Why a tree, or a text, gives no settings.
use crate::key::Key;
use qn_base::NodeId;
use qn_conf::ConfFault;
use thiserror::Error;

/// Why a tree gives no settings. The faults are tried in this order, and the first one is answered.
#[derive(Clone, Copy, PartialEq, Eq, Debug, Error)]
pub enum SettingsFault {
    /// `quorum.provider` is another one than corosync_votequorum.
    #[error("quorum.provider: the only provider is corosync_votequorum")]
    WrongProvider,
    /// The key asks for what this member does not do: it may only be 0.
    #[error("{key}: not supported, only 0 may stand here")]
    Unsupported { key: Key },
    /// A value of the key is no decimal number in its range.
    #[error("{key}: a value is no number in the range of the key")]
    BadNumber { key: Key },
    /// The node section at this place, from 1, has no nodeid.
    #[error("nodelist: node section {node} has no nodeid")]
    NoId { node: u64 },
    /// No node is configured.
    #[error("nodelist: there is no node section")]
    NoNodes,
    /// More than 32 nodes are configured.
    #[error("nodelist: there are more than 32 node sections")]
    TooManyNodes,
    /// Two nodes have this id, the least such id.
    #[error("nodelist: nodeid {} stands in two node sections", .id.0)]
    RepeatedId { id: NodeId },
    /// All nodes together have no vote.
    #[error("nodelist: the nodes have no vote")]
    NoVotes,
    /// `quorum.expected_votes` is 0.
    #[error("quorum.expected_votes: 0 votes cannot be expected")]
    ExpectedZero,
    /// two_node stands without exactly two nodes.
    #[error("quorum.two_node: there are not exactly two nodes")]
    TwoNodeCount,
    /// two_node stands with a node that has not exactly one vote.
    #[error("quorum.two_node: a node has not exactly 1 vote")]
    TwoNodeVotes,
    /// two_node stands with a device.
    #[error("quorum.two_node: there is a quorum device")]
    TwoNodeDevice,
    /// last_man_standing stands with this node, the least id, that has not exactly one vote.
    #[error("quorum.last_man_standing: node {} has not exactly 1 vote", .id.0)]
    LmsVotes { id: NodeId },
    /// auto_tie_breaker stands with a device.
    #[error("quorum.auto_tie_breaker: there is a quorum device")]
    TieDevice,
    /// auto_tie_breaker stands with two_node.
    #[error("quorum.auto_tie_breaker: two_node is on")]
    TieTwoNode,
    /// auto_tie_breaker stands with an `auto_tie_breaker_node` that is neither lowest nor highest nor a list of
    /// configured nodes, each once.
    #[error("quorum.auto_tie_breaker_node: neither lowest nor highest nor configured nodes, each once")]
    BadTieNode,
}

/// Why a text gives no settings.
#[derive(Clone, Copy, PartialEq, Eq, Debug, Error)]
pub enum TextFault {
    /// The text is no configuration, or there was no memory for it.
    #[error("{0}")]
    Conf(ConfFault),
    /// The text is a configuration, and gives no settings.
    #[error("{0}")]
    Settings(SettingsFault),
}
