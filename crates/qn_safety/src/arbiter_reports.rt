//! What an event beside an arbiter came to.
use qn_model::Report;

/// What was sent at an event. Polls and replies ever sent are numbered from 0, each of the two by itself.
#[derive(Clone, Copy, PartialEq, Eq)]
pub enum Said {
    /// Nothing was sent between nodes and the arbiter.
    Nothing,
    /// The poll of this number was sent.
    Polled(u64),
    /// The reply of this number was sent, a yes or a no.
    Answered { number: u64, agrees: bool },
}

/// What an event came to.
#[derive(Drop)]
pub struct ArbiterReport {
    /// What it came to among the nodes. At an event of the arbiter no node is touched; at a poll nothing comes out of the
    /// node.
    pub report: Report,
    pub said: Said,
}
