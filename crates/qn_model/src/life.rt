//! The phases of a node, and the conditions that block a start.
use qn_base::NodeId;

/// Where a node is in its life (this project's profile).
#[derive(Clone, Copy, PartialEq, Eq, Debug)]
pub enum Phase {
    /// The boot is under way.
    Booting,
    /// The node counts votes, fences, and may start the resource.
    Up,
    /// The node stops the resource, marks its slot as clean, and ends.
    Leaving,
    /// A deadly message was read; the node waits for its end and does nothing any more.
    Dying,
    /// The node has ended.
    Gone,
}

/// The first condition that blocks a start of the resource.
#[derive(Clone, Copy, PartialEq, Eq, Debug)]
pub enum Why {
    /// The node is not up.
    Down,
    /// The node holds the resource already.
    Holding,
    /// No view was installed.
    NoView,
    /// The node is not released from wait_for_all.
    WaitForAll,
    NotQuorate {
        votes: u64,
        quorum: u64,
    },
    /// Another node of the view is the one that may start: its id.
    NotChosen {
        id: NodeId,
    },
    /// The least member that says that it holds the resource.
    HeldBy {
        id: NodeId,
    },
    /// The least member that did not answer.
    Unheard {
        id: NodeId,
    },
    /// The least node outside the view that is neither cleanly stopped nor fenced; whether a reset was
    /// written to it, and then the ticks of msgwait that remain, else 0.
    Unfenced {
        id: NodeId,
        written: bool,
        left: u64,
    },
    /// No condition blocks a start.
    Clear,
}
