//! The packets that nodes send to one another.
use qn_base::{Rank, Said, Standing, View};

/// A node asks another one, under its view, whether that one holds the resource. Incarnation and
/// install number are the asker's.
#[derive(Clone, Copy, PartialEq, Eq, Default, Debug)]
pub struct Ask {
    pub from: Rank,
    pub to: Rank,
    pub incarnation: u64,
    pub install: u64,
    pub view: View,
}

/// The answer to an [`Ask`], whose incarnation, install number and view it repeats: whether the node
/// that answers holds the resource, and whether it is released from wait_for_all.
#[derive(Clone, Copy, PartialEq, Eq, Default, Debug)]
pub struct Tell {
    pub from: Rank,
    pub to: Rank,
    pub incarnation: u64,
    pub install: u64,
    pub view: View,
    pub holds: bool,
    pub released: bool,
}

/// What nodes send to one another, and what the quorum device sends to its node.
#[derive(Clone, Copy, PartialEq, Eq, Debug)]
pub enum Packet {
    Ask(Ask),
    Tell(Tell),
    Hello {
        from: Rank,
    },
    Announce {
        from: Rank,
        view: View,
    },
    Vote {
        yes: bool,
    },
    /// A Hello that says whom its sender hears, whom it follows, and whether it is able, and what it says of itself.
    Heard {
        from: Rank,
        said: Said,
        standing: Standing,
    },
}

/// A packet that was sent, with its receiver.
#[derive(Clone, Copy, PartialEq, Eq)]
pub struct Sent {
    pub to: Rank,
    pub packet: Packet,
}
