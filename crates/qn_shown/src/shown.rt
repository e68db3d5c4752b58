//! What a node shows of itself (docs/STATUS.md).
use crate::group::Group;
use crate::short_string::ShortString;
use crate::words::{DeviceAnswer, MailState};
use arrayvec::ArrayVec;
use qn_base::NodeId;
use qn_model::{Answer, Phase};

/// What a running node shows of itself, which is all that a reader without a call on the node knows of it.
#[derive(Drop)]
pub struct Shown {
    /// The count of its votes.
    pub answer: Answer,
    /// What it heard of the arbiter of its quorum device; None where it polls none.
    pub arbiter: Option<Arbiter>,
    pub counts: Counts,
    /// The line with which the node ended; None while it runs.
    pub end: Option<ShortString>,
    /// How the group of resources of its host is.
    pub group: Group,
    /// For how many milliseconds it holds; None where it does not, or the file does not say.
    pub held_ms: Option<u64>,
    /// Whether it holds the resource.
    pub holds: bool,
    pub id: NodeId,
    /// On how many of three images it runs; None where it has one image, or runs on all three.
    pub images: Option<u64>,
    /// The number of its boot; None before it is claimed.
    pub incarnation: Option<u64>,
    /// The loop in milliseconds, up to an hour; 0 before the header of the image is read.
    pub loop_ms: u32,
    pub mailbox: Mailbox,
    /// Its name, of at most 63 bytes; None where the file has none.
    pub name: Option<ShortString>,
    /// The other configured nodes.
    pub peers: ArrayVec<Peer, 32>,
    pub phase: Phase,
    pub pid: u64,
    /// What its own host says of it; None where that says nothing.
    pub standing: Option<HostStanding>,
    /// The time of the last thing that the node was handed, in milliseconds of its host's monotonic clock.
    pub tick: u64,
    /// The wall clock then, in milliseconds since 1970.
    pub time_ms: u64,
    /// The view; None before there was one.
    pub view: Option<ShownView>,
    /// The first condition that blocks a start.
    pub why: ShortString,
}

/// What a node counted of what failed.
#[derive(Clone, Copy)]
pub struct Counts {
    /// Lines for which standard error had no room.
    pub dropped: u64,
    /// Feeds that came too late.
    pub late: u64,
    /// Packets that were none.
    pub refused: u64,
    /// Writes of the status file that failed.
    pub unwritten: u64,
}

/// What the last read of the mailbox gave.
#[derive(Clone, Copy)]
pub struct Mailbox {
    pub state: MailState,
    /// The node that sent the message; None of an operator, and where there is none.
    pub by: Option<NodeId>,
    /// The tick of the read; None before there was one.
    pub tick: Option<u64>,
}

/// What a node heard of the arbiter that it polls.
#[derive(Drop)]
pub struct Arbiter {
    /// Its address and port; None where it has none.
    pub address: Option<ShortString>,
    /// For how many milliseconds no answer came.
    pub age_ms: u64,
    pub answer: DeviceAnswer,
    /// How often it answered no.
    pub no: u64,
    /// How often it was polled.
    pub polls: u64,
    /// How many packets came from its address that no key opened.
    pub refused: u64,
    /// How often it answered yes.
    pub yes: u64,
}

/// What the host of a node says of it: its words of whether the node is to run the resource.
#[derive(Clone, Copy)]
pub struct HostStanding {
    /// Whether it can run the resource.
    pub fit: bool,
    /// Whether the resource is to be moved to it.
    pub pull: bool,
    /// Whether it is not to run the resource.
    pub standby: bool,
    /// How gladly it is chosen, from 0 to 254.
    pub weight: u8,
}

/// A view: its number, and the nodes that are counted as present.
#[derive(Drop)]
pub struct ShownView {
    pub candidate: Candidate,
    pub id: u64,
    pub members: ArrayVec<NodeId, 32>,
}

/// Whom a view names as the one that may start.
#[derive(Clone, Copy)]
pub enum Candidate {
    /// The file does not say.
    Unsaid,
    /// Nobody in particular: the member of least id may.
    Unnamed,
    /// None may.
    Nobody,
    /// This node.
    Named(NodeId),
}

/// Another configured node.
#[derive(Default, Drop)]
pub struct Peer {
    /// The tick of its last Hello; None where none came.
    pub hello_tick: Option<u64>,
    pub id: NodeId,
    /// Its name, of at most 63 bytes; None where the file has none.
    pub name: Option<ShortString>,
    /// The number of the network over which nothing comes from it any more, while something comes over another one; None where there is none.
    pub network_down: Option<u64>,
    /// How many packets came from its address that no key opened; None where the file does not say.
    pub refused: Option<u64>,
    /// What it told of itself last.
    pub told: Heard,
}

/// What was heard of what a node tells of itself.
#[derive(Clone, Copy, Default)]
pub enum Heard {
    /// The file does not say: it is of a program that tells nothing.
    #[default]
    Unsaid,
    /// It told nothing.
    Nothing,
    /// What it told last, and the tick at which that came.
    Said(Told, u64),
}

/// What a node tells of itself.
#[derive(Clone, Copy)]
pub struct Told {
    pub group: Group,
    /// For how many milliseconds it holds; 0 where it does not.
    pub held_ms: u64,
    pub holds: bool,
    /// The number of its boot.
    pub incarnation: u64,
    /// Whether it leaves.
    pub leaving: bool,
    pub quorate: bool,
}
