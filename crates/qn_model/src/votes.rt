//! Vote lists: what bears on the votes of a node, and the answer of a count.
use qn_base::View;

/// An entry of a vote list: what a node heard that bears on its quorum, and at which tick, in
/// milliseconds.
#[derive(Clone, Copy, PartialEq, Eq)]
pub struct VoteEntry {
    pub tick: u64,
    pub what: VoteWhat,
}

/// What bears on quorum: a view was installed, the device answered, another node's word released this
/// one from wait_for_all, or time alone passed.
#[derive(Clone, Copy, PartialEq, Eq)]
pub enum VoteWhat {
    View(View),
    Device(bool),
    Released,
    Tick,
}

/// The count of a node at a tick: whether it is quorate, the votes of its view with the device's (0
/// without a view), the quorum, the expected votes, and whether it is released from wait_for_all.
#[derive(Clone, Copy, PartialEq, Eq, Debug)]
pub struct Answer {
    pub votes: u64,
    pub quorum: u64,
    pub expected: u64,
    pub quorate: bool,
    pub released: bool,
}
