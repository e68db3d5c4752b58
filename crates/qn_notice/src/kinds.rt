//! The kinds of events.
use qn_base::{Rank, View};
use qn_model::{Answer, HaltKind, Phase, Why};

/// What is told of a running node.
#[derive(Clone, Copy, PartialEq, Eq, Default, Debug)]
pub enum Event {
    /// The phase changed.
    Phase { from: Phase, to: Phase },
    /// The claim of this incarnation was written.
    Claimed { incarnation: u64 },
    /// A view was installed: the view, and the count of its votes.
    View { view: View, answer: Answer },
    /// The node is released from wait_for_all.
    #[default]
    Released,
    /// The node became quorate, by this count.
    QuorumWon { answer: Answer },
    /// The node is quorate no more, by this count.
    QuorumLost { answer: Answer },
    /// Another condition than before blocks a start, or names another node, or a reset was written since. Where votes or the
    /// ticks of msgwait that remain alone changed, nothing is told.
    Why { why: Why },
    /// A reset is written next to the mailbox of this node.
    FenceAsked { of: Rank },
    /// The write of a reset to the mailbox of this node was answered.
    FenceWritten { of: Rank, ok: bool },
    /// The slot of this node, which is outside the view, was read as clean: it needs no reset.
    Licence { of: Rank },
    /// The resource is started next.
    StartAsked,
    /// The resource is stopped next.
    StopAsked,
    /// The agent answered the start.
    StartAnswered { ok: bool },
    /// The agent answered the stop.
    StopAnswered { ok: bool },
    /// The watchdog was disarmed, or could not be.
    DisarmAnswered { ok: bool },
    /// The node holds the resource from now on.
    HoldWon,
    /// The node holds the resource no more.
    HoldLost,
    /// The node halts next.
    Halt { kind: HaltKind },
}
