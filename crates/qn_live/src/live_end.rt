//! How a running node ends.
use qn_model::{Answer, BootCause, Message, Phase, Why};

/// How a running node ended.
#[derive(Clone, Copy, PartialEq, Eq)]
pub enum LiveEnd {
    /// The last turn was handled, and the node goes on: its phase, whether it holds the resource, the count of its votes
    /// and the first condition that blocks a start, each at the tick of the last turn.
    Turns {
        phase: Phase,
        holds: bool,
        answer: Answer,
        why: Why,
    },
    /// The node left the cluster and disarmed its watchdog; `clean` says whether its slot was written as clean.
    Left {
        clean: bool,
    },
    /// The clock went back: the tick of the turn before, and the one that followed.
    ClockBack {
        before: u64,
        now: u64,
    },
    /// The node read this deadly message in its mailbox.
    SelfReset(Message),
    /// A step of the boot halted it.
    BootHalted(BootCause),
}
