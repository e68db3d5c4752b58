//! How the run of an arbiter ends.

/// How the run of an arbiter ends.
#[derive(Clone, Copy, PartialEq, Eq)]
pub enum ArbiterEnd {
    /// After its last turn.
    Turns,
    /// The clock went back.
    ClockBack { before: u64, now: u64 },
}
