//! Ends of spans of time, which can lie after the last tick that there is.

/// The end of a span of time that begins at a tick. A span can end after the last tick that there is.
#[derive(Clone, Copy)]
pub enum Deadline {
    At(u64),
    Never,
}

impl Deadline {
    ghost use Rattle.std.specs.Prelude.{◌≡◌, ◌+◌};
    ghost use Rattle.qn_quorum.specs.Deadline.{deadline_at, is_reached};

    /// The end of a span that begins at that tick.
    pub fn after(tick: u64, span: u64) -> Self
        ensures { result ≡ deadline_at (tick + span) }
    {
        match tick.checked_add(span) {
            Some(end) => Deadline::At(end),
            None => Deadline::Never,
        }
    }

    /// Whether the span is over at that tick.
    pub fn is_reached(self, now: u64) -> bool
        ensures { result ≡ is_reached self now }
    {
        match self {
            Deadline::At(end) => end <= now,
            Deadline::Never => false,
        }
    }
}
