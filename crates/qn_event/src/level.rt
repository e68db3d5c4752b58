//! How severe a line is.

/// The level of a line, by the names and numbers of syslog(3).
#[derive(Clone, Copy, PartialEq, Eq)]
pub enum Level {
    Error,
    Warning,
    Notice,
    Information,
}

impl Level {
    ghost use Rattle.std.specs.Prelude.{◌≡◌, ◌≤◌};
    ghost use Rattle.qn_event.specs.EventLines.{level_number};

    /// Its number, 3 to 6: the lower, the more severe.
    pub fn number(self) -> u8
        ensures value { result ≡ level_number self }
        ensures digit { result ≤ 9 }
    {
        match self {
            Level::Error => 3,
            Level::Warning => 4,
            Level::Notice => 5,
            Level::Information => 6,
        }
    }
}
