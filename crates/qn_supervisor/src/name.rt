//! The first words of the lines of a supervisor.
ghost use Rattle.std.specs.Prelude.{◌≡◌};
ghost use Rattle.qn_supervisor.specs.LineNames.{line_name, name_word};

/// What the first word of a line says.
#[derive(Clone, Copy, PartialEq, Eq)]
pub(crate) enum LineName {
    Resource,
    Loop,
    Begin,
    Failed,
    Tick,
    Start,
    Stop,
    Move,
    Maintenance,
    Ended,
}

/// All first words.
const NAMES: [LineName; 10] = [
    LineName::Resource,
    LineName::Loop,
    LineName::Begin,
    LineName::Failed,
    LineName::Tick,
    LineName::Start,
    LineName::Stop,
    LineName::Move,
    LineName::Maintenance,
    LineName::Ended,
];

impl LineName {
    /// The word.
    pub(crate) fn word(self) -> &'static str
        ensures { result.now ≡ name_word self }
    {
        match self {
            LineName::Resource => "resource",
            LineName::Loop => "loop",
            LineName::Begin => "begin",
            LineName::Failed => "failed",
            LineName::Tick => "tick",
            LineName::Start => "start",
            LineName::Stop => "stop",
            LineName::Move => "move",
            LineName::Maintenance => "maintenance",
            LineName::Ended => "ended",
        }
    }
}

/// What a first word says; None where it names no line.
#[tactic(auto, unfolding(crate::specs::LineNames::line_name))]
pub(crate) fn line_name(word: &[u8]) -> Option<LineName>
    ensures { result ≡ line_name word.now }
{
    NAMES
        .iter()
        .copied()
        .find(|name| name.word().as_bytes() == word)
}
