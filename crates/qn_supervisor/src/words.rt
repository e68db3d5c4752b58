//! The words of the lines between a supervisor and the step of its resources.
ghost use Rattle.std.specs.Prelude.{◌≡◌, ◌≤◌, length};
ghost use Rattle.qn_supervisor.specs.Words.{answer_word, goal_word, outcome_named, outcome_word, phase_word, verb_named, verb_word, word_word};

use qn_group::{Answer, Goal, Outcome, Phase, Verb, Word};

/// What is done to a resource.
const VERBS: [Verb; 3] = [Verb::Start, Verb::Stop, Verb::Monitor];

/// How it ends.
const OUTCOMES: [Outcome; 5] = [
    Outcome::Done,
    Outcome::NotRunning,
    Outcome::Broken,
    Outcome::Hard,
    Outcome::Unknown,
];

/// The word of an action.
pub(crate) fn verb_word(verb: Verb) -> &'static str
    ensures word { result.now ≡ verb_word verb }
    ensures len { length result.now ≤ 11 }
{
    match verb {
        Verb::Start => "start",
        Verb::Stop => "stop",
        Verb::Monitor => "monitor",
    }
}

/// The action that a word names.
#[tactic(auto, unfolding(crate::specs::Words::verb_named))]
pub(crate) fn verb_named(word: &[u8]) -> Option<Verb>
    ensures { result ≡ verb_named word.now }
{
    VERBS
        .iter()
        .copied()
        .find(|verb| verb_word(*verb).as_bytes() == word)
}

/// The word of how an action ended.
fn outcome_word(outcome: Outcome) -> &'static str
    ensures { result.now ≡ outcome_word outcome }
{
    match outcome {
        Outcome::Done => "ok",
        Outcome::NotRunning => "not-running",
        Outcome::Broken => "broken",
        Outcome::Hard => "hard",
        Outcome::Unknown => "unknown",
    }
}

/// How an action ended by a word.
#[tactic(auto, unfolding(crate::specs::Words::outcome_named))]
pub(crate) fn outcome_named(word: &[u8]) -> Option<Outcome>
    ensures { result ≡ outcome_named word.now }
{
    OUTCOMES
        .iter()
        .copied()
        .find(|outcome| outcome_word(*outcome).as_bytes() == word)
}

/// The word of what an asker is answered.
pub(crate) fn answer_word(answer: Answer) -> &'static str
    ensures word { result.now ≡ answer_word answer }
    ensures len { length result.now ≤ 11 }
{
    match answer {
        Answer::Started | Answer::Stopped | Answer::Moves => "ok",
        Answer::Wait => "wait",
        Answer::Stuck => "stuck",
        Answer::Refused => "refused",
    }
}

/// The word of what is wanted of a group.
pub(crate) fn goal_word(goal: Goal) -> &'static str
    ensures word { result.now ≡ goal_word goal }
    ensures len { length result.now ≤ 11 }
{
    match goal {
        Goal::Rest => "rest",
        Goal::Run => "run",
        Goal::Restart { .. } => "restart",
        Goal::Leave => "leave",
    }
}

/// The word of a phase.
pub(crate) fn phase_word(phase: Phase) -> &'static str
    ensures word { result.now ≡ phase_word phase }
    ensures len { length result.now ≤ 11 }
{
    match phase {
        Phase::New => "new",
        Phase::Probing => "probing",
        Phase::Down => "down",
        Phase::Starting { .. } => "starting",
        Phase::Checking { .. } => "checking",
        Phase::Up { .. } => "up",
        Phase::Looking { .. } => "looking",
        Phase::Failed => "failed",
        Phase::Stopping => "stopping",
        Phase::Verifying { .. } => "verifying",
        Phase::Stuck => "stuck",
    }
}

/// The word of what is told of a group.
pub(crate) fn told_word(word: Word) -> &'static str
    ensures word { result.now ≡ word_word word }
    ensures len { length result.now ≤ 11 }
{
    match word {
        Word::Stuck => "stuck",
        Word::Stopping => "stopping",
        Word::Failed => "failed",
        Word::Starting => "starting",
        Word::Down => "down",
        Word::Looking => "looking",
        Word::Unsure => "unsure",
        Word::Maintenance => "maintenance",
        Word::Runs => "runs",
    }
}
