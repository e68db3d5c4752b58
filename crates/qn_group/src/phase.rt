//! What is known of one resource, and what the end of an action on it says.
ghost use Rattle.std.specs.Prelude.{◌≡◌, ◌≤◌, ◌*◌, ◌⊎◌};
ghost use Rattle.qn_group.specs.Phases.{stage_after_end, stage_of};

/// The most resources of a group.
pub const MOST: usize = 16;

/// The least time after which a stop that nobody asks for any more is forgotten, in milliseconds.
const LEAST_FORGETTING: u64 = 10_000;

/// What is done to a resource.
#[derive(Clone, Copy, PartialEq, Eq)]
pub enum Verb {
    Start,
    Stop,
    Monitor,
}

/// How an action ended.
#[derive(Clone, Copy, PartialEq, Eq)]
pub enum Outcome {
    /// It is done; of a monitor: it runs.
    Done,
    /// A monitor says that it does not run.
    NotRunning,
    /// It failed.
    Broken,
    /// It failed, and another try is in vain.
    Hard,
    /// Nothing is known: no answer in time, or none that says anything.
    Unknown,
}

/// What is told of a resource, and of a group.
#[derive(Clone, Copy, PartialEq, Eq)]
pub enum Word {
    /// A stop failed, or nothing says that it is down.
    Stuck,
    Stopping,
    /// It does not run as it should.
    Failed,
    Starting,
    Down,
    /// Nothing is known yet.
    Looking,
    /// It ran, and its monitor does not know.
    Unsure,
    /// An operator sees to it: nothing is started.
    Maintenance,
    Runs,
}

/// The times of a resource in milliseconds.
#[derive(Clone, Copy)]
pub struct Rule {
    /// How often it is looked at, and how long it may stay unsure.
    pub interval: u64,
    pub patience: u64,
    /// How long a start is checked (0: without end), and a stop verified.
    pub check: u64,
    pub stop: u64,
    /// After how many failures within how long the next one ends in a leave (8 of each resource are remembered).
    pub limit: usize,
    pub window: u64,
}

/// The times of a group.
#[derive(Clone, Copy)]
pub struct Rules {
    /// After how many milliseconds without another asking a stop is forgotten.
    pub forgetting: u64,
    pub resources: [Rule; MOST],
}

/// After how many milliseconds without another asking a stop is forgotten, where the node asks once a loop of so many milliseconds: three loops, and at least ten seconds.
pub fn forgetting_of(turn: u32) -> u64
    ensures loops { 3 * turn ≤ result }
    ensures least { 10000 ≤ result }
    ensures one { (result ≡ 3 * turn) ⊎ (result ≡ 10000) }
{
    LEAST_FORGETTING.max(3 * turn as u64)
}

/// What is known of a resource.
#[derive(Clone, Copy, PartialEq, Eq)]
pub enum Phase {
    New,
    Probing,
    Down,
    Starting {
        killed: bool,
    },
    Checking {
        since: u64,
        stopped: bool,
        asked: bool,
        killed: bool,
    },
    Up {
        since: u64,
        unsure: Option<u64>,
    },
    Looking {
        unsure: Option<u64>,
        killed: bool,
    },
    Failed,
    Stopping,
    Verifying {
        since: u64,
        asked: bool,
    },
    Stuck,
}

impl Phase {
    ghost use Rattle.std.specs.Prelude.{◌≡◌};
    ghost use Rattle.qn_group.specs.Phases.{is_down, is_up};
    ghost use Rattle.qn_group.specs.Told.{word_of};

    /// Whether nothing of it runs, by a monitor's word.
    pub fn is_down(self) -> bool
        ensures { result ≡ is_down self }
    {
        matches!(self, Phase::Down)
    }

    /// Whether it runs, or is only looked at.
    pub fn is_up(self) -> bool
        ensures { result ≡ is_up self }
    {
        matches!(self, Phase::Up { .. } | Phase::Looking { .. })
    }

    /// What is told of a group for a resource in this phase.
    pub fn word(self) -> Word
        ensures { result ≡ word_of self }
    {
        match self {
            Phase::New | Phase::Probing => Word::Looking,
            Phase::Down => Word::Down,
            Phase::Starting { .. } | Phase::Checking { .. } => Word::Starting,
            Phase::Up { unsure, .. } | Phase::Looking { unsure, .. } => match unsure {
                Some(_) => Word::Unsure,
                None => Word::Runs,
            },
            Phase::Failed => Word::Failed,
            Phase::Stopping | Phase::Verifying { .. } => Word::Stopping,
            Phase::Stuck => Word::Stuck,
        }
    }
}

/// Whether a monitor that did not say "runs" leaves a running resource as it is, unsure since then.
fn is_borne(rule: Rule, now: u64, unsure: Option<u64>, outcome: Outcome) -> bool {
    match (outcome, unsure) {
        (Outcome::Unknown, None) => true,
        (Outcome::Unknown, Some(since)) => now.saturating_sub(since) < rule.patience,
        _ => false,
    }
}

/// The phase after a monitor of it ended.
fn looked(rule: Rule, hands_off: bool, now: u64, before: Phase, outcome: Outcome) -> Phase
    ensures { stage_of result ≡ stage_after_end Verb.Monitor outcome (stage_of before) }
{
    match before {
        Phase::Probing => match outcome {
            Outcome::NotRunning => Phase::Down,
            Outcome::Done => Phase::Up {
                since: now,
                unsure: None,
            },
            Outcome::Unknown => Phase::Up {
                since: now,
                unsure: Some(now),
            },
            Outcome::Broken | Outcome::Hard => Phase::Failed,
        },
        Phase::Checking { killed: true, .. } | Phase::Looking { killed: true, .. } => Phase::Failed,
        Phase::Looking { unsure, .. } => match outcome {
            Outcome::Done => Phase::Up {
                since: now,
                unsure: None,
            },
            _ if hands_off => Phase::Up { since: now, unsure },
            _ if is_borne(rule, now, unsure, outcome) => Phase::Up {
                since: now,
                unsure: Some(unsure.unwrap_or(now)),
            },
            _ => Phase::Failed,
        },
        Phase::Checking { asked: false, .. } | Phase::Verifying { asked: false, .. } => before,
        Phase::Checking { since, stopped, .. } => match outcome {
            Outcome::Done => Phase::Up {
                since: now,
                unsure: None,
            },
            Outcome::NotRunning if stopped => Phase::Failed,
            Outcome::Hard => Phase::Failed,
            _ if rule.check > 0 && now.saturating_sub(since) >= rule.check => Phase::Failed,
            _ => Phase::Checking {
                since,
                stopped: matches!(outcome, Outcome::NotRunning),
                asked: false,
                killed: false,
            },
        },
        Phase::Verifying { since, .. } => match outcome {
            Outcome::NotRunning => Phase::Down,
            _ if now.saturating_sub(since) >= rule.stop => Phase::Stuck,
            _ => Phase::Verifying {
                since,
                asked: false,
            },
        },
        _ => before,
    }
}

/// The phase after an action on it ended. What fits no action that is under way changes nothing.
pub fn after_end(
    rule: Rule,
    hands_off: bool,
    now: u64,
    before: Phase,
    verb: Verb,
    outcome: Outcome,
) -> Phase
    ensures { stage_of result ≡ stage_after_end verb outcome (stage_of before) }
{
    match (verb, before) {
        (Verb::Start, Phase::Starting { killed: true }) => Phase::Failed,
        (Verb::Start, Phase::Starting { .. }) => match outcome {
            Outcome::Done => Phase::Checking {
                since: now,
                stopped: false,
                asked: false,
                killed: false,
            },
            _ => Phase::Failed,
        },
        (Verb::Stop, Phase::Stopping) => match outcome {
            Outcome::Done => Phase::Verifying {
                since: now,
                asked: false,
            },
            _ => Phase::Stuck,
        },
        (Verb::Monitor, _) => looked(rule, hands_off, now, before, outcome),
        _ => before,
    }
}
