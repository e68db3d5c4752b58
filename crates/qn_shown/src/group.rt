//! How the group of resources is that a node's host looks after.

/// How the group of a host is: what its supervisor says of it (docs/STATUS.md).
#[derive(Clone, Copy, PartialEq, Eq)]
pub enum Group {
    /// There is none: the resource is a file, or has an agent of its own.
    NoGroup,
    /// All are stopped.
    Down,
    /// The supervisor looks at one for the first time.
    Looking,
    Starting,
    /// All run.
    Runs,
    /// All run as far as is known, and a monitor did not answer.
    Unsure,
    Stopping,
    /// One failed, and is stopped before it is started again.
    Failed,
    /// One cannot be stopped.
    Stuck,
    /// All run, and nothing is started, stopped or counted.
    Maintenance,
    /// Nothing looks after it: its supervisor says nothing.
    Unattended,
}

impl Group {
    ghost use Rattle.std.specs.Prelude.{◌≡◌};
    ghost use Rattle.qn_shown.specs.Groups.{group_named, group_number, group_of, group_word, is_fine};

    /// Its number, from 0 to 10, in a status file and in a packet.
    pub fn number(self) -> u8
        ensures { result ≡ group_number self }
    {
        match self {
            Group::NoGroup => 0,
            Group::Down => 1,
            Group::Looking => 2,
            Group::Starting => 3,
            Group::Runs => 4,
            Group::Unsure => 5,
            Group::Stopping => 6,
            Group::Failed => 7,
            Group::Stuck => 8,
            Group::Maintenance => 9,
            Group::Unattended => 10,
        }
    }

    /// The group of a number; None above 10.
    pub fn of_number(number: u64) -> Option<Group>
        ensures { result ≡ group_of number }
    {
        match number {
            0 => Some(Group::NoGroup),
            1 => Some(Group::Down),
            2 => Some(Group::Looking),
            3 => Some(Group::Starting),
            4 => Some(Group::Runs),
            5 => Some(Group::Unsure),
            6 => Some(Group::Stopping),
            7 => Some(Group::Failed),
            8 => Some(Group::Stuck),
            9 => Some(Group::Maintenance),
            10 => Some(Group::Unattended),
            _ => None,
        }
    }

    /// The word of its supervisor; `none` and `unattended` where there is no such word.
    pub fn name(self) -> &'static str
        ensures { result.now ≡ group_word self }
    {
        match self {
            Group::NoGroup => "none",
            Group::Down => "down",
            Group::Looking => "looking",
            Group::Starting => "starting",
            Group::Runs => "runs",
            Group::Unsure => "unsure",
            Group::Stopping => "stopping",
            Group::Failed => "failed",
            Group::Stuck => "stuck",
            Group::Maintenance => "maintenance",
            Group::Unattended => "unattended",
        }
    }

    /// The group that a supervisor calls so; None where it is no word of a supervisor.
    pub fn of_name(word: &str) -> Option<Group>
        ensures { result ≡ group_named word.now }
    {
        match word {
            "down" => Some(Group::Down),
            "looking" => Some(Group::Looking),
            "starting" => Some(Group::Starting),
            "runs" => Some(Group::Runs),
            "unsure" => Some(Group::Unsure),
            "stopping" => Some(Group::Stopping),
            "failed" => Some(Group::Failed),
            "stuck" => Some(Group::Stuck),
            "maintenance" => Some(Group::Maintenance),
            _ => None,
        }
    }

    /// Whether the group is as it should be where its node holds.
    pub fn is_fine(self) -> bool
        ensures { result ≡ is_fine self }
    {
        match self {
            Group::NoGroup | Group::Runs | Group::Unsure | Group::Maintenance => true,
            Group::Down
            | Group::Looking
            | Group::Starting
            | Group::Stopping
            | Group::Failed
            | Group::Stuck
            | Group::Unattended => false,
        }
    }
}
