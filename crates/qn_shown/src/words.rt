//! The words of a status file that stand for a value.
ghost use Rattle.std.specs.Prelude.{◌≡◌};
ghost use Rattle.qn_shown.specs.Words.{answer_named, mail_named, phase_named};

use qn_model::{Message, Phase};

/// What the last read of the mailbox gave.
#[derive(Clone, Copy, PartialEq, Eq)]
pub enum MailState {
    /// A mailbox with this message.
    Holds(Message),
    /// A sector that is no mailbox.
    Damaged,
    /// A read that failed.
    Failed,
    /// Nothing: it was not read yet.
    Unread,
}

impl MailState {
    ghost use Rattle.std.specs.Prelude.{◌≡◌};
    ghost use Rattle.qn_shown.specs.Words.{mail_word};

    /// The word of the file: the message's name, `damaged`, `failed` or `unread`.
    pub fn name(self) -> &'static str
        ensures { result.now ≡ mail_word self }
    {
        match self {
            MailState::Holds(message) => message.name(),
            MailState::Damaged => "damaged",
            MailState::Failed => "failed",
            MailState::Unread => "unread",
        }
    }
}

/// What a mailbox held by that word.
pub(crate) fn mail_named(word: &str) -> Option<MailState>
    ensures { result ≡ mail_named word.now }
{
    match word {
        "empty" => Some(MailState::Holds(Message::Empty)),
        "test" => Some(MailState::Holds(Message::Test)),
        "reset" => Some(MailState::Holds(Message::Reset)),
        "off" => Some(MailState::Holds(Message::Off)),
        "exit" => Some(MailState::Holds(Message::Exit)),
        "crashdump" => Some(MailState::Holds(Message::Crashdump)),
        "damaged" => Some(MailState::Damaged),
        "failed" => Some(MailState::Failed),
        "unread" => Some(MailState::Unread),
        _ => None,
    }
}

/// The phase of that word.
pub(crate) fn phase_named(word: &str) -> Option<Phase>
    ensures { result ≡ phase_named word.now }
{
    match word {
        "booting" => Some(Phase::Booting),
        "up" => Some(Phase::Up),
        "leaving" => Some(Phase::Leaving),
        "dying" => Some(Phase::Dying),
        "off" => Some(Phase::Gone),
        _ => None,
    }
}

/// What the arbiter of a quorum device answered.
#[derive(Clone, Copy, PartialEq, Eq)]
pub enum DeviceAnswer {
    Yes,
    No,
    /// Nothing in this view, or nothing for the timeout of the device.
    Silent,
}

impl DeviceAnswer {
    ghost use Rattle.std.specs.Prelude.{◌≡◌};
    ghost use Rattle.qn_shown.specs.Words.{answer_word};

    /// The word of the file: `yes`, `no` or `none`.
    pub fn name(self) -> &'static str
        ensures { result.now ≡ answer_word self }
    {
        match self {
            DeviceAnswer::Yes => "yes",
            DeviceAnswer::No => "no",
            DeviceAnswer::Silent => "none",
        }
    }
}

/// The answer of that word.
pub(crate) fn answer_named(word: &str) -> Option<DeviceAnswer>
    ensures { result ≡ answer_named word.now }
{
    match word {
        "yes" => Some(DeviceAnswer::Yes),
        "no" => Some(DeviceAnswer::No),
        "none" => Some(DeviceAnswer::Silent),
        _ => None,
    }
}
