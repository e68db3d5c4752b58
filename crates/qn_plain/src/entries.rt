//! What a single entry is: a begin, a step of the boot, a read, an answer.
ghost use Rattle.std.specs.Prelude.{◌≡◌};
ghost use Rattle.qn_model.specs.Holding.{is_stopped};
ghost use Rattle.qn_model.specs.Log.{is_clean_begin, number_read, times_of};
ghost use Rattle.qn_model.specs.NodeOutputs.{feeds_on, is_begin, is_boot_step};
ghost use Rattle.qn_model.specs.Phases.{deadly_of, gives_exit, message_of};

use qn_model::{HeaderSeen, MailSeen, Message, SlotSeen, Timing, What};

/// Whether an entry begins the boot.
pub fn is_begin(what: What) -> bool
    ensures { result ≡ is_begin what }
{
    matches!(what, What::Begin) || is_clean_begin(what)
}

/// Whether an entry is a step of the boot.
pub fn is_boot_step(what: What) -> bool
    ensures { result ≡ is_boot_step what }
{
    match what {
        What::Begin
        | What::BeginClean
        | What::Header(_)
        | What::SlotRead(..)
        | What::MailChecked(_)
        | What::Claimed(_)
        | What::Cleared(_) => true,
        What::MailRead(_)
        | What::MailWritten(..)
        | What::View(_)
        | What::Ask(_)
        | What::Tell(_)
        | What::Device(_)
        | What::Tick
        | What::Stopped(_)
        | What::Leave
        | What::Closed(_) => false,
    }
}

/// Whether an entry is a stop that succeeded.
pub fn is_stopped(what: What) -> bool
    ensures { result ≡ is_stopped what }
{
    matches!(what, What::Stopped(true))
}

/// Whether an entry begins a clean start.
pub fn is_clean_begin(what: What) -> bool
    ensures { result ≡ is_clean_begin what }
{
    matches!(what, What::BeginClean)
}

/// The incarnation that an entry read in a slot.
pub fn number_read(what: What) -> Option<u64>
    ensures { result ≡ number_read what }
{
    match what {
        What::SlotRead(_, SlotSeen::Read(slot)) => Some(slot.incarnation),
        _ => None,
    }
}

/// The times of the header that an entry is a read of.
pub fn times_of(what: What) -> Option<Timing>
    ensures { result ≡ times_of what }
{
    match what {
        What::Header(HeaderSeen::Read { timing, .. }) => Some(timing),
        _ => None,
    }
}

/// The message that an entry read in the own mailbox.
pub fn message_of(what: What) -> Option<Message>
    ensures { result ≡ message_of what }
{
    match what {
        What::MailRead(MailSeen::Read(message)) => Some(message),
        _ => None,
    }
}

/// The message, where it is deadly.
pub fn deadly_of(message: Option<Message>) -> Option<Message>
    ensures { result ≡ deadly_of message }
{
    message.filter(|m| m.is_deadly())
}

/// Whether a message feeds the watchdog, where it came in time (sbd(8), `watch`).
pub fn feeds_on(message: Option<Message>) -> bool
    ensures { result ≡ feeds_on message }
{
    message.is_some_and(|m| !m.is_deadly())
}

/// Whether a message makes the node leave, where it came in time.
pub fn gives_exit(message: Option<Message>) -> bool
    ensures { result ≡ gives_exit message }
{
    matches!(message, Some(Message::Exit))
}
