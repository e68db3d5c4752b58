//! What a node was handed, of which more is told than its events.
use qn_model::{HeaderSeen, MailSeen, What};

/// What of an entry more is told of.
#[derive(Clone, Copy)]
pub enum Entered {
    /// The header of an image, with its msgwait in milliseconds.
    Header(u64),
    /// A read of the node's mailbox.
    Mail(MailSeen),
    View,
    /// The answer of the arbiter.
    Device(bool),
    /// The answer of a stop: whether it succeeded.
    Stopped(bool),
    Nothing,
}

impl Entered {
    ghost use Rattle.std.specs.Prelude.{◌≡◌};
    ghost use Rattle.qn_told.specs.Entries.{entered};

    /// That of an entry.
    pub fn of(entry: What) -> Entered
        ensures { result ≡ entered entry }
    {
        match entry {
            What::Header(HeaderSeen::Read { timing, .. }) => Entered::Header(timing.msgwait),
            What::MailChecked(seen) | What::MailRead(seen) => Entered::Mail(seen),
            What::View(_) => Entered::View,
            What::Device(agrees) => Entered::Device(agrees),
            What::Stopped(ok) => Entered::Stopped(ok),
            What::Begin
            | What::BeginClean
            | What::Header(HeaderSeen::NotImage | HeaderSeen::Failed)
            | What::SlotRead(..)
            | What::Claimed(_)
            | What::Cleared(_)
            | What::MailWritten(..)
            | What::Ask(_)
            | What::Tell(_)
            | What::Tick
            | What::Leave
            | What::Closed(_) => Entered::Nothing,
        }
    }
}
