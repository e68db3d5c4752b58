//! The phases of a node and the causes that halt its boot.
ghost use Rattle.std.specs.Prelude.{◌≡◌};
ghost use Rattle.qn_model.specs.Phases.{boot_halt, boot_phase, check_halt, header_halt, is_booting, is_leaving, is_live, is_up, mail_phase, next_phase, slot_halt, starts_clean_on};

use crate::entries::{deadly_of, gives_exit, message_of};
use qn_model::{
    BootCause, HeaderSeen, MailSeen, Message, Phase, Settings, SlotSeen, What, timing_safe,
};

/// Whether the node counts votes, fences, and may start the resource.
pub fn is_up(phase: Phase) -> bool
    ensures { result ≡ is_up phase }
{
    matches!(phase, Phase::Up)
}

/// Whether the node is on its way out.
pub fn is_leaving(phase: Phase) -> bool
    ensures { result ≡ is_leaving phase }
{
    matches!(phase, Phase::Leaving)
}

/// Whether the boot is under way.
pub fn is_booting(phase: Phase) -> bool
    ensures { result ≡ is_booting phase }
{
    matches!(phase, Phase::Booting)
}

/// Whether the node takes part in the cluster.
pub fn is_live(phase: Phase) -> bool
    ensures { result ≡ is_live phase }
{
    matches!(phase, Phase::Up | Phase::Leaving)
}

/// Why a step of the boot halts it.
pub fn boot_halt(settings: &Settings, what: What) -> Option<BootCause>
    ensures { result ≡ boot_halt settings.now what }
{
    match what {
        What::Header(seen) => header_halt(settings, seen),
        What::SlotRead(_, seen) => slot_halt(seen),
        What::MailChecked(seen) => check_halt(seen),
        What::Claimed(false) => Some(BootCause::ClaimFailed),
        What::Cleared(false) => Some(BootCause::ClearFailed),
        What::Claimed(true) | What::Cleared(true) => None,
        What::Begin
        | What::BeginClean
        | What::MailRead(_)
        | What::MailWritten(..)
        | What::View(_)
        | What::Ask(_)
        | What::Tell(_)
        | What::Device(_)
        | What::Tick
        | What::Stopped(_)
        | What::Leave
        | What::Closed(_) => None,
    }
}

/// Why a read of the header halts the boot: another node count comes before the times.
fn header_halt(settings: &Settings, seen: HeaderSeen) -> Option<BootCause>
    ensures { result ≡ header_halt settings.now seen }
{
    match seen {
        HeaderSeen::Failed => Some(BootCause::ReadFailed),
        HeaderSeen::NotImage => Some(BootCause::NotImage),
        HeaderSeen::Read { nodes, timing } => {
            if nodes as usize != settings.nodes.len() {
                Some(BootCause::NotImage)
            } else if timing_safe(&timing) {
                None
            } else {
                Some(BootCause::UnsafeTiming)
            }
        }
    }
}

/// Why a read of the own slot halts the boot.
fn slot_halt(seen: SlotSeen) -> Option<BootCause>
    ensures { result ≡ slot_halt seen }
{
    match seen {
        SlotSeen::Failed => Some(BootCause::ReadFailed),
        SlotSeen::Damaged => Some(BootCause::NotImage),
        SlotSeen::Read(own) if own.incarnation < u64::MAX => None,
        SlotSeen::Read(_) => Some(BootCause::IncarnationSpent),
    }
}

/// Why a check of the own mailbox halts the boot.
fn check_halt(seen: MailSeen) -> Option<BootCause>
    ensures { result ≡ check_halt seen }
{
    match seen {
        MailSeen::Failed => Some(BootCause::ReadFailed),
        MailSeen::Damaged => Some(BootCause::NotImage),
        MailSeen::Read(message) if starts_clean_on(message) => None,
        MailSeen::Read(_) => Some(BootCause::NotClean),
    }
}

/// Whether a clean start goes on where the own mailbox holds that message (sbd(8), `-S`).
fn starts_clean_on(message: Message) -> bool
    ensures { result ≡ starts_clean_on message }
{
    match message {
        Message::Empty | Message::Exit => true,
        Message::Test | Message::Reset | Message::Off | Message::Crashdump => false,
    }
}

/// The phase after an entry, by the phase before it and whether the entry is in time.
pub fn next_phase(settings: &Settings, what: What, timely: bool, before: Phase) -> Phase
    ensures { result ≡ next_phase settings.now what timely before }
{
    match what {
        What::Begin | What::BeginClean => Phase::Booting,
        What::Header(seen) => boot_phase(header_halt(settings, seen), before),
        What::SlotRead(_, seen) if is_booting(before) => boot_phase(slot_halt(seen), before),
        What::MailChecked(seen) => boot_phase(check_halt(seen), before),
        What::Claimed(false) | What::Cleared(false) => Phase::Gone,
        What::Cleared(true) => Phase::Up,
        What::MailRead(_) => mail_phase(message_of(what), timely, before),
        What::Leave => Phase::Leaving,
        What::Closed(_) => Phase::Gone,
        What::SlotRead(..)
        | What::Claimed(true)
        | What::MailWritten(..)
        | What::View(_)
        | What::Ask(_)
        | What::Tell(_)
        | What::Device(_)
        | What::Tick
        | What::Stopped(_) => before,
    }
}

/// The phase after a step of the boot.
fn boot_phase(halt: Option<BootCause>, next: Phase) -> Phase
    ensures { result ≡ boot_phase halt next }
{
    match halt {
        None => next,
        Some(_) => Phase::Gone,
    }
}

/// The phase after a read of the own mailbox.
fn mail_phase(message: Option<Message>, timely: bool, before: Phase) -> Phase
    ensures { result ≡ mail_phase message timely before }
{
    if deadly_of(message).is_some() {
        Phase::Dying
    } else if gives_exit(message) && timely {
        Phase::Leaving
    } else {
        before
    }
}
