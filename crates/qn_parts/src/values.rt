//! What the values of the parts of a read give together.
ghost use Rattle.std.specs.Prelude.{◌≡◌, ◌||◌, ◌&&◌, not, if◌then◌else◌};
ghost use Rattle.std.specs.Option.{option_map_or};
ghost use Rattle.qn_parts.specs.Parts.{message_in, slot_in, stronger};
ghost use Rattle.qn_safety.specs.TripleWorld.{header_of, is_above, message_among, messages_among, slot_among, slots_among};

use qn_model::{HeaderSeen, MailSeen, Message, Slot, SlotSeen, What};

/// The header of a value.
pub(crate) fn header_of(value: What) -> HeaderSeen
    ensures { result ≡ header_of value }
{
    match value {
        What::Header(seen) => seen,
        _ => HeaderSeen::Failed,
    }
}

/// The highest slot among the values; a failure where there is none.
pub(crate) fn slot_among(values: &[What]) -> SlotSeen
    ensures { result ≡ slot_among (slots_among values.now) }
{
    let mut best = None;
    for value in values {
        if let Some(found) = slot_in(*value) {
            best = Some(higher(best, found));
        }
    }
    match best {
        Some(slot) => SlotSeen::Read(slot),
        None => SlotSeen::Failed,
    }
}

/// What the mailboxes among the values tell together: the first deadly message in the order of the images, else exit if
/// any is that, else test if any is that, else empty.
pub(crate) fn message_among(values: &[What]) -> Message
    ensures { result ≡ message_among (messages_among values.now) }
{
    let mut told = Message::Empty;
    for value in values {
        if let Some(found) = message_in(*value) {
            told = stronger(told, found);
        }
    }
    told
}

fn slot_in(value: What) -> Option<Slot>
    ensures { result ≡ slot_in value }
{
    match value {
        What::SlotRead(_, SlotSeen::Read(slot)) => Some(slot),
        _ => None,
    }
}

fn message_in(value: What) -> Option<Message>
    ensures { result ≡ message_in value }
{
    match value {
        What::MailRead(MailSeen::Read(message)) => Some(message),
        What::MailChecked(MailSeen::Read(message)) => Some(message),
        _ => None,
    }
}

/// Whether a slot stands above another one: its incarnation is greater, or equal and it alone is clean.
fn is_above(one: Slot, other: Slot) -> bool
    ensures { result ≡ is_above one other }
{
    one.incarnation > other.incarnation
        || one.incarnation == other.incarnation && one.clean && !other.clean
}

/// The higher one of the best slot so far, if there is one, and the next.
fn higher(best: Option<Slot>, next: Slot) -> Slot
    ensures { result ≡ option_map_or (λ best. if is_above next best then next else best) best next }
{
    match best {
        Some(best) if !is_above(next, best) => best,
        _ => next,
    }
}

/// What two messages tell together, of which the former is that of the earlier images.
fn stronger(told: Message, found: Message) -> Message
    ensures { result ≡ stronger told found }
{
    match (told, found) {
        (Message::Reset | Message::Off | Message::Crashdump, _) => told,
        (_, Message::Reset | Message::Off | Message::Crashdump) => found,
        (Message::Exit, _) | (_, Message::Exit) => Message::Exit,
        (Message::Test, _) | (_, Message::Test) => Message::Test,
        (Message::Empty, Message::Empty) => Message::Empty,
    }
}
