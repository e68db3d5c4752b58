//! Reads the line of an event, or names its first fault.
ghost use Rattle.std.specs.Prelude.{◌≡◌, ◌↔◌, IsTrue, Ok};
ghost use Rattle.std.specs.Option.{option_copied};
ghost use Rattle.qn_model.specs.declared.events.Event.{Event};
ghost use Rattle.qn_model.specs.Rules.{is_well_formed};
ghost use Rattle.qn_model.specs.Settings.{IsValid, ids};
ghost use Rattle.qn_sched.specs.EventLines.{event_line};
ghost use Rattle.qn_sched.specs.EventReading.{boot_clean_of, boot_of, deliver_of, device_of, event_named, event_of, filled_in, late_of, message_worded, node_event_of, numbered_of, operator_of, pass_of, view_of, yes_or_no};
ghost use Rattle.qn_sched.specs.Words.{parts_left};

use crate::clocks::{ClockList, read_clocks};
use crate::event_name::{EventName, NodeEvent, event_name};
use crate::members::{known_rank, read_members};
use crate::numbers::number_between;
use crate::words::{first_part, next_word, one_word, three_words, two_words};
use qn_base::{MOST_EVENTS, MOST_LINE_BYTES, Rank, View};
use qn_model::{Event, LineFault, Message, Nodes, Settings};

/// The event that a line says. The faults, in the order in which they are tried: TooLong above
/// `MOST_LINE_BYTES`, UnknownWord where the first word names no event, BadCount where the number of words is not
/// that of the event, then the fault of the first word from left to right, and last BadCount where the clocks of
/// a pass do not ascend strictly.
pub fn read_line(line: &[u8], settings: &Settings) -> Result<Event, LineFault>
    requires { IsValid settings.now }
    ensures first_fault { result ≡ event_of (ids settings.now.nodes) line.now }
    ensures spelled { (event : Event)
        → (result ≡ Ok event)
        ↔ (IsTrue (is_well_formed settings.now event)
        × (line.now ≡ event_line (ids settings.now.nodes) event)) }
{
    let mut event = Event::Tick(Rank(0));
    read_line_into(line, settings, &mut event)?;
    Ok(event)
}

/// The same as `read_line`, with the event written over one that is there. What it holds after a fault is not said.
#[inline(always)]
pub fn read_line_into(line: &[u8], settings: &Settings, into: &mut Event) -> Result<(), LineFault>
    requires { IsValid settings.now }
    ensures first_fault { filled_in result into.new ≡ event_of (ids settings.now.nodes) line.now }
    ensures spelled { (event : Event) → (filled_in result into.new ≡ Ok event)
        ↔ (IsTrue (is_well_formed settings.now event)
        × (line.now ≡ event_line (ids settings.now.nodes) event)) }
{
    read_event(line, &settings.nodes, into)
}

#[inline(always)]
#[tactic(auto, unfolding(crate::specs::EventReading::event_of, crate::specs::EventReading::event_of_words))]
fn read_event(line: &[u8], nodes: &Nodes, into: &mut Event) -> Result<(), LineFault>
    ensures { filled_in result into.new ≡ event_of (ids nodes.now) line.now }
{
    if line.len() > MOST_LINE_BYTES {
        return Err(LineFault::TooLong);
    }
    let (first, rest) = first_part(line, b' ');
    let name = event_name(first).ok_or(LineFault::UnknownWord)?;
    read_named(name, nodes, rest, into)
}

/// An event by what the first word of its line says.
#[inline(always)]
#[tactic(auto, unfolding(crate::specs::EventReading::event_named))]
fn read_named(
    name: EventName,
    nodes: &Nodes,
    rest: Option<&[u8]>,
    into: &mut Event,
) -> Result<(), LineFault>
    ensures { filled_in result into.new
        ≡ event_named (ids nodes.now) name (parts_left 32 (option_copied rest.entry)) }
{
    match name {
        EventName::Pass => read_pass(nodes, rest, into),
        EventName::Boot => read_boot(nodes, rest, into),
        EventName::BootClean => read_boot_clean(nodes, rest, into),
        EventName::Late => read_late(nodes, rest, into),
        EventName::View => read_view(nodes, rest, into),
        EventName::Deliver => read_deliver(nodes, rest, into),
        EventName::Device => read_device(nodes, rest, into),
        EventName::Operator => read_operator(nodes, rest, into),
        EventName::OfNode(event) => read_node_event(event, nodes, rest, into),
    }
}

/// Reads the words of a pass after its first: `DT` and then any clocks. BadCount where there is no word; then the fault
/// of the first word from left to right, and last BadCount where the clocks do not ascend strictly. What `into`
/// holds after a fault is not said.
#[tactic(auto, unfolding(crate::specs::EventReading::pass_of, crate::specs::ClockList::finished))]
pub fn read_pass(nodes: &Nodes, rest: Option<&[u8]>, into: &mut Event) -> Result<(), LineFault>
    ensures { filled_in result into.new
        ≡ pass_of (ids nodes.now) (parts_left 32 (option_copied rest.entry)) }
{
    let (first, rest) = next_word(rest)?;
    let dt = number_between(1, 1_000_000_000, first)?;
    let mut list = ClockList::new();
    read_clocks(nodes, rest, &mut list)?;
    if !list.is_sound {
        return Err(LineFault::BadCount);
    }
    let clocks = list.clocks;
    *into = Event::Pass { dt, clocks };
    Ok(())
}

/// `boot ID BASE`
#[tactic(auto, unfolding(crate::specs::EventReading::boot_of))]
fn read_boot(nodes: &Nodes, rest: Option<&[u8]>, into: &mut Event) -> Result<(), LineFault>
    ensures { filled_in result into.new
        ≡ boot_of (ids nodes.now) (parts_left 32 (option_copied rest.entry)) }
{
    let (rank, base) = read_numbered(nodes, 0, 1_000_000_000_000_000, rest)?;
    *into = Event::Boot(rank, base);
    Ok(())
}

/// `boot-clean ID BASE`
#[tactic(auto, unfolding(crate::specs::EventReading::boot_clean_of))]
fn read_boot_clean(nodes: &Nodes, rest: Option<&[u8]>, into: &mut Event) -> Result<(), LineFault>
    ensures { filled_in result into.new
        ≡ boot_clean_of (ids nodes.now) (parts_left 32 (option_copied rest.entry)) }
{
    let (rank, base) = read_numbered(nodes, 0, 1_000_000_000_000_000, rest)?;
    *into = Event::BootClean(rank, base);
    Ok(())
}

/// `late ID K`
#[tactic(auto, unfolding(crate::specs::EventReading::late_of))]
fn read_late(nodes: &Nodes, rest: Option<&[u8]>, into: &mut Event) -> Result<(), LineFault>
    ensures { filled_in result into.new
        ≡ late_of (ids nodes.now) (parts_left 32 (option_copied rest.entry)) }
{
    let (rank, number) = read_numbered(nodes, 1, MOST_EVENTS, rest)?;
    *into = Event::Late(rank, number);
    Ok(())
}

/// `deliver ID N`
#[tactic(auto, unfolding(crate::specs::EventReading::deliver_of))]
fn read_deliver(nodes: &Nodes, rest: Option<&[u8]>, into: &mut Event) -> Result<(), LineFault>
    ensures { filled_in result into.new
        ≡ deliver_of (ids nodes.now) (parts_left 32 (option_copied rest.entry)) }
{
    let (rank, number) = read_numbered(nodes, 0, u64::MAX, rest)?;
    *into = Event::Deliver(rank, number);
    Ok(())
}

/// A node, and a number from `low` to `high`.
#[tactic(auto, unfolding(crate::specs::EventReading::numbered_of))]
fn read_numbered(
    nodes: &Nodes,
    low: u64,
    high: u64,
    rest: Option<&[u8]>,
) -> Result<(Rank, u64), LineFault>
    ensures { result
        ≡ numbered_of (ids nodes.now) low high (parts_left 32 (option_copied rest.entry)) }
{
    let (id, number) = two_words(rest)?;
    let rank = known_rank(nodes, id)?;
    let number = number_between(low, high, number)?;
    Ok((rank, number))
}

/// `view ID VID MEMBERS`
#[tactic(auto, unfolding(crate::specs::EventReading::view_of))]
fn read_view(nodes: &Nodes, rest: Option<&[u8]>, into: &mut Event) -> Result<(), LineFault>
    ensures { filled_in result into.new
        ≡ view_of (ids nodes.now) (parts_left 32 (option_copied rest.entry)) }
{
    let (node, id, members) = three_words(rest)?;
    let rank = known_rank(nodes, node)?;
    let id = number_between(0, u64::MAX, id)?;
    let members = read_members(nodes, members)?;
    *into = Event::View(rank, View { id, members });
    Ok(())
}

/// `device ID yes` or `device ID no`
#[tactic(auto, unfolding(crate::specs::EventReading::device_of))]
fn read_device(nodes: &Nodes, rest: Option<&[u8]>, into: &mut Event) -> Result<(), LineFault>
    ensures { filled_in result into.new
        ≡ device_of (ids nodes.now) (parts_left 32 (option_copied rest.entry)) }
{
    let (id, answer) = two_words(rest)?;
    let rank = known_rank(nodes, id)?;
    let agrees = read_yes_or_no(answer)?;
    *into = Event::Device(rank, agrees);
    Ok(())
}

#[tactic(auto, unfolding(crate::specs::EventReading::yes_or_no))]
fn read_yes_or_no(word: &[u8]) -> Result<bool, LineFault>
    ensures { result ≡ yes_or_no word.now }
{
    if word == b"yes".as_slice() {
        Ok(true)
    } else if word == b"no".as_slice() {
        Ok(false)
    } else {
        Err(LineFault::UnknownWord)
    }
}

/// `operator ID MESSAGE`
#[tactic(auto, unfolding(crate::specs::EventReading::operator_of))]
fn read_operator(nodes: &Nodes, rest: Option<&[u8]>, into: &mut Event) -> Result<(), LineFault>
    ensures { filled_in result into.new
        ≡ operator_of (ids nodes.now) (parts_left 32 (option_copied rest.entry)) }
{
    let (id, word) = two_words(rest)?;
    let rank = known_rank(nodes, id)?;
    let message = message_worded(word).ok_or(LineFault::UnknownWord)?;
    *into = Event::Operator(rank, message);
    Ok(())
}

/// The messages that an operator can send.
const MESSAGES: [Message; 6] = [
    Message::Empty,
    Message::Test,
    Message::Reset,
    Message::Off,
    Message::Exit,
    Message::Crashdump,
];

/// The message that an operator sends by a word of a schedule: sbd(8), `message`.
#[tactic(auto, unfolding(crate::specs::EventReading::message_worded))]
pub fn message_worded(word: &[u8]) -> Option<Message>
    ensures { result ≡ message_worded word.now }
{
    MESSAGES
        .iter()
        .copied()
        .find(|message| message.operator_word().as_bytes() == word)
}

/// A line that says the node alone.
#[inline(always)]
#[tactic(auto, unfolding(crate::specs::EventReading::node_event_of))]
fn read_node_event(
    event: NodeEvent,
    nodes: &Nodes,
    rest: Option<&[u8]>,
    into: &mut Event,
) -> Result<(), LineFault>
    ensures { filled_in result into.new
        ≡ node_event_of (ids nodes.now) event (parts_left 32 (option_copied rest.entry)) }
{
    let word = one_word(rest)?;
    let rank = known_rank(nodes, word)?;
    *into = event.at(rank);
    Ok(())
}
