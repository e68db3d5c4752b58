//! Reads the line of an event of three images, or names its first fault.
ghost use Rattle.std.specs.Prelude.{◌≡◌};
ghost use Rattle.std.specs.Option.{option_copied};
ghost use Rattle.qn_model.specs.Settings.{IsValid, ids};
ghost use Rattle.qn_sched.specs.EventReading.{filled_in};
ghost use Rattle.qn_sched.specs.Words.{parts_left};
ghost use Rattle.qn_triple.specs.TripleReading.{fail_on_of, image_between, land_on_of, late_on_of, one_of, operator_on_of, triple_event_of};

use qn_base::{MOST_EVENTS, MOST_LINE_BYTES, Rank};
use qn_model::{Event, Nodes, Settings};
use qn_safety::TripleEvent;
use qn_sched::{
    LineFault, first_part, known_rank, message_worded, number_between, read_line_into, three_words,
    two_words,
};

/// The event that a line says. The faults are those of `qn_sched::read_line`, in its order; the lines `land ID K`,
/// `fail ID K`, `late ID K N` and `operator ID K MESSAGE` name an image, 1 to 3, and BadNumber is another one.
pub fn read_triple_line(line: &[u8], settings: &Settings) -> Result<TripleEvent, LineFault>
    requires { IsValid settings.now }
    ensures first_fault { result ≡ triple_event_of (ids settings.now.nodes) line.now }
{
    let mut event = TripleEvent::One(Event::Tick(Rank(0)));
    read_triple_line_into(line, settings, &mut event)?;
    Ok(event)
}

/// The same as `read_triple_line`, with the event written over one that is there. What it holds after a fault is not said.
#[tactic(auto, unfolding(crate::specs::TripleReading::triple_event_of, crate::specs::TripleReading::triple_event_of_words))]
pub fn read_triple_line_into(
    line: &[u8],
    settings: &Settings,
    into: &mut TripleEvent,
) -> Result<(), LineFault>
    requires { IsValid settings.now }
    ensures first_fault { filled_in result into.new
        ≡ triple_event_of (ids settings.now.nodes) line.now }
{
    if line.len() > MOST_LINE_BYTES {
        return Err(LineFault::TooLong);
    }
    let (first, rest) = first_part(line, b' ');
    let nodes = &settings.nodes;
    if first == b"land".as_slice() {
        read_land(nodes, rest, into)
    } else if first == b"fail".as_slice() {
        read_fail(nodes, rest, into)
    } else if first == b"late".as_slice() {
        read_late(nodes, rest, into)
    } else if first == b"operator".as_slice() {
        read_operator(nodes, rest, into)
    } else {
        read_one(line, settings, into)
    }
}

/// A line that names no image.
#[tactic(auto, unfolding(crate::specs::TripleReading::one_of))]
fn read_one(line: &[u8], settings: &Settings, into: &mut TripleEvent) -> Result<(), LineFault>
    requires { IsValid settings.now }
    ensures { filled_in result into.new ≡ one_of (ids settings.now.nodes) line.now }
{
    *into = TripleEvent::One(Event::Tick(Rank(0)));
    if let TripleEvent::One(event) = into {
        read_line_into(line, settings, event)?;
    }
    Ok(())
}

/// The number of an image.
#[tactic(auto, unfolding(crate::specs::TripleReading::image_between))]
fn read_image(word: &[u8]) -> Result<u8, LineFault>
    ensures { result ≡ image_between word.now }
{
    let image = number_between(1, 3, word)?;
    Ok(image as u8)
}

/// `land ID K`
#[tactic(auto, unfolding(crate::specs::TripleReading::land_on_of))]
fn read_land(nodes: &Nodes, rest: Option<&[u8]>, into: &mut TripleEvent) -> Result<(), LineFault>
    ensures { filled_in result into.new
        ≡ land_on_of (ids nodes.now) (parts_left 32 (option_copied rest.entry)) }
{
    let (id, image) = two_words(rest)?;
    let rank = known_rank(nodes, id)?;
    let image = read_image(image)?;
    *into = TripleEvent::LandOn(rank, image);
    Ok(())
}

/// `fail ID K`
#[tactic(auto, unfolding(crate::specs::TripleReading::fail_on_of))]
fn read_fail(nodes: &Nodes, rest: Option<&[u8]>, into: &mut TripleEvent) -> Result<(), LineFault>
    ensures { filled_in result into.new
        ≡ fail_on_of (ids nodes.now) (parts_left 32 (option_copied rest.entry)) }
{
    let (id, image) = two_words(rest)?;
    let rank = known_rank(nodes, id)?;
    let image = read_image(image)?;
    *into = TripleEvent::FailOn(rank, image);
    Ok(())
}

/// `late ID K N`
#[tactic(auto, unfolding(crate::specs::TripleReading::late_on_of))]
fn read_late(nodes: &Nodes, rest: Option<&[u8]>, into: &mut TripleEvent) -> Result<(), LineFault>
    ensures { filled_in result into.new
        ≡ late_on_of (ids nodes.now) (parts_left 32 (option_copied rest.entry)) }
{
    let (id, image, number) = three_words(rest)?;
    let rank = known_rank(nodes, id)?;
    let image = read_image(image)?;
    let number = number_between(1, MOST_EVENTS, number)?;
    *into = TripleEvent::LateOn(rank, image, number);
    Ok(())
}

/// `operator ID K MESSAGE`
#[tactic(auto, unfolding(crate::specs::TripleReading::operator_on_of))]
fn read_operator(
    nodes: &Nodes,
    rest: Option<&[u8]>,
    into: &mut TripleEvent,
) -> Result<(), LineFault>
    ensures { filled_in result into.new
        ≡ operator_on_of (ids nodes.now) (parts_left 32 (option_copied rest.entry)) }
{
    let (id, image, word) = three_words(rest)?;
    let rank = known_rank(nodes, id)?;
    let image = read_image(image)?;
    let message = message_worded(word).ok_or(LineFault::UnknownWord)?;
    *into = TripleEvent::OperatorOn(rank, image, message);
    Ok(())
}
