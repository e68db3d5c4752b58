//! Reads the line of an event beside an arbiter, or names its first fault.
ghost use Rattle.std.specs.Prelude.{◌≡◌, ◌↔◌, IsTrue, Ok, Some};
ghost use Rattle.std.specs.Option.{option_copied};
ghost use Rattle.qn_safety.specs.declared.arbiter_event.ArbiterEvent.{ArbiterEvent};
ghost use Rattle.qn_safety.specs.ArbiterRules.{is_well_formed_beside};
ghost use Rattle.qn_model.specs.Settings.{IsValid, ids};
ghost use Rattle.qn_sched.specs.EventReading.{filled_in};
ghost use Rattle.qn_sched.specs.Words.{parts_left};
ghost use Rattle.qn_arbiter.specs.EventReading.{arbiter_boot_of, arbiter_crash_of, arbiter_event_named, arbiter_event_of, event_alone_of, hear_of, pass_with_of, poll_of, reply_of};
ghost use Rattle.qn_arbiter.specs.EventLines.{arbiter_line};

use crate::event_name::{ArbiterName, arbiter_name};
use crate::laws::law_arbiter_lines;
use qn_base::{MOST_LINE_BYTES, Rank};
use qn_model::{Event, LineFault, Nodes, Settings};
use qn_safety::ArbiterEvent;
use qn_sched::{
    first_part, known_rank, next_word, no_more_words, number_between, one_word, read_line_into,
    read_pass,
};

/// Writes the event that a line says over one that is there. The faults are those of `qn_sched::read_line`, in its order: TooLong,
/// UnknownWord, BadCount, then the fault of the first word from left to right, and last BadCount where the clocks of a pass do not
/// ascend strictly. What `into` holds after a fault is not said.
pub fn read_arbiter_line_into(
    line: &[u8],
    settings: &Settings,
    into: &mut ArbiterEvent,
) -> Result<(), LineFault>
    requires { IsValid settings.now }
    ensures first_fault { filled_in result into.new
        ≡ arbiter_event_of (ids settings.now.nodes) line.now }
    ensures spelled { (event : ArbiterEvent) → (filled_in result into.new ≡ Ok event)
        ↔ (IsTrue (is_well_formed_beside settings.now event)
        × (arbiter_line (ids settings.now.nodes) event ≡ Some line.now)) }
{
    law_arbiter_lines();
    read_event(line, settings, into)
}

#[tactic(auto, unfolding(crate::specs::EventReading::arbiter_event_of, crate::specs::EventReading::arbiter_event_of_words))]
fn read_event(line: &[u8], settings: &Settings, into: &mut ArbiterEvent) -> Result<(), LineFault>
    requires { IsValid settings.now }
    ensures { filled_in result into.new ≡ arbiter_event_of (ids settings.now.nodes) line.now }
{
    if line.len() > MOST_LINE_BYTES {
        return Err(LineFault::TooLong);
    }
    let (first, rest) = first_part(line, b' ');
    match arbiter_name(first) {
        Some(name) => read_named(name, &settings.nodes, rest, into),
        None => read_event_alone(line, settings, into),
    }
}

/// The line of an event as in a world without an arbiter.
#[tactic(auto, unfolding(crate::specs::EventReading::event_alone_of))]
fn read_event_alone(
    line: &[u8],
    settings: &Settings,
    into: &mut ArbiterEvent,
) -> Result<(), LineFault>
    requires { IsValid settings.now }
    ensures { filled_in result into.new ≡ event_alone_of (ids settings.now.nodes) line.now }
{
    *into = ArbiterEvent::One(Event::Tick(Rank(0)));
    if let ArbiterEvent::One(event) = into {
        read_line_into(line, settings, event)?;
    }
    Ok(())
}

/// An event by what the first word of its line says.
#[tactic(auto, unfolding(crate::specs::EventReading::arbiter_event_named))]
fn read_named(
    name: ArbiterName,
    nodes: &Nodes,
    rest: Option<&[u8]>,
    into: &mut ArbiterEvent,
) -> Result<(), LineFault>
    ensures { filled_in result into.new
        ≡ arbiter_event_named (ids nodes.now) name (parts_left 32 (option_copied rest.entry)) }
{
    match name {
        ArbiterName::PassWith => read_pass_with(nodes, rest, into),
        ArbiterName::ArbiterBoot => read_arbiter_boot(rest, into),
        ArbiterName::ArbiterCrash => read_arbiter_crash(rest, into),
        ArbiterName::Poll => read_poll(nodes, rest, into),
        ArbiterName::Hear => read_hear(rest, into),
        ArbiterName::Reply => read_reply(rest, into),
    }
}

/// `pass-with DH`, and then the words of a pass after its first
#[tactic(auto, using(crate::proofs::PassWords::pass_with_judged), unfolding(crate::specs::EventReading::pass_with_of))]
fn read_pass_with(
    nodes: &Nodes,
    rest: Option<&[u8]>,
    into: &mut ArbiterEvent,
) -> Result<(), LineFault>
    ensures { filled_in result into.new
        ≡ pass_with_of (ids nodes.now) (parts_left 32 (option_copied rest.entry)) }
{
    let (first, rest) = next_word(rest)?;
    let Some(words) = rest else {
        return Err(LineFault::BadCount);
    };
    let advance = number_between(0, 1_000_000_000_000, first)?;
    *into = ArbiterEvent::PassWith(advance, Event::Tick(Rank(0)));
    if let ArbiterEvent::PassWith(_, pass) = into {
        read_pass(nodes, Some(words), pass)?;
    }
    Ok(())
}

/// `arbiter-boot BASE`
#[tactic(auto, unfolding(crate::specs::EventReading::arbiter_boot_of))]
fn read_arbiter_boot(rest: Option<&[u8]>, into: &mut ArbiterEvent) -> Result<(), LineFault>
    ensures { filled_in result into.new
        ≡ arbiter_boot_of (parts_left 32 (option_copied rest.entry)) }
{
    let word = one_word(rest)?;
    let base = number_between(0, 1_000_000_000_000_000, word)?;
    *into = ArbiterEvent::ArbiterBoot(base);
    Ok(())
}

/// `arbiter-crash`
fn read_arbiter_crash(rest: Option<&[u8]>, into: &mut ArbiterEvent) -> Result<(), LineFault>
    ensures { filled_in result into.new
        ≡ arbiter_crash_of (parts_left 32 (option_copied rest.entry)) }
{
    no_more_words(rest)?;
    *into = ArbiterEvent::ArbiterCrash;
    Ok(())
}

/// `poll ID`
#[tactic(auto, unfolding(crate::specs::EventReading::poll_of))]
fn read_poll(nodes: &Nodes, rest: Option<&[u8]>, into: &mut ArbiterEvent) -> Result<(), LineFault>
    ensures { filled_in result into.new
        ≡ poll_of (ids nodes.now) (parts_left 32 (option_copied rest.entry)) }
{
    let word = one_word(rest)?;
    let rank = known_rank(nodes, word)?;
    *into = ArbiterEvent::Poll(rank);
    Ok(())
}

/// `hear N`
#[tactic(auto, unfolding(crate::specs::EventReading::hear_of))]
fn read_hear(rest: Option<&[u8]>, into: &mut ArbiterEvent) -> Result<(), LineFault>
    ensures { filled_in result into.new ≡ hear_of (parts_left 32 (option_copied rest.entry)) }
{
    let word = one_word(rest)?;
    let number = number_between(0, u64::MAX, word)?;
    *into = ArbiterEvent::Hear(number);
    Ok(())
}

/// `reply N`
#[tactic(auto, unfolding(crate::specs::EventReading::reply_of))]
fn read_reply(rest: Option<&[u8]>, into: &mut ArbiterEvent) -> Result<(), LineFault>
    ensures { filled_in result into.new ≡ reply_of (parts_left 32 (option_copied rest.entry)) }
{
    let word = one_word(rest)?;
    let number = number_between(0, u64::MAX, word)?;
    *into = ArbiterEvent::Reply(number);
    Ok(())
}
