//! Reads a line that a supervisor writes, or names its first fault.
ghost use Rattle.std.specs.Prelude.{◌≡◌, ◌≤◌, ◌↔◌, Ok, Err, IfOk, IfErr};
ghost use Rattle.std.specs.Option.{option_copied};
ghost use Rattle.qn_sched.specs.Words.{parts_left};
ghost use Rattle.qn_model.specs.Lines.{words_of};
ghost use Rattle.qn_supervisor.specs.declared.line.Line.{Line};
ghost use Rattle.qn_supervisor.specs.Lines.{Fits, line_words};
ghost use Rattle.qn_supervisor.specs.Reading.{alone, begin_of, either, ended_of, failed_of, line_named, line_of, line_of_words, loop_of, maintenance_of, number_first, resource_of, tick_of};

use crate::name::{LineName, line_name};
use crate::words::{outcome_named, verb_named};
use qn_group::{Event, Rule};
use qn_model::LineFault;
use qn_sched::{first_part, next_word, no_more_words, number_between, one_word, two_words};

/// A line that a supervisor writes. Times are milliseconds.
#[derive(Clone, Copy)]
pub enum Line {
    /// One more resource of the group, 1 to 16, before `begin`; at most 4294967295 failures are its limit.
    Resource(Rule),
    /// How often the node asks, at most 3600000; 0 where nobody knows yet.
    Loop { turn: u32 },
    /// The group is what was named, and whether the node holds, by what was kept of this boot.
    Begin { held: bool },
    /// A failure of the resource of that place, from 0, was counted at that time, before.
    Failed { at: usize, tick: u64 },
    /// An event; places are 0 to 15.
    Happens(Event),
}

/// What a line says, which is without its end. The faults, in the order in which they are tried: UnknownWord where the first word names no line, then that of the
/// first word from left to right: BadCount where a word is missing or is one too many, BadNumber where it is no number or out of range, UnknownWord where it is none
/// of those that may stand there.
pub fn read_line(text: &[u8]) -> Result<Line, LineFault>
    ensures first_fault { result ≡ line_of text.now }
    ensures spelled { (line : Line)
        → (result ≡ Ok line) ↔ (Fits line × (words_of text.now ≡ line_words line)) }
{
    read_words(text)
}

#[tactic(auto, unfolding(crate::specs::Reading::line_of, crate::specs::Reading::line_of_words))]
fn read_words(text: &[u8]) -> Result<Line, LineFault>
    ensures { result ≡ line_of text.now }
{
    let (first, rest) = first_part(text, b' ');
    let name = line_name(first).ok_or(LineFault::UnknownWord)?;
    read_named(name, rest)
}

/// A line by what its first word says.
#[tactic(auto, unfolding(crate::specs::Reading::line_named))]
fn read_named(name: LineName, rest: Option<&[u8]>) -> Result<Line, LineFault>
    ensures { result ≡ line_named name (parts_left 32 (option_copied rest.entry)) }
{
    match name {
        LineName::Resource => read_resource(rest),
        LineName::Loop => read_loop(rest),
        LineName::Begin => read_begin(rest),
        LineName::Failed => read_failed(rest),
        LineName::Tick => read_tick(rest),
        LineName::Start => alone(Line::Happens(Event::Start), rest),
        LineName::Stop => alone(Line::Happens(Event::Stop), rest),
        LineName::Move => alone(Line::Happens(Event::Move), rest),
        LineName::Maintenance => read_maintenance(rest),
        LineName::Ended => read_ended(rest),
    }
}

/// A line of which no further word is left.
fn alone(line: Line, rest: Option<&[u8]>) -> Result<Line, LineFault>
    ensures { result ≡ alone line (parts_left 32 (option_copied rest.entry)) }
{
    no_more_words(rest)?;
    Ok(line)
}

/// The number that the next word is, up to a greatest one, and what is left after it.
#[tactic(auto, unfolding(crate::specs::Reading::number_first))]
fn next_number(high: u64, rest: Option<&[u8]>) -> Result<(u64, Option<&[u8]>), LineFault>
    ensures number { IfOk result
        (λ next. number_first high (parts_left 32 (option_copied rest.entry))
        ≡ Ok (next.0, parts_left 32 (option_copied next.1))) }
    ensures range { IfOk result (λ next. next.0 ≤ high) }
    ensures fault { IfErr result
        (λ fault. number_first high (parts_left 32 (option_copied rest.entry)) ≡ Err fault) }
{
    let (word, rest) = next_word(rest)?;
    let number = number_between(0, high, word)?;
    Ok((number, rest))
}

/// `resource INTERVAL PATIENCE CHECK STOP LIMIT WINDOW`
#[tactic(auto, unfolding(crate::specs::Reading::resource_of))]
fn read_resource(rest: Option<&[u8]>) -> Result<Line, LineFault>
    ensures { result ≡ resource_of (parts_left 32 (option_copied rest.entry)) }
{
    let (interval, rest) = next_number(u64::MAX, rest)?;
    let (patience, rest) = next_number(u64::MAX, rest)?;
    let (check, rest) = next_number(u64::MAX, rest)?;
    let (stop, rest) = next_number(u64::MAX, rest)?;
    let (limit, rest) = next_number(4_294_967_295, rest)?;
    let (window, rest) = next_number(u64::MAX, rest)?;
    let rule = Rule {
        interval,
        patience,
        check,
        stop,
        limit: limit as usize,
        window,
    };
    alone(Line::Resource(rule), rest)
}

/// `loop TURN`
#[tactic(auto, unfolding(crate::specs::Reading::loop_of))]
fn read_loop(rest: Option<&[u8]>) -> Result<Line, LineFault>
    ensures { result ≡ loop_of (parts_left 32 (option_copied rest.entry)) }
{
    let turn = number_between(0, 3_600_000, one_word(rest)?)?;
    Ok(Line::Loop { turn: turn as u32 })
}

/// `begin held` or `begin released`
#[tactic(auto, unfolding(crate::specs::Reading::begin_of))]
fn read_begin(rest: Option<&[u8]>) -> Result<Line, LineFault>
    ensures { result ≡ begin_of (parts_left 32 (option_copied rest.entry)) }
{
    let held = either(b"held", b"released", one_word(rest)?)?;
    Ok(Line::Begin { held })
}

/// `failed AT TICK`
#[tactic(auto, unfolding(crate::specs::Reading::failed_of))]
fn read_failed(rest: Option<&[u8]>) -> Result<Line, LineFault>
    ensures { result ≡ failed_of (parts_left 32 (option_copied rest.entry)) }
{
    let (at, rest) = next_number(15, rest)?;
    let (tick, rest) = next_number(u64::MAX, rest)?;
    alone(
        Line::Failed {
            at: at as usize,
            tick,
        },
        rest,
    )
}

/// `tick TICK`
#[tactic(auto, unfolding(crate::specs::Reading::tick_of))]
fn read_tick(rest: Option<&[u8]>) -> Result<Line, LineFault>
    ensures { result ≡ tick_of (parts_left 32 (option_copied rest.entry)) }
{
    let tick = number_between(0, u64::MAX, one_word(rest)?)?;
    Ok(Line::Happens(Event::Tick(tick)))
}

/// `maintenance on` or `maintenance off`
#[tactic(auto, unfolding(crate::specs::Reading::maintenance_of))]
fn read_maintenance(rest: Option<&[u8]>) -> Result<Line, LineFault>
    ensures { result ≡ maintenance_of (parts_left 32 (option_copied rest.entry)) }
{
    let on = either(b"on", b"off", one_word(rest)?)?;
    Ok(Line::Happens(Event::Maintenance(on)))
}

/// `ended AT VERB OUTCOME`
#[tactic(auto, unfolding(crate::specs::Reading::ended_of))]
fn read_ended(rest: Option<&[u8]>) -> Result<Line, LineFault>
    ensures { result ≡ ended_of (parts_left 32 (option_copied rest.entry)) }
{
    let (at, rest) = next_number(15, rest)?;
    let (verb, outcome) = two_words(rest)?;
    let verb = verb_named(verb).ok_or(LineFault::UnknownWord)?;
    let outcome = outcome_named(outcome).ok_or(LineFault::UnknownWord)?;
    Ok(Line::Happens(Event::Ended {
        at: at as usize,
        verb,
        outcome,
    }))
}

/// Whether it is the first of two words; UnknownWord where it is neither.
#[tactic(auto, unfolding(crate::specs::Reading::either))]
fn either(first: &[u8], second: &[u8], word: &[u8]) -> Result<bool, LineFault>
    ensures { result ≡ either first.now second.now word.now }
{
    if word == first {
        Ok(true)
    } else if word == second {
        Ok(false)
    } else {
        Err(LineFault::UnknownWord)
    }
}
