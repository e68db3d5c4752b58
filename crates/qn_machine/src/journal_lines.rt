//! The lines in which the outside of a node tells what happens to it.
ghost use Rattle.std.specs.Prelude.{◌≡◌};
ghost use Rattle.qn_machine.specs.JournalLines.{dropped_line, opening_line, refusal_words, refused_standing_line, standing_line, switch_word};
ghost use Rattle.qn_event.specs.WholeLines.{with_words};

use crate::standing_text::StandingFault;
use qn_event::{EventLine, EventName, Level, Moment};
use qn_io::Opening;
use qn_shown::HostStanding;

/// The most bytes of a path in the line of an opening.
const MOST_OF_A_PATH: usize = 100;

/// What a node opens, and whether all of it was opened.
pub(crate) fn opening_line(at: Moment, opening: &Opening<'_>, ok: bool) -> EventLine
    ensures { result ≡ opening_line at opening.now ok }
{
    let level = if ok { Level::Notice } else { Level::Error };
    let port = opening.port.wrapping_add(u16::from(opening.rank.0));
    let mut line = EventLine::new(at, level, EventName::Open);
    line.number(b"port", u64::from(port));
    line.word(b"image", opening.image.as_bytes(), MOST_OF_A_PATH);
    line.word(b"resource", opening.resource.as_bytes(), MOST_OF_A_PATH);
    line.word(b"watchdog", opening.watchdog.as_bytes(), MOST_OF_A_PATH);
    line.truth(b"ok", ok);
    line
}

/// That so many lines had no room.
pub(crate) fn dropped_line(at: Moment, count: u64) -> EventLine
    ensures { result ≡ dropped_line at count }
{
    let mut line = EventLine::new(at, Level::Warning, EventName::LinesDropped);
    line.number(b"count", count);
    line
}

/// What the host says of its node now.
pub(crate) fn standing_line(at: Moment, said: HostStanding) -> EventLine
    ensures { result ≡ standing_line at said }
{
    let mut line = EventLine::new(at, Level::Notice, EventName::Standing);
    line.word(b"standby", switch_word(said.standby), 3);
    line.truth(b"fit", said.fit);
    line.word(b"pull", switch_word(said.pull), 3);
    line.number(b"weight", u64::from(said.weight));
    line
}

fn switch_word(is_on: bool) -> &'static [u8]
    ensures { result.now ≡ switch_word is_on }
{
    if is_on { b"on" } else { b"off" }
}

/// Why the file in which the host says it is none.
pub(crate) fn refused_standing_line(at: Moment, fault: StandingFault) -> EventLine
    ensures { result ≡ refused_standing_line at fault }
{
    let mut line = EventLine::new(at, Level::Warning, EventName::StandingRefused);
    add_refusal(&mut line, fault);
    line
}

/// Adds which line is none, or what else is wrong.
fn add_refusal(line: &mut EventLine, fault: StandingFault)
    ensures head { line.new.head ≡ line.old.head }
    ensures level { line.new.level ≡ line.old.level }
    ensures words { line.new.words ≡ with_words line.old.words (refusal_words fault) }
{
    match fault {
        StandingFault::Line(number) => line.number(b"line", number),
        StandingFault::Length => line.word(b"why", b"length", 6),
        StandingFault::File => line.word(b"why", b"file", 6),
    }
}
