//! What the journals of the nodes of a cluster tell, in the order of time.
use crate::journal_line::JournalLine;
use crate::text::Text;
use jiff::Timestamp;
use qn_event::{EventName, read_value};
use std::alloc::{AllocError, Global};

/// The events of several journals. Within one journal those of a node stay in its order, also where the clock of its host was set
/// back; else they are in the order of time.
#[derive(Drop)]
pub struct History {
    alloc: Global,
    rows: Vec<Row>,
    /// The greatest time so far of each node of the journal that is read.
    clocks: Vec<Clock>,
}

/// A line of the history.
#[derive(Drop)]
struct Row {
    /// The greatest time of its node up to it, by which the lines are put in order.
    order: u64,
    text: String,
}

/// The greatest time of a node.
#[derive(Clone, Copy)]
struct Clock {
    node: u64,
    time: u64,
}

impl History {
    /// A history without events.
    pub fn new(alloc: Global) -> History {
        History {
            alloc,
            rows: Vec::new(alloc),
            clocks: Vec::new(alloc),
        }
    }

    /// The lines that follow are those of another journal.
    pub fn begin_journal(&mut self) {
        self.clocks.clear();
    }

    /// Takes a line of a journal; one that tells nothing is passed over.
    pub fn add(&mut self, line: &str) -> Result<(), AllocError> {
        let Some(line) = JournalLine::of(line) else {
            return Ok(());
        };
        let order = self.order_of(line.node, line.time)?;
        if let Some(text) = told(self.alloc, &line)? {
            self.rows.push(Row { order, text })?;
        }
        Ok(())
    }

    /// The greatest time of the node up to this one.
    fn order_of(&mut self, node: u64, time: u64) -> Result<u64, AllocError> {
        for clock in self.clocks.as_mut_slice().iter_mut() {
            if clock.node == node {
                clock.time = clock.time.max(time);
                return Ok(clock.time);
            }
        }
        self.clocks.push(Clock { node, time })?;
        Ok(time)
    }

    /// The lines, in order.
    pub fn text(mut self) -> Result<String, AllocError> {
        self.rows.sort_by_key(|row| row.order)?;
        let mut text = Text::new(self.alloc);
        for row in self.rows.as_slice() {
            text.add(row.text.as_str());
        }
        text.finish()
    }
}

/// The line that tells of an event: the time in UTC and the sentence. None where nothing is told.
fn told(alloc: Global, line: &JournalLine<'_>) -> Result<Option<String>, AllocError> {
    let Some(sentence) = sentence_of(line) else {
        return Ok(None);
    };
    let Some(date) = date_of(alloc, line.time)? else {
        return Ok(None);
    };
    let mut text = Text::new(alloc);
    text.add(date.as_str());
    text.add("  ");
    add_sentence(&mut text, sentence, line);
    text.add("\n");
    Ok(Some(text.finish()?))
}

/// The sentence of an event: the first whose words are all there.
fn sentence_of(line: &JournalLine<'_>) -> Option<&'static str> {
    for sentence in sentences_of(line) {
        if has_words(sentence, line) {
            return Some(sentence);
        }
    }
    None
}

/// What may be told of an event. The end of a node that halted is told by its halt, and a start or a stop by what follows it, unless it failed
/// or others failed before it.
fn sentences_of(line: &JournalLine<'_>) -> &'static [&'static str] {
    match EventName::of_word(line.event) {
        Some(EventName::Start | EventName::Stop) if is_told_by_next(line) => &[],
        Some(EventName::End) if is_end_of_halt(line) => &[],
        Some(name) => sentences(name),
        None => &[],
    }
}

/// What may be told of an event of that name; the words in braces are those of its line.
fn sentences(name: EventName) -> &'static [&'static str] {
    match name {
        EventName::Claimed => &[
            "node {node} ({name}) booted as incarnation {incarnation}",
            "node {node} booted as incarnation {incarnation}",
        ],
        EventName::QuorumWon => &["node {node} has a quorum: {votes}/{quorum}"],
        EventName::QuorumLost => &["node {node} lost its quorum: {votes}/{quorum}"],
        EventName::PeerSeen => &[
            "node {node} hears node {id} ({name})",
            "node {node} hears node {id}",
        ],
        EventName::PeerLost => &[
            "node {node} hears node {id} ({name}) no more",
            "node {node} hears node {id} no more",
        ],
        EventName::Device => &["the arbiter answered node {node} {answer} in view {view}"],
        EventName::DeviceSilent => &["node {node} hears nothing of its arbiter, for {age} ms"],
        EventName::ImageLost => &["node {node} lost image {image}"],
        EventName::ImageBack => &["node {node} has image {image} again"],
        EventName::FenceWritten => &[
            "node {node} fenced node {of} ({name}): reset written, ok={ok}, msgwait {msgwait} ms",
            "node {node} fenced node {of}: reset written, ok={ok}, msgwait {msgwait} ms",
        ],
        EventName::Licence => &[
            "node {node} read node {of} ({name}) as cleanly stopped",
            "node {node} read node {of} as cleanly stopped",
        ],
        EventName::HoldWon => &["node {node} holds the resource"],
        EventName::HoldLost => &["node {node} holds it no more"],
        EventName::Start => &["node {node} failed to start the resource"],
        EventName::Stop => &[
            "node {node} stopped the resource after {count} stops that failed",
            "node {node} failed to stop the resource",
        ],
        EventName::Mail => &[
            "node {node} read {message} from {by} (incarnation {by-incarnation})",
            "node {node} read {message} from {by}",
        ],
        EventName::Halt => &["node {node} ended: {cause}"],
        EventName::End => &["node {node} ended: {end}"],
        EventName::Open
        | EventName::Phase
        | EventName::View
        | EventName::Released
        | EventName::Why
        | EventName::FenceAsked
        | EventName::StartAsked
        | EventName::StopAsked
        | EventName::Disarm
        | EventName::MailDamaged
        | EventName::MailFailed
        | EventName::NetworkLost
        | EventName::NetworkBack
        | EventName::Standing
        | EventName::StandingRefused
        | EventName::Feed
        | EventName::PacketsRefused
        | EventName::LinesDropped
        | EventName::ArbiterOpen
        | EventName::Vote => &[],
    }
}

/// Whether a start or a stop succeeded, and none failed before it.
fn is_told_by_next(line: &JournalLine<'_>) -> bool {
    line.word("ok") != Some("no") && line.word("count").is_none()
}

fn is_end_of_halt(line: &JournalLine<'_>) -> bool {
    let end = line.word("end").unwrap_or("");
    end.starts_with("fault SelfReset") || end.starts_with("fault BootHalted")
}

/// Whether the line has each word that stands in braces.
fn has_words(text: &str, line: &JournalLine<'_>) -> bool {
    for part in text.split('{').skip(1) {
        let (key, _after) = part.split_once('}').unwrap_or((part, ""));
        if key != "node" && line.word(key).is_none() {
            return false;
        }
    }
    true
}

/// Adds a sentence, with the words of the line in place of those in braces.
fn add_sentence(text: &mut Text, sentence: &str, line: &JournalLine<'_>) {
    for part in sentence.split('{') {
        let Some((key, after)) = part.split_once('}') else {
            text.add(part);
            continue;
        };
        if key == "node" {
            text.add_number("", line.node);
        } else {
            add_said(text, line.word(key).unwrap_or(""));
        }
        text.add(after);
    }
}

/// Adds what a value says. One that says nothing is added as it stands.
fn add_said(text: &mut Text, value: &str) {
    match read_value(value.as_bytes()) {
        Some(said) => text.add_foreign(str::from_utf8(said.as_slice()).unwrap_or(value)),
        None => text.add_foreign(value),
    }
}

/// A time in milliseconds since 1970 as a date and a time of UTC; None where it is beyond the calendar.
fn date_of(alloc: Global, time: u64) -> Result<Option<String>, AllocError> {
    let Ok(time) = i64::try_from(time) else {
        return Ok(None);
    };
    let Ok(timestamp) = Timestamp::from_millisecond(time) else {
        return Ok(None);
    };
    match timestamp.strftime(alloc, "%Y-%m-%d %H:%M:%S%.3f") {
        Ok(date) => Ok(Some(date)),
        Err(_) => Err(AllocError),
    }
}
