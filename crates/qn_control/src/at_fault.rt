//! The lines of a settings text that a fault speaks of.
use crate::text::Text;
use qn_conf::ConfFault;
use qn_settings::{Key, SettingsFault, TextFault};
use std::alloc::{AllocError, Global};
use std::str::from_utf8;

/// Which lines of a text are at fault.
#[derive(Clone, Copy)]
enum Wrong {
    /// The one of this number, from 1.
    Line(u64),
    /// Those of this key.
    Key(&'static str),
    /// None by itself.
    Whole,
}

/// The lines of the text that the fault names, each with its number: the line itself, or those on which its key stands.
pub fn wrong_lines(alloc: Global, text: &[u8], fault: &TextFault) -> Result<String, AllocError> {
    lines_that_are(alloc, text, wrong_of(fault))
}

/// The lines of the text on which a key stands, each with its number.
pub fn lines_of_key(alloc: Global, text: &[u8], key: &'static str) -> Result<String, AllocError> {
    lines_that_are(alloc, text, Wrong::Key(key))
}

fn lines_that_are(alloc: Global, text: &[u8], wrong: Wrong) -> Result<String, AllocError> {
    let mut lines = Text::new(alloc);
    let text = from_utf8(text).unwrap_or("");
    let mut number = 0u64;
    for line in text.split('\n') {
        number = number.saturating_add(1);
        let line = line.trim();
        let is_wrong = match wrong {
            Wrong::Line(at) => at == number,
            Wrong::Key(key) => has_key(line, key),
            Wrong::Whole => false,
        };
        if is_wrong {
            lines.add_number("line ", number);
            lines.add(": ");
            lines.add(line);
            lines.add("\n");
        }
    }
    lines.finish()
}

/// Which lines a fault names.
fn wrong_of(fault: &TextFault) -> Wrong {
    match fault {
        TextFault::Conf(
            ConfFault::BadLine { line }
            | ConfFault::ExtraClose { line }
            | ConfFault::TooDeep { line },
        ) => Wrong::Line(*line),
        TextFault::Conf(
            ConfFault::Unclosed | ConfFault::NotText | ConfFault::TooLong | ConfFault::NoMemory,
        ) => Wrong::Whole,
        TextFault::Settings(fault) => match key_of(fault) {
            Some(key) => Wrong::Key(key),
            None => Wrong::Whole,
        },
    }
}

/// The name of the key that a fault of settings speaks of.
fn key_of(fault: &SettingsFault) -> Option<&'static str> {
    match fault {
        SettingsFault::Unsupported { key } | SettingsFault::BadNumber { key } => Some(Key::name(
            *key,
        )),
        SettingsFault::WrongProvider => Some("provider"),
        SettingsFault::RepeatedId { .. } => Some("nodeid"),
        SettingsFault::NoVotes | SettingsFault::LmsVotes { .. } => Some("quorum_votes"),
        SettingsFault::ExpectedZero => Some("expected_votes"),
        SettingsFault::TwoNodeCount | SettingsFault::TwoNodeVotes | SettingsFault::TwoNodeDevice =>
            Some("two_node"),
        SettingsFault::TieDevice | SettingsFault::TieTwoNode => Some("auto_tie_breaker"),
        SettingsFault::BadTieNode => Some("auto_tie_breaker_node"),
        SettingsFault::NoId { .. } | SettingsFault::NoNodes | SettingsFault::TooManyNodes => None,
    }
}

/// Whether a line is of this key.
fn has_key(line: &str, key: &str) -> bool {
    match line.split_once(':') {
        Some((name, _)) => name.trim() == key,
        None => false,
    }
}
