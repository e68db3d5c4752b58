//! A text that is put together from its parts.
ghost use Rattle.std.specs.Prelude.{◌≤◌, ◌^◌};

use std::alloc::{AllocError, Global};
use std::fmt::{Display, Write};

/// A text that grows at its end. Once memory ran out it lacks a part, which `finish` says.
#[derive(Drop)]
pub(crate) struct Text {
    text: String,
    is_short: bool,
}

impl Text {
    /// A text without parts.
    pub(crate) fn new(alloc: Global) -> Text {
        Text {
            text: String::new(alloc),
            is_short: false,
        }
    }

    /// Adds a part.
    pub(crate) fn add(&mut self, part: &str) {
        if self.text.push_str(part).is_err() {
            self.is_short = true;
        }
    }

    /// Adds a value as it prints.
    pub(crate) fn add_value<T: Display>(&mut self, value: &T) {
        if write!(self.text, "{value}").is_err() {
            self.is_short = true;
        }
    }

    /// Adds a number after the words before it.
    pub(crate) fn add_number(&mut self, before: &str, number: u64) {
        self.add(before);
        self.add_value(&number);
    }

    /// Adds a number at the right of five columns, and a blank.
    pub(crate) fn add_right(&mut self, number: u64) {
        if write!(self.text, "{number:>5} ").is_err() {
            self.is_short = true;
        }
    }

    /// Adds milliseconds as seconds with one digit behind the point.
    pub(crate) fn add_seconds(&mut self, milliseconds: u64) {
        let tenths = tenths_of(milliseconds);
        self.add_number("", tenths / 10);
        self.add_number(".", tenths % 10);
    }

    /// The same at the right of five columns.
    pub(crate) fn add_seconds_right(&mut self, milliseconds: u64) {
        let tenths = tenths_of(milliseconds);
        let seconds = tenths / 10;
        if write!(self.text, "{seconds:>3}").is_err() {
            self.is_short = true;
        }
        self.add_number(".", tenths % 10);
    }

    /// Adds thousandths with three digits behind the point.
    pub(crate) fn add_thousandths(&mut self, thousandths: u64) {
        let rest = thousandths % 1000;
        self.add_number("", thousandths / 1000);
        if write!(self.text, ".{rest:03}").is_err() {
            self.is_short = true;
        }
    }

    /// Adds a truth as JSON, after what stands before it.
    pub(crate) fn add_truth(&mut self, before: &str, is_so: bool) {
        self.add(before);
        self.add(if is_so { "true" } else { "false" });
    }

    /// Adds a number as JSON, after what stands before it; null where there is none.
    pub(crate) fn add_number_or_null(&mut self, before: &str, number: Option<u64>) {
        match number {
            Some(number) => self.add_number(before, number),
            None => {
                self.add(before);
                self.add("null");
            }
        }
    }

    /// Adds a text as a string of JSON: the printable characters of ASCII as they are, the quote and the backslash behind a backslash, and
    /// any other by its units of UTF-16.
    pub(crate) fn add_string(&mut self, part: &str) {
        self.add("\"");
        for unit in part.encode_utf16() {
            self.add_unit(unit);
        }
        self.add("\"");
    }

    /// Adds a unit of UTF-16 of a string of JSON.
    fn add_unit(&mut self, unit: u16) {
        let added = match u8::try_from(unit) {
            Ok(byte) if byte == b'"' || byte == b'\\' => {
                self.add("\\");
                self.text.push(char::from(byte)).is_ok()
            }
            Ok(byte) if byte == b' ' || byte.is_ascii_graphic() => self
                .text
                .push(char::from(byte))
                .is_ok(),
            _ => write!(self.text, "\\u{unit:04x}").is_ok(),
        };
        self.is_short = self.is_short || !added;
    }

    /// Adds a text as the value of a label of Prometheus: the quote and the backslash behind a backslash, and the end of a line as `\n`.
    pub(crate) fn add_label(&mut self, part: &str) {
        for character in part.chars() {
            match character {
                '"' => self.add("\\\""),
                '\\' => self.add("\\\\"),
                '\n' => self.add("\\n"),
                character => self.add_value(&character),
            }
        }
    }

    /// Adds a text of a file of others: what is no printable ASCII character is escaped, and so is a backslash.
    pub(crate) fn add_foreign(&mut self, part: &str) {
        for c in part.chars() {
            self.add_character(c);
        }
    }

    fn add_character(&mut self, c: char) {
        let is_plain = c == ' ' || c.is_ascii_graphic() && c != '\\';
        let added = if is_plain {
            self.text.push(c).is_ok()
        } else {
            write!(self.text, "{}", c.escape_default()).is_ok()
        };
        self.is_short = self.is_short || !added;
    }

    /// The place of the next byte, which is its column in a line of ASCII characters.
    pub(crate) fn column(&self) -> usize {
        self.text.len()
    }

    /// Adds blanks until so many columns stand behind that place, and one blank at least.
    pub(crate) fn fill(&mut self, from: usize, width: usize) {
        let end = from.saturating_add(width);
        self.add(" ");
        for _ in self.text.len()..end {
            self.add(" ");
        }
    }

    /// The whole text; an error where memory ran out.
    pub(crate) fn finish(self) -> Result<String, AllocError> {
        let Text { text, is_short } = self;
        if is_short { Err(AllocError) } else { Ok(text) }
    }
}

/// The nearest number of tenths of a second.
fn tenths_of(milliseconds: u64) -> u64
    ensures { result ≤ 2 ^ 60 }
{
    milliseconds / 100 + milliseconds % 100 / 50
}
