//! A line of a running node's journal, as text.
ghost use Rattle.std.specs.Prelude.{◌≡◌, ◌≤◌, ◌<◌, ◌+◌, ◌++◌, [], List, ℕ, All, length, decimal};
ghost use Rattle.qn_base.specs.Text.{yes_no};
ghost use Rattle.qn_event.specs.EventTexts.{IsLineByte, escape_of, hex_digit, is_value_byte};
ghost use Rattle.qn_event.specs.EventWords.{Stands, quoted_of, room_for, with_byte, with_key, with_plain_word, with_quoted, with_quoted_text, with_text, with_word};

use crate::event_name::EventName;
use crate::level::Level;
use crate::moment::{EVENT_HEAD, Moment};
use arrayvec::ArrayVec;
use qn_base::{write_decimal, yes_no};
use std::marker::Model;

/// The most bytes of a line from the name of its event on.
pub const EVENT_WORDS: usize = 384;

/// A line while it is put together: `quorumd: node=N tick=T time=S.mmm level=L event=E KEY=VALUE ..`, at most 511 bytes without its end.
/// Whatever its values are, they hold no byte that ends a line.
#[derive(Drop)]
pub struct EventLine {
    level: Level,
    head: ArrayVec<u8, EVENT_HEAD>,
    words: ArrayVec<u8, EVENT_WORDS>,
    ghost plain: { All IsLineByte words.items },
}

impl Model for EventLine {
    ghost use Rattle.qn_event.specs.EventTexts.{EventText};

    ghost Value = { EventText };

    ghost view = { λ l. record { level = l.level; head = l.head.items; words = l.words.items } };
}

impl EventLine {
    ghost use Rattle.qn_event.specs.EventLines.{head_of};
    ghost use Rattle.qn_event.specs.EventNames.{event_word};

    /// A line of that event and that level, with no words yet.
    pub fn new(at: Moment, level: Level, event: EventName) -> EventLine
        ensures begins { result.head ≡ head_of at level }
        ensures level { result.level ≡ level }
        ensures event { result.words ≡ with_text [] (length (event_word event)) (event_word event) }
    {
        let word = event.word().as_bytes();
        let mut line = EventLine {
            level,
            head: at.head(level),
            words: ArrayVec::new(),
        };
        line.escape(word, word.len());
        line
    }

    /// Adds a word at the end. What of the value is no byte of a value stands as `%XX`, and a value of more than `most` bytes is cut.
    #[tactic(auto, unfolding(crate::specs::EventWords::with_word))]
    pub fn word(&mut self, key: &[u8], value: &[u8], most: usize)
        ensures head { self.new.head ≡ self.old.head }
        ensures level { self.new.level ≡ self.old.level }
        ensures words { self.new.words ≡ with_word self.old.words key.now value.now most }
        ensures plain { Stands self.old.words key.now value.now most
            → self.new.words ≡ with_plain_word self.old.words key.now value.now }
    {
        self.key(key);
        self.escape(value, most);
    }

    /// Adds a word with a number.
    pub fn number(&mut self, key: &[u8], number: u64)
        ensures head { self.new.head ≡ self.old.head }
        ensures level { self.new.level ≡ self.old.level }
        ensures words { self.new.words ≡ with_word self.old.words key.now (decimal number) 384 }
    {
        let mut digits = ArrayVec::new();
        write_decimal(number, &mut digits);
        self.word(key, digits.as_slice(), EVENT_WORDS);
    }

    /// Adds a word that says `yes` or `no`.
    pub fn truth(&mut self, key: &[u8], truth: bool)
        ensures head { self.new.head ≡ self.old.head }
        ensures level { self.new.level ≡ self.old.level }
        ensures words { self.new.words ≡ with_word self.old.words key.now (yes_no truth) 384 }
    {
        self.word(key, yes_no(truth), EVENT_WORDS);
    }

    /// Adds a word whose value is in quotation marks, in which a space and a = stand for themselves; it is cut where the line has no room.
    #[tactic(auto, unfolding(crate::specs::EventWords::with_quoted))]
    pub fn quoted(&mut self, key: &[u8], value: &[u8])
        ensures head { self.new.head ≡ self.old.head }
        ensures level { self.new.level ≡ self.old.level }
        ensures words { self.new.words ≡ with_quoted self.old.words key.now value.now }
    {
        self.key(key);
        self.plain(b'"');
        self.quoted_text(value);
        self.plain(b'"');
    }

    /// The level of the line.
    pub fn level(&self) -> Level
        ensures { result ≡ self.now.level }
    {
        self.level
    }

    /// The line up to the name of its event.
    pub fn head(&self) -> &[u8]
        ensures value { result.now ≡ self.now.head }
        ensures fits { length result.now ≤ 127 }
    {
        self.head.as_slice()
    }

    /// The line from the name of its event on.
    pub fn words(&self) -> &[u8]
        ensures value { result.now ≡ self.now.words }
        ensures plain { All IsLineByte self.now.words }
        ensures fits { length result.now ≤ 384 }
    {
        self.words.as_slice()
    }

    /// Adds that byte, where there is room.
    fn plain(&mut self, byte: u8)
        requires { IsLineByte byte }
        ensures head { self.new.head ≡ self.old.head }
        ensures level { self.new.level ≡ self.old.level }
        ensures words { self.new.words ≡ with_byte self.old.words byte }
    {
        if !self.words.is_full() {
            self.words.push(byte);
        }
    }

    /// Adds what stands before a value.
    fn key(&mut self, key: &[u8])
        ensures head { self.new.head ≡ self.old.head }
        ensures level { self.new.level ≡ self.old.level }
        ensures words { self.new.words ≡ with_key self.old.words key.now }
    {
        self.plain(b' ');
        self.escape(key, key.len());
        self.plain(b'=');
    }

    /// Adds a text as a value says it, up to that many bytes, and whole characters alone.
    #[tactic(auto, unfolding(crate::specs::EventWords::with_text))]
    fn escape(&mut self, text: &[u8], most: usize)
        ensures head { self.new.head ≡ self.old.head }
        ensures level { self.new.level ≡ self.old.level }
        ensures words { self.new.words ≡ with_text self.old.words most text.now }
    {
        let end = self.words.len().saturating_add(most).min(EVENT_WORDS);
        for byte in text {
            if self.words.len() + room_for(*byte) > end {
                return;
            }
            self.value_byte(*byte);
        }
    }

    /// Adds a text as a value in quotation marks says it, as far as it has room.
    fn quoted_text(&mut self, text: &[u8])
        ensures head { self.new.head ≡ self.old.head }
        ensures level { self.new.level ≡ self.old.level }
        ensures words { self.new.words ≡ with_quoted_text self.old.words text.now }
    {
        for byte in text {
            if self.words.len() + 5 > EVENT_WORDS {
                return;
            }
            self.quoted_byte(*byte);
        }
    }

    /// Adds a byte as a value in quotation marks says it.
    fn quoted_byte(&mut self, byte: u8)
        requires { length self.old.words + 3 ≤ 384 }
        ensures head { self.new.head ≡ self.old.head }
        ensures level { self.new.level ≡ self.old.level }
        ensures adds { self.new.words ≡ self.old.words ++ quoted_of byte }
    {
        if byte == b' ' || byte == b'=' {
            self.plain(byte);
        } else {
            self.value_byte(byte);
        }
    }

    /// Adds a byte as a value says it.
    fn value_byte(&mut self, byte: u8)
        requires { length self.old.words + length (escape_of byte) ≤ 384 }
        ensures head { self.new.head ≡ self.old.head }
        ensures level { self.new.level ≡ self.old.level }
        ensures adds { self.new.words ≡ self.old.words ++ escape_of byte }
    {
        if is_value_byte(byte) {
            self.plain(byte);
            return;
        }
        self.plain(b'%');
        self.plain(hex_digit(byte / 16));
        self.plain(hex_digit(byte % 16));
    }
}

/// How much room a byte of a text wants: its own, that of `%XX`, or that of the longest character that it may begin.
fn room_for(byte: u8) -> usize
    ensures value { result ≡ room_for byte }
    ensures enough { length (escape_of byte) ≤ result }
    ensures little { result ≤ 4 }
{
    match byte {
        192.. => 4,
        _ if is_value_byte(byte) => 1,
        _ => 3,
    }
}

/// Whether a byte stands for itself in a value.
fn is_value_byte(byte: u8) -> bool
    ensures { result ≡ is_value_byte byte }
{
    byte >= 33 && byte != b'"' && byte != b'%' && byte != b'=' && byte != 127
}

/// The digit of a number below 16.
fn hex_digit(digit: u8) -> u8
    requires { digit < 16 }
    ensures value { result ≡ hex_digit digit }
    ensures letter { 48 ≤ result × result ≤ 70 }
{
    if digit <= 9 {
        b'0' + digit
    } else {
        b'A' + (digit - 10)
    }
}
