//! Lines on standard error that nobody waits for.
use crate::journal_lines::dropped_line;
use crate::voices::Voices;
use crate::waiting::Waiting;
use arrayvec::ArrayVec;
use qn_event::{EventLine, Level, Moment};
use std::cell::Cell;
use std::fmt::{Display, Write};
use std::net::Net;
use std::time::Clock;
use std::{fmt, io};

/// The most bytes that are written at once: a line that says how many were dropped, and one more.
const SAID: usize = 1024;

/// The most bytes of a line of the system's own words, without its end.
const WORDS: usize = 800;

/// Says lines on standard error. A line for which that has no room, as a pipe that nobody reads, is dropped and counted, and so is one
/// that cannot be written; the next one that has room says how many these were, in one write with it. Standard error is asked before each
/// line, so that a line does not wait; a file on a disk that hangs can still hold it up, and so can another program that fills the same
/// pipe between the question and the line.
#[derive(Drop)]
pub struct Lines {
    /// The id of the node, 0 where none is named.
    node: u32,
    /// Whether a line begins with its level, which systemd takes off and keeps (sd-daemon(3)).
    has_levels: bool,
    /// None: standard error is a file, or nothing can be asked; a line is written at once.
    room: Cell<Option<Waiting>>,
    tick: Cell<u64>,
    /// How many lines were dropped since the last one that was written, and in all.
    untold: Cell<u64>,
    dropped: Cell<u64>,
    /// How many datagrams were not handed on.
    refused: Cell<u64>,
    voices: Voices,
}

impl Lines {
    /// Lines of the node of that id, which are written at once, whether there is room or not.
    pub fn new(node: u32, has_levels: bool) -> Lines {
        Lines {
            node,
            has_levels,
            room: Cell::new(None),
            tick: Cell::new(0),
            untold: Cell::new(0),
            dropped: Cell::new(0),
            refused: Cell::new(0),
            voices: Voices::new(),
        }
    }

    /// What the node tells the others of itself, and what these told.
    pub fn voices(&self) -> &Voices {
        &self.voices
    }

    /// From now on no line waits, where the system can be asked for room.
    pub(crate) fn wait_for_nobody<R: Net + AllocGlobal>(&self, rt: &R) {
        self.room.set(Waiting::for_errors(rt).ok());
    }

    /// From now on lines are of that tick of the node's clock, in milliseconds.
    pub fn set_tick(&self, tick: u64) {
        self.tick.set(tick);
    }

    /// How many lines were dropped.
    pub fn dropped(&self) -> u64 {
        self.dropped.get()
    }

    /// One more datagram was not handed on.
    pub(crate) fn count_refused(&self) {
        self.refused.set(self.refused.get().saturating_add(1));
    }

    /// How many datagrams were not handed on.
    pub fn refused(&self) -> u64 {
        self.refused.get()
    }

    /// When a line is said: of which node, at which tick, and at which time of the system's clock, 0 where that cannot be read.
    pub fn moment<C: Clock>(&self, clock: &C) -> Moment {
        let time = clock.since_1970().map(|time| time.as_millis());
        Moment {
            node: self.node,
            tick: self.tick.get(),
            time: u64::try_from(time.unwrap_or(0)).unwrap_or(0),
        }
    }

    /// Says a line. That it cannot be written is no fault.
    pub fn say<R: Clock + Eprint>(&self, rt: &R, line: &EventLine) {
        self.write(rt, line.level(), line.head(), line.words());
    }

    /// The same lines as an output of errors, for the system's own words.
    pub fn over<'a, R: Clock + Eprint>(&'a self, rt: &'a R) -> LinesOver<'a, R> {
        LinesOver { lines: self, rt }
    }

    /// Writes a line of two parts, where there is room, and before it how many were dropped since the last one.
    fn write<R: Clock + Eprint>(&self, rt: &R, level: Level, first: &[u8], second: &[u8]) {
        if !self.has_room() {
            self.drop_line();
            return;
        }
        let mut said = Said::new();
        let untold = self.untold.get();
        if untold > 0 {
            let line = dropped_line(self.moment(rt), untold);
            said.line(self.has_levels, line.level(), line.head(), line.words());
        }
        said.line(self.has_levels, level, first, second);
        match rt.eprint(said.as_str()) {
            Ok(()) => self.untold.set(0),
            Err(_) => self.drop_line(),
        }
    }

    /// Counts a line that was dropped.
    fn drop_line(&self) {
        self.untold.set(self.untold.get().saturating_add(1));
        self.dropped.set(self.dropped.get().saturating_add(1));
    }

    /// Whether a line can be written without a wait.
    fn has_room(&self) -> bool {
        let Some(mut room) = self.room.replace(None) else {
            return true;
        };
        let has_room = room.has_room().unwrap_or(true);
        self.room.set(Some(room));
        has_room
    }
}

/// Lines that are written at once.
#[derive(Drop)]
struct Said {
    bytes: ArrayVec<u8, SAID>,
}

impl Said {
    fn new() -> Said {
        Said {
            bytes: ArrayVec::new(),
        }
    }

    /// Adds a line of two parts, with its level before it where that is wanted.
    fn line(&mut self, has_level: bool, level: Level, first: &[u8], second: &[u8]) {
        if has_level {
            self.add(&[b'<', b'0' + level.number(), b'>']);
        }
        self.add(first);
        self.add(second);
        self.add(b"\n");
    }

    fn add(&mut self, bytes: &[u8]) {
        let _ = self.bytes.try_extend_from_slice(bytes);
    }

    /// The lines, up to the first byte that is no text.
    fn as_str(&self) -> &str {
        let bytes = self.bytes.as_slice();
        match str::from_utf8(bytes) {
            Ok(text) => text,
            Err(error) => {
                let valid = bytes.split_at(error.valid_up_to().min(bytes.len())).0;
                str::from_utf8(valid).unwrap_or("")
            }
        }
    }
}

/// The system's own words while they are put together: a control, as the end of a line that a path has, stands as `%XX`, and what has no room
/// is left out.
#[derive(Drop)]
struct Words {
    bytes: ArrayVec<u8, WORDS>,
}

impl Words {
    fn add(&mut self, byte: u8) {
        let escaped = [
            b'%',
            HEX[usize::from(byte / 16)],
            HEX[usize::from(byte % 16)],
        ];
        let _ = if byte < 32 || byte == 127 {
            self.bytes.try_extend_from_slice(&escaped)
        } else {
            self.bytes.try_extend_from_slice(&[byte])
        };
    }
}

/// The digits of a number below 16.
const HEX: [u8; 16] = *b"0123456789ABCDEF";

impl fmt::Write for Words {
    fn write_str(&mut self, text: &str) -> fmt::Result {
        for byte in text.as_bytes() {
            self.add(*byte);
        }
        Ok(())
    }
}

/// Lines as an output of errors.
#[derive(Drop)]
pub struct LinesOver<'a, R: Clock + Eprint> {
    lines: &'a Lines,
    rt: &'a R,
}

impl<'a, R: Clock + Eprint> Eprint for LinesOver<'a, R> {
    fn eprint<D: Display + Drop>(&self, value: D) -> io::Result<()> {
        self.eprintln(value)
    }

    /// A line that was dropped is no failure.
    fn eprintln<D: Display + Drop>(&self, value: D) -> io::Result<()> {
        let mut words = Words {
            bytes: ArrayVec::new(),
        };
        let _ = write!(words, "{value}");
        self.lines
            .write(self.rt, Level::Warning, words.bytes.as_slice(), b"");
        Ok(())
    }
}
