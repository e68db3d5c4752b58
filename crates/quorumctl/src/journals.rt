//! `history`: what the journals of the nodes tell, in the order of time.
use crate::trouble::{Trouble, say};
use qn_control::History;
use qn_usage::{IS_TYPED, QUORUMCTL, file_of, is_typed};
use std::alloc::Global;
use std::fs::File;
use std::io::Read;
use std::rt::Files;

/// How many bytes are read at a time.
const PIECE: usize = 4096;

/// The most bytes of a line that is looked at: those of a node have up to 512, and a log writes more before them.
const MOST_LINE_BYTES: usize = 4096;

/// `history`: the words are those of the command. Without a file standard input is read.
pub fn history<R: Files<File = File> + Input + Print + Eprint + AllocGlobal>(
    rt: &R,
    words: &[String],
) -> Result<u8, Trouble> {
    let mut history = History::new(rt.alloc());
    if file_of(QUORUMCTL.commands, words, 0).is_none() {
        if is_typed(rt) {
            let _ = eprintln!(rt; "quorumctl: a journal {IS_TYPED}");
        }
        read_journal(rt.alloc(), &mut rt.reader(), &mut history)?;
    }
    for number in 0..words.len() {
        let Some(path) = file_of(QUORUMCTL.commands, words, number) else {
            break;
        };
        read_file(rt, path, &mut history)?;
    }
    say(rt, history.text()?.as_str())?;
    Ok(0)
}

/// Reads the journal in the file of that path.
fn read_file<R: Files<File = File> + AllocGlobal>(
    rt: &R,
    path: &str,
    history: &mut History,
) -> Result<(), Trouble> {
    let alloc = rt.alloc();
    let mut file = match File::open(rt, path) {
        Ok(file) => file,
        Err(error) => return Err(Trouble::of_file(alloc, path, error)),
    };
    history.begin_journal();
    match read_journal(alloc, &mut file, history) {
        Err(Trouble::Input(error)) => Err(Trouble::of_file(alloc, path, error)),
        ended => ended,
    }
}

/// The line of a journal that is being read.
#[derive(Drop)]
struct Line {
    bytes: Vec<u8>,
    /// Whether it is longer than a line that is looked at.
    is_long: bool,
}

/// Reads the lines of a journal.
fn read_journal<R: Read>(
    alloc: Global,
    reader: &mut R,
    history: &mut History,
) -> Result<(), Trouble> {
    let mut line = Line {
        bytes: Vec::new(alloc),
        is_long: false,
    };
    let mut piece = [0; PIECE];
    for _ in 0..u64::MAX {
        let count = reader.read(&mut piece).map_err(Trouble::Input)?;
        if count == 0 {
            break;
        }
        take_piece(alloc, &piece[..count], &mut line, history)?;
    }
    end_line(alloc, &mut line, history)
}

/// Takes the next bytes of a journal: they end lines, and begin one.
fn take_piece(
    alloc: Global,
    piece: &[u8],
    line: &mut Line,
    history: &mut History,
) -> Result<(), Trouble> {
    let mut is_first = true;
    for part in piece.split(|byte| *byte == b'\n') {
        if !is_first {
            end_line(alloc, line, history)?;
        }
        is_first = false;
        if part.len() > MOST_LINE_BYTES.saturating_sub(line.bytes.len()) {
            line.is_long = true;
        } else {
            line.bytes.extend_from_slice(part)?;
        }
    }
    Ok(())
}

/// The line is whole: takes it, and begins the next one.
fn end_line(alloc: Global, line: &mut Line, history: &mut History) -> Result<(), Trouble> {
    if !line.is_long {
        let text = String::from_utf8_lossy(alloc, line.bytes.as_slice())?;
        history.add(text.as_str())?;
    }
    line.bytes.clear();
    line.is_long = false;
    Ok(())
}
