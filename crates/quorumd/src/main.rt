//! The program `quorumd`: it makes the words, standard input, standard output and the outside of a node, calls
//! `top` on them and ends with its status. Everything that it promises stands on `top`.
//!
//! The words before the command, and the files that they name, are read here, and `top` is handed the rest: where one is wrong, a line on
//! standard error says so and the status is 2. It is 2 also for a word that is no UTF-8, and 11 where there is no memory for the words or
//! the files; nothing is written then. The words `--help`, `-h` and `--version` are answered here, and `--help` behind a command. After a status 2 of
//! `top` a line on standard error says which word was not taken, and after another fault what mends it.
#![tactic(auto)]

mod advice;
mod before;
mod edge;
mod last_line;
mod same_text;

use advice::Advice;
use before::{Before, WordFault, is_running};
use edge::edge_of;
use last_line::LastLine;
use qn_base::read_decimal;
use qn_io::put_all;
use qn_journal::{Journal, NodeNames, OnErrors};
use qn_machine::{Edge, Lines, RealEnv, ReplacedFile, StdSink, StdSource, SteadyHost};
use qn_top::top;
use qn_usage::{
    IS_TYPED, NO_MEMORY, QUORUMCTL, QUORUMD, Refusal, USAGE, WRITE_FAULT, command_help, help_text,
    hint_of, is_typed, overview, refusal_of, version_text, words_given,
};
use same_text::{SameText, Text};
use std::fs::File;
use std::process::{self, ExitCode};
use std::rt::{Env, Files};
use std::{env, io};

/// The name of the program.
const PROGRAM: &str = "quorumd";

fn main(rt: HostRuntime) -> ExitCode {
    let words = match words_given(&rt) {
        Ok(words) => words,
        Err(status) => return ExitCode::from(status),
    };
    if let Some(status) = answer_about(&rt, words.as_slice()) {
        return ExitCode::from(status);
    }
    match before_command(&rt, words.as_slice()) {
        Ok((outside, words)) => ExitCode::from(run(&rt, outside, words)),
        Err(status) => ExitCode::from(status),
    }
}

/// Calls `top` on these words, and gives the status to end with. Of what stands on the stack while a command runs this frame has the most:
/// what was read before has others, which are gone then.
#[inline(never)]
fn run(rt: &HostRuntime, said: Outside, words: &[String]) -> u8 {
    let host = SteadyHost::new(rt);
    let lines = Lines::new(id_in(words), is_in_journal(rt));
    let input = StdSource::new(rt.reader(), lines.over(rt));
    let mut input = SameText::new(input, lines.over(rt), said.text);
    let mut out = LastLine::new(StdSink::new(io::writer(rt), lines.over(rt)));
    let mut env = RealEnv::new(SteadyHost::new(rt), said.edge, &lines);
    let mut journal = journal_of(
        &host,
        process::id(rt.process()),
        &lines,
        &said.files,
        names_of(&said.names),
    );
    say_what_is_typed(rt, words);
    let status = top(
        rt.alloc(),
        words,
        &mut input,
        &mut out,
        &mut env,
        &mut journal,
    );
    if status == USAGE {
        say_what_is_wrong(rt, words);
    } else if status != WRITE_FAULT {
        say_what_mends(rt, words, out.fault());
    }
    status
}

/// The names of the nodes, none where no text says them.
fn names_of(names: &Option<Vec<Option<String>>>) -> NodeNames<'_> {
    match names {
        Some(names) => NodeNames::new(names.as_slice()),
        None => NodeNames::new(&[]),
    }
}

/// The journal of a node, of the process of that number, with the files of these paths and these names of the nodes.
#[inline(never)]
fn journal_of<'a, 'host>(
    host: &'a SteadyHost<'host>,
    pid: u32,
    lines: &'a Lines,
    files: &'a NodeFiles,
    names: NodeNames<'a>,
) -> Journal<'a, SteadyHost<'host>, OnErrors<'a, SteadyHost<'host>>> {
    let status = files.status.as_ref().map(String::as_str);
    let group = files.group.as_ref().map(String::as_str);
    Journal::new(
        host,
        lines,
        OnErrors::new(host, lines),
        status.and_then(ReplacedFile::at),
        group,
        names,
        pid,
    )
}

/// Whether standard error goes to systemd's journal.
#[inline(never)]
fn is_in_journal(rt: &(impl Env + AllocGlobal)) -> bool {
    env::var(rt, "JOURNAL_STREAM").is_ok()
}

/// The paths of the status file, which can be one, and of the file in which a supervisor says how the group is.
#[derive(Drop)]
struct NodeFiles {
    status: Option<String>,
    group: Option<String>,
}

/// What the words before the command say of the outside, of the files of a node, and the settings text that is to come on standard input.
#[derive(Drop)]
struct Outside {
    edge: Edge,
    files: NodeFiles,
    text: Option<Text>,
    /// How the nodes are called, by rank, where a text says it.
    names: Option<Vec<Option<String>>>,
}

/// What the words before the command say, and the words after them; or the status to end with.
#[inline(never)]
fn before_command<'words, R: Files<File = File> + AllocGlobal + Eprint>(
    rt: &R,
    words: &'words [String],
) -> Result<(Outside, &'words [String]), u8> {
    let before = Before::read(words).map_err(|fault| refuse_words(rt, fault))?;
    if let Some(path) = before.status {
        check_status(rt, path)?;
    }
    let files = NodeFiles {
        status: owned(rt, before.status)?,
        group: owned(rt, before.group)?,
    };
    let count = before.count.min(words.len());
    let words = words.split_at(count).1;
    let command = words.first().map_or("", String::as_str);
    let (edge, text) = edge_of(rt, &before, words)?;
    let (text, names) = match text.filter(|_| is_running(command)) {
        Some(named) => (Some(named.text), Some(named.names)),
        None => (None, None),
    };
    let outside = Outside {
        edge,
        files,
        text,
        names,
    };
    Ok((outside, words))
}

/// A copy of a path, where there is one; or the status to end with.
fn owned(rt: &impl AllocGlobal, path: Option<&str>) -> Result<Option<String>, u8> {
    match path {
        Some(path) => match String::from_str(rt.alloc(), path) {
            Ok(path) => Ok(Some(path)),
            Err(_) => Err(NO_MEMORY),
        },
        None => Ok(None),
    }
}

/// Whether the status can be put into a file of that path, where nothing but a file is replaced; or the status to end with.
fn check_status<R: Files<File = File> + Eprint>(rt: &R, path: &str) -> Result<(), u8> {
    let Some(file) = ReplacedFile::at(path) else {
        return Err(refuse_words(rt, WordFault::StatusPath));
    };
    if file.is_clear(rt) {
        return Ok(());
    }
    let _ = eprintln!(rt;
        "{PROGRAM}: {path}: the status file is neither absent nor a regular file"
    );
    Err(USAGE)
}

/// Says what is wrong with the words before the command, and gives the status to end with.
fn refuse_words<E: Eprint>(errors: &E, fault: WordFault<'_>) -> u8 {
    let _ = eprintln!(errors; "{PROGRAM}: {fault}");
    USAGE
}

/// The id that the words of a command name, 0 where they name none: lines of a node begin with it.
fn id_in(words: &[String]) -> u32 {
    let name = words.iter().position(|word| word.as_str() == "--id");
    let value = name.and_then(|name| words.get(name.saturating_add(1)));
    let id = value.and_then(|value| read_decimal(value.as_str().as_bytes()));
    id.and_then(|id| u32::try_from(id).ok()).unwrap_or(0)
}

/// Answers what is asked about the program itself, with the status to end with; None where the words ask for something else.
#[inline(never)]
fn answer_about(rt: &(impl Print + Eprint + AllocGlobal), words: &[String]) -> Option<u8> {
    let text = match words {
        [word] if is_help(word.as_str()) => help_text(rt.alloc(), &QUORUMD),
        [word] if word.as_str() == "--version" => version_text(rt.alloc(), &QUORUMD),
        [name, word] if is_help(word.as_str()) => {
            let command = QUORUMD.command(name.as_str())?;
            command_help(rt.alloc(), &QUORUMD, &command)
        }
        _ => return None,
    };
    let Ok(text) = text else {
        return Some(NO_MEMORY);
    };
    let mut out = StdSink::new(io::writer(rt), rt);
    match put_all(&mut out, text.as_str().as_bytes()) {
        Ok(()) => Some(0),
        Err(_) => Some(WRITE_FAULT),
    }
}

/// Whether a word asks what the program or a command is.
fn is_help(word: &str) -> bool {
    word == "--help" || word == "-h"
}

/// Says on standard error that a command reads from a terminal, where it does; that it cannot be said is no fault.
#[inline(never)]
fn say_what_is_typed<R: Files<File = File> + Eprint>(rt: &R, words: &[String]) {
    let name = words.first().map_or("", String::as_str);
    let Some(command) = QUORUMD.command(name) else {
        return;
    };
    let reads = command.reads;
    if !reads.is_empty() && is_typed(rt) {
        let _ = eprintln!(rt; "{PROGRAM}: {reads} {IS_TYPED}");
    }
}

/// Says on standard error which word was not taken, and what was meant perhaps; that it cannot be said is no fault.
#[inline(never)]
fn say_what_is_wrong(rt: &(impl Eprint + AllocGlobal), words: &[String]) {
    let refusal = match refusal_of(QUORUMD.commands, words) {
        Some(Refusal::Empty) => {
            say_commands(rt);
            return;
        }
        Some(refusal) => refusal,
        None => {
            let _ = eprintln!(rt; "{PROGRAM}: these words are no command");
            return;
        }
    };
    let hint = hint_of(rt.alloc(), &QUORUMD, &QUORUMCTL, &refusal);
    let _ = eprintln!(rt; "{PROGRAM}: {refusal}{hint}");
}

/// Says on standard error what mends a fault, where that is known; that it cannot be said is no fault.
#[inline(never)]
fn say_what_mends<'said>(rt: &impl Eprint, words: &'said [String], fault: &'said str) {
    if let Some(advice) = Advice::of(words, fault) {
        let _ = eprintln!(rt; "{PROGRAM}: {advice}");
    }
}

/// Says on standard error which commands there are; that it cannot be said is no fault.
fn say_commands(rt: &(impl Eprint + AllocGlobal)) {
    if let Ok(text) = overview(rt.alloc(), &QUORUMD) {
        let text = text.as_str();
        let _ = eprintln!(rt; "{PROGRAM}: {text}");
    }
}
