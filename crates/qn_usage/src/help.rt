//! What a program says of itself.
use crate::program::{Program, VERSION};
use crate::synopsis::Synopsis;
use std::alloc::{AllocError, Global};
use std::fmt::Write;

/// What an image may be, wherever a command takes one.
const IMAGE: &str =
    "an image is a file's PATH, nbd:HOST:PORT, nbd:HOST:PORT/NAME, nbd:unix:PATH or nbd:unix:PATH:exportname=NAME, \
                     each perhaps with @4096 after it, or etcd:HOST:PORT/PREFIX";

/// What `--help` writes: what the program is, two lines a command, what an image may be, and the words that may stand before each command,
/// where it has some.
pub fn help_text(alloc: Global, program: &Program) -> Result<String, AllocError> {
    let mut text = String::new(alloc);
    add_help(&mut text, program)?;
    Ok(text)
}

fn add_help(text: &mut String, program: &Program) -> Result<(), AllocError> {
    let (name, is, before) = (program.name, program.is, program.before);
    write!(text, "{name} {VERSION}: {is}\n")?;
    for command in program.commands {
        write!(text, "\n")?;
        add_command(text, name, command)?;
    }
    write!(text, "\n{IMAGE}\n")?;
    if !before.is_empty() {
        write!(text, "\n{name} {before} COMMAND ..\n")?;
    }
    write!(text, "\n{name} --help | -h | --version\n")
}

/// Adds the two lines of a command.
fn add_command(text: &mut String, program: &str, command: &Synopsis) -> Result<(), AllocError> {
    let line = command.line;
    let reads = command.reads;
    let does = command.does;
    let less = if reads.is_empty() { "" } else { " < " };
    write!(text, "{program} {line}{less}{reads}\n    {does}\n")
}

/// What `--help` behind a command writes: its two lines, an example, and what an image may be where it takes one.
pub fn command_help(
    alloc: Global,
    program: &Program,
    command: &Synopsis,
) -> Result<String, AllocError> {
    let mut text = String::new(alloc);
    add_command_help(&mut text, program.name, command)?;
    Ok(text)
}

fn add_command_help(
    text: &mut String,
    program: &str,
    command: &Synopsis,
) -> Result<(), AllocError> {
    let example = command.example;
    add_command(text, program, command)?;
    write!(text, "for example:\n    {example}\n")?;
    if command.option("--image").is_some() {
        write!(text, "{IMAGE}\n")?;
    }
    Ok(())
}

/// What is said where there is no command: a line a command, without a line feed at the end.
pub fn overview(alloc: Global, program: &Program) -> Result<String, AllocError> {
    let mut text = String::new(alloc);
    add_overview(&mut text, program)?;
    Ok(text)
}

fn add_overview(text: &mut String, program: &Program) -> Result<(), AllocError> {
    let name = program.name;
    write!(text, "there is no command; the commands are\n")?;
    for command in program.commands {
        let (command, does) = (command.name(), command.does);
        write!(text, "    {command}: {does}\n")?;
    }
    write!(
        text,
        "{name} COMMAND --help has the words of one and an example, {name} --help those of all"
    )
}

/// What `--version` writes.
pub fn version_text(alloc: Global, program: &Program) -> Result<String, AllocError> {
    let name = program.name;
    format!(in alloc; "{name} {VERSION}\n")
}
