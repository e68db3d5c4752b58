//! What an operator meant perhaps, where words are no command.
use crate::near::Nearest;
use crate::program::Program;
use crate::refusal::Refusal;
use crate::synopsis::{Synopsis, bare};
use std::alloc::Global;
use std::fmt;

/// What was meant perhaps. It prints behind a refusal, on the same line.
#[derive(Clone, Copy)]
pub enum Hint {
    /// Nothing is known.
    Nothing,
    /// This name, to which the word is near.
    Near(&'static str),
    /// A command of this other program.
    Elsewhere(&'static str),
    /// A word that stands before the command.
    Before,
    /// An option of a command, which stands first.
    CommandFirst,
    /// A command, which this program lists.
    Listed(&'static str),
}

impl fmt::Display for Hint {
    fn fmt<W: fmt::Write>(&self, f: &mut fmt::Formatter<W>) -> fmt::Result {
        match self {
            Hint::Nothing => Ok(()),
            Hint::Near(name) => write!(f, "; did you mean {name}?"),
            Hint::Elsewhere(program) => write!(f, "; it is a command of {program}"),
            Hint::Before => f.write_str("; it stands before the command"),
            Hint::CommandFirst => f.write_str("; a command stands before its options"),
            Hint::Listed(program) => write!(f, "; {program} --help lists the commands"),
        }
    }
}

/// What was meant perhaps by words that are no command of this program, beside which there is another one.
pub fn hint_of(alloc: Global, program: &Program, other: &Program, refusal: &Refusal<'_>) -> Hint {
    match refusal {
        Refusal::Unknown(word) => hint_at_command(alloc, program, other, word),
        Refusal::Word(word, synopsis) => hint_at_word(alloc, program, synopsis, word),
        Refusal::Empty | Refusal::Lacks(..) | Refusal::LacksValue(..) | Refusal::LacksOperand(_) =>
            Hint::Nothing,
    }
}

/// The same of a first word that is no command.
fn hint_at_command(alloc: Global, program: &Program, other: &Program, word: &str) -> Hint {
    if other.command(word).is_some() {
        return Hint::Elsewhere(other.name);
    }
    let mut nearest = Nearest::to(word);
    for command in program.commands {
        nearest.look_at(alloc, command.name());
    }
    look_at_options(alloc, program.before, &mut nearest);
    match nearest.name() {
        Some(name) => Hint::Near(name),
        None if word.starts_with("--") => Hint::CommandFirst,
        None => Hint::Listed(program.name),
    }
}

/// The same of a word that the command does not take.
fn hint_at_word(alloc: Global, program: &Program, synopsis: &Synopsis, word: &str) -> Hint {
    if has_option(program.before, word) {
        return Hint::Before;
    }
    if synopsis.option(word).is_some() {
        return Hint::Nothing;
    }
    let mut nearest = Nearest::to(word);
    if word.starts_with("--") {
        look_at_options(alloc, synopsis.line, &mut nearest);
    } else {
        look_at_values(alloc, synopsis.line, &mut nearest);
    }
    match nearest.name() {
        Some(name) => Hint::Near(name),
        None => Hint::Nothing,
    }
}

/// Looks at each option of a synopsis.
fn look_at_options(alloc: Global, line: &'static str, nearest: &mut Nearest<'_>) {
    for word in line.split_whitespace() {
        for one in bare(word).split('|') {
            if one.starts_with("--") {
                nearest.look_at(alloc, one);
            }
        }
    }
}

/// Looks at each word of a synopsis of which one alone may stand for a value.
fn look_at_values(alloc: Global, line: &'static str, nearest: &mut Nearest<'_>) {
    for word in line.split_whitespace() {
        let word = bare(word);
        if word.contains('|') && !word.starts_with("--") {
            for one in word.split('|') {
                nearest.look_at(alloc, one);
            }
        }
    }
}

/// Whether an option stands in a synopsis.
fn has_option(line: &str, name: &str) -> bool {
    name.starts_with("--") && line.split_whitespace().any(|word| bare(word) == name)
}
