//! The first word that is not taken.
use crate::synopsis::{Synopsis, Takes};
use crate::values::is_value;
use std::fmt;

/// Why words are no command of a program. It prints as one line.
#[derive(Clone, Copy, Drop)]
pub enum Refusal<'words> {
    /// There is no word.
    Empty,
    /// The first word is no command.
    Unknown(&'words str),
    /// This word is not taken by the command: it is no option of it, stands there a second time, is one too many, or is no value of what
    /// stands before it.
    Word(&'words str, Synopsis),
    /// This option is missing.
    Lacks(&'static str, Synopsis),
    /// The last word is an option, and its value, which may be this, is missing.
    LacksValue(&'static str, Synopsis),
    /// An operand is missing.
    LacksOperand(Synopsis),
}

impl fmt::Display for Refusal<'_> {
    fn fmt<W: fmt::Write>(&self, f: &mut fmt::Formatter<W>) -> fmt::Result {
        match self {
            Refusal::Empty => f.write_str("there is no command"),
            Refusal::Unknown(word) => write!(f, "{word:?} is no command"),
            Refusal::Word(word, synopsis) => {
                write!(f, "{word:?}")?;
                usage(f, "", " is not taken", synopsis)
            }
            Refusal::Lacks(name, synopsis) => usage(f, name, " is missing", synopsis),
            Refusal::LacksValue(kind, synopsis) => {
                usage(f, "a value is missing at the end, ", kind, synopsis)
            }
            Refusal::LacksOperand(synopsis) => usage(f, "a word is missing", "", synopsis),
        }
    }
}

/// Writes what is wrong, in two parts, and which words the command takes.
fn usage<W: fmt::Write>(
    f: &mut fmt::Formatter<W>,
    wrong: &str,
    more: &str,
    synopsis: &Synopsis,
) -> fmt::Result {
    let line = synopsis.line;
    write!(f, "{wrong}{more}; usage: {line}")
}

/// Why the words, which are those after the program's name, are none of these commands; None where nothing is found.
pub fn refusal_of<'words>(
    commands: &[Synopsis],
    words: &'words [String],
) -> Option<Refusal<'words>> {
    let [name, rest @ ..] = words else {
        return Some(Refusal::Empty);
    };
    for command in commands {
        if command.name() == name.as_str() {
            return refusal_by(command, rest);
        }
    }
    Some(Refusal::Unknown(name.as_str()))
}

/// The same of a command and the words behind its name.
fn refusal_by<'words>(command: &Synopsis, words: &'words [String]) -> Option<Refusal<'words>> {
    let mut rest = words;
    for number in 0..usize::MAX {
        let Some(kind) = command.operand(number) else {
            break;
        };
        match rest {
            [word, others @ ..] if is_value(kind, word.as_str()) => rest = others,
            [word, ..] => return Some(Refusal::Word(word.as_str(), *command)),
            [] => return Some(Refusal::LacksOperand(*command)),
        }
    }
    refusal_of_options(command, rest).or_else(|| lacking(command, rest))
}

/// The first of these words that is no option of the command, stands there a second time, or is no value of the option before it.
fn refusal_of_options<'words>(
    command: &Synopsis,
    words: &'words [String],
) -> Option<Refusal<'words>> {
    let mut before = Takes::Nothing;
    for (place, word) in words.iter().enumerate() {
        let word = word.as_str();
        let is_taken = match before {
            Takes::Value(kind) => {
                before = Takes::Nothing;
                is_value(kind, word)
            }
            Takes::Nothing => {
                let takes = command.option(word);
                before = takes.unwrap_or(Takes::Nothing);
                match takes {
                    Some(_) => place_of(command, words, word) == Some(place),
                    None => command.takes_files() && !word.starts_with("--"),
                }
            }
        };
        if !is_taken {
            return Some(Refusal::Word(word, *command));
        }
    }
    match before {
        Takes::Nothing => None,
        Takes::Value(kind) => Some(Refusal::LacksValue(kind, *command)),
    }
}

/// The first option that the command needs and that does not stand among these words, or a file where it needs one.
fn lacking<'words>(command: &Synopsis, words: &'words [String]) -> Option<Refusal<'words>> {
    for number in 0..usize::MAX {
        let Some(name) = command.needed(number) else {
            break;
        };
        if place_of(command, words, name).is_none() {
            return Some(Refusal::Lacks(name, *command));
        }
    }
    if command.needs_file() && file_by(command, words, 0).is_none() {
        return Some(Refusal::LacksOperand(*command));
    }
    None
}

/// The file of this number, from 0, among the words of one of these commands of which `refusal_of` found none that is not taken.
pub fn file_of<'words>(
    commands: &[Synopsis],
    words: &'words [String],
    number: usize,
) -> Option<&'words str> {
    let [name, rest @ ..] = words else {
        return None;
    };
    let mut commands = commands.iter();
    let command = commands.find(|command| command.name() == name.as_str())?;
    file_by(command, rest, number)
}

/// The word of this number, from 0, that is no option and no value of one.
fn file_by<'words>(
    command: &Synopsis,
    words: &'words [String],
    number: usize,
) -> Option<&'words str> {
    let mut left = number;
    let mut is_value = false;
    for word in words {
        let takes = command.option(word.as_str());
        if !is_value && takes.is_none() {
            if left == 0 {
                return Some(word.as_str());
            }
            left -= 1;
        }
        is_value = !is_value && matches!(takes, Some(Takes::Value(_)));
    }
    None
}

/// The place among these words at which the option of this name, or one that is taken in its place, stands first, and is no value of
/// another one.
fn place_of(command: &Synopsis, words: &[String], name: &str) -> Option<usize> {
    let mut is_value = false;
    for (place, word) in words.iter().enumerate() {
        let is_option = !is_value;
        is_value = is_option && matches!(command.option(word.as_str()), Some(Takes::Value(_)));
        if is_option && command.is_either(word.as_str(), name) {
            return Some(place);
        }
    }
    None
}
