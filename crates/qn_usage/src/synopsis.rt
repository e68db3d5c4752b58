//! What a command is called, and which words it takes.

/// A command, as it is printed and as it is read.
///
/// The line begins with the command's name. The words after it stand for operands, up to the first option. An option begins with two
/// dashes; the word after it stands for its value, and an option without one stands alone. Of options with a bar between them one is
/// taken. Brackets stand round what may be left out. Options come in any order, each at most once. `is_value` says what a word for a
/// value stands for. `FILE..` stands for files, before, between and behind the options: one at least, or with brackets any number.
#[derive(Clone, Copy)]
pub struct Synopsis {
    /// The words, without the name of the program.
    pub line: &'static str,
    /// What is read from standard input; empty where nothing is.
    pub reads: &'static str,
    /// What the command does, in a few words.
    pub does: &'static str,
    /// A command line with it, as an operator types it.
    pub example: &'static str,
}

/// What an option takes.
#[derive(Clone, Copy)]
pub enum Takes {
    /// Nothing: it stands alone.
    Nothing,
    /// A value, of which this word of the synopsis says what it may be.
    Value(&'static str),
}

/// The word of a synopsis that stands for files.
const FILES: &str = "FILE..";

impl Synopsis {
    /// The name of the command.
    pub fn name(&self) -> &'static str {
        self.line.split_whitespace().next().unwrap_or("")
    }

    /// What the operand of this number, from 0, may be; None where there are not so many.
    pub fn operand(&self, number: usize) -> Option<&'static str> {
        let (before, _options) = self.line.split_once("--").unwrap_or((self.line, ""));
        before
            .trim_end_matches('[')
            .split_whitespace()
            .skip(1)
            .filter(|word| bare(word) != FILES)
            .nth(number)
    }

    /// Whether the command takes files.
    pub fn takes_files(&self) -> bool {
        self.line.split_whitespace().any(|word| bare(word) == FILES)
    }

    /// Whether the command needs a file.
    pub fn needs_file(&self) -> bool {
        self.line.split_whitespace().any(|word| word == FILES)
    }

    /// What the option of this name takes; None where the command has no such option.
    pub fn option(&self, name: &str) -> Option<Takes> {
        let mut words = self.line.split_whitespace();
        let option = words.find(|word| has_option(word, name))?;
        match words.next() {
            Some(value) if !option.ends_with(']') && !is_option(value) => {
                Some(Takes::Value(bare(value)))
            }
            _ => Some(Takes::Nothing),
        }
    }

    /// Whether two words are options of the command of which one alone is taken: the same one, or two with a bar between them.
    pub fn is_either(&self, one: &str, other: &str) -> bool {
        self.line
            .split_whitespace()
            .any(|word| has_option(word, one) && has_option(word, other))
    }

    /// The option of this number, from 0, of those that the command needs; None where there are not so many.
    pub fn needed(&self, number: usize) -> Option<&'static str> {
        let mut left = number;
        for word in self.line.split_whitespace() {
            if word.starts_with("--") {
                if left == 0 {
                    return Some(word);
                }
                left -= 1;
            }
        }
        None
    }
}

/// Whether a word of a synopsis is this option, or has it beside others.
fn has_option(word: &str, name: &str) -> bool {
    is_option(word) && bare(word).split('|').any(|one| one == name)
}

/// Whether a word of a synopsis is an option, in brackets or not.
fn is_option(word: &str) -> bool {
    bare(word).starts_with("--")
}

/// A word of a synopsis without its brackets.
pub(crate) fn bare(word: &str) -> &str {
    word.trim_start_matches('[').trim_end_matches(']')
}
