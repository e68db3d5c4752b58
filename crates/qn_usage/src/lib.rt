//! The words that the commands of both programs take, and what is said of words that are no command.
//!
//! A program has a table of commands, each with a `Synopsis` that an operator and the program read alike. `refusal_of` finds the first
//! word that is not taken, and what it answers prints as one line; `hint_of` says what was meant perhaps. It decides nothing: what
//! `quorumd` takes is decided by `top`.
#![tactic(auto)]

mod help;
mod hint;
mod near;
mod program;
mod quorumctl;
mod quorumd;
mod refusal;
mod remedy;
mod statuses;
mod synopsis;
mod terminal;
mod values;
mod words;

pub use help::{command_help, help_text, overview, version_text};
pub use hint::{Hint, hint_of};
pub use program::Program;
pub use quorumctl::QUORUMCTL;
pub use quorumd::QUORUMD;
pub use refusal::{Refusal, file_of, refusal_of};
pub use remedy::remedy_of;
pub use statuses::{NO_MEMORY, USAGE, WRITE_FAULT, words_given};
pub use synopsis::{Synopsis, Takes};
pub use terminal::{IS_TYPED, is_typed};
pub use words::{has_word, value_of};
