//! A program and its commands.
use crate::synopsis::Synopsis;

/// The version of the programs.
pub const VERSION: &str = "0.1.0";

/// A program, as an operator and the program itself read its words.
#[derive(Clone, Copy)]
pub struct Program {
    /// What it is called.
    pub name: &'static str,
    /// What it is, in a few words.
    pub is: &'static str,
    /// The words that may stand before each command; empty where none may.
    pub before: &'static str,
    /// Its commands.
    pub commands: &'static [Synopsis],
}

impl Program {
    /// The command of this name; None where there is none.
    pub fn command(&self, name: &str) -> Option<Synopsis> {
        let mut commands = self.commands.iter();
        commands.find(|command| command.name() == name).copied()
    }
}
