//! How both programs begin, and the exit statuses that they share where they come to no command.
use std::env;
use std::io::ErrorKind;
use std::rt::Env;

/// The exit status for words that are no command.
pub const USAGE: u8 = 2;

/// The exit status where standard output cannot be written.
pub const WRITE_FAULT: u8 = 7;

/// The exit status of a program that is out of memory.
pub const NO_MEMORY: u8 = 11;

/// The words after the program's name, or the status to end with: that of no command for a word that is no UTF-8.
#[inline(never)]
pub fn words_given(rt: &(impl Env + AllocGlobal)) -> Result<Vec<String>, u8> {
    let mut all = env::args(rt).map_err(|error| match error.kind() {
        ErrorKind::InvalidData => USAGE,
        _ => NO_MEMORY,
    })?;
    let _program = all.next();
    all.collect(rt.alloc()).map_err(|_| NO_MEMORY)
}
