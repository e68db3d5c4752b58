//! Whether somebody types what a program reads.
use std::fs::{self, File};
use std::os::unix::fs::{FileTypeExt, MetadataExt};
use std::rt::Files;

/// Standard input as a file, which is looked at and not opened.
const STANDARD_INPUT: &str = "/dev/stdin";

/// Whether standard input is a terminal.
pub fn is_typed<R: Files<File = File>>(rt: &R) -> bool {
    match fs::metadata(rt, STANDARD_INPUT) {
        Ok(input) => input.file_type().is_char_device() && is_of_terminal(input.rdev()),
        Err(_) => false,
    }
}

/// Whether a device number of Linux is one of a terminal: a console, a serial line, or the end of a pseudo terminal.
fn is_of_terminal(device: u64) -> bool {
    let major = device / 256 % 4096;
    matches!(major, 4 | 5 | 136..=143)
}

/// What is said where something is read from a terminal.
pub const IS_TYPED: &str = "is read from the terminal; Ctrl-D on a line of its own ends it";
