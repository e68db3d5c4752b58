//! What keeps a command from its work.
use qn_usage::{NO_MEMORY, WRITE_FAULT, remedy_of};
use std::alloc::{AllocError, AllocFailed, Global};
use std::{fmt, io};

/// What keeps a command from its work; each has a status of its own, which are those of `quorumd`.
#[derive(Drop)]
pub enum Trouble {
    /// Standard input cannot be read.
    Input(io::Error),
    /// Standard output cannot be written.
    Output(io::Error),
    /// The file or the image of this word cannot be opened or read.
    File(String, io::Error),
    /// The clock cannot be read, or no time be waited for.
    System(io::Error),
    /// The line of this number on standard input is not taken, for this reason.
    Line(u64, &'static str),
    /// No node writes a status file on this host.
    NoNode,
    /// Out of memory.
    NoMemory,
}

impl Trouble {
    /// What keeps the file or the image of that word from being opened or read.
    pub fn of_file(alloc: Global, word: &str, error: io::Error) -> Trouble {
        match String::from_str(alloc, word) {
            Ok(word) => Trouble::File(word, error),
            Err(_) => Trouble::NoMemory,
        }
    }

    /// The exit status.
    pub fn status(&self) -> u8 {
        match self {
            Trouble::Line(..) => 4,
            Trouble::Input(_) => 6,
            Trouble::Output(_) => WRITE_FAULT,
            Trouble::File(..) | Trouble::System(_) | Trouble::NoNode => 8,
            Trouble::NoMemory => NO_MEMORY,
        }
    }
}

impl fmt::Display for Trouble {
    fn fmt<W: fmt::Write>(&self, f: &mut fmt::Formatter<W>) -> fmt::Result {
        match self {
            Trouble::Input(error) => write!(f, "standard input: {error}"),
            Trouble::Output(error) => write!(f, "standard output: {error}"),
            Trouble::File(word, error) => {
                let remedy = remedy_of(error.kind());
                write!(f, "{word}: {error}{remedy}")
            }
            Trouble::System(error) => write!(f, "{error}"),
            Trouble::Line(number, why) => write!(f, "standard input: line {number}: {why}"),
            Trouble::NoNode => f.write_str(
                "no node was started on this host since its boot: systemctl status 'quorumd@*'",
            ),
            Trouble::NoMemory => write!(f, "out of memory"),
        }
    }
}

impl From<AllocError> for Trouble {
    fn from(_error: AllocError) -> Trouble {
        Trouble::NoMemory
    }
}

impl<T: Drop> From<AllocFailed<T>> for Trouble {
    fn from(_failed: AllocFailed<T>) -> Trouble {
        Trouble::NoMemory
    }
}

/// Writes a text to standard output.
pub fn say(rt: &impl Print, text: &str) -> Result<(), Trouble> {
    print!(rt; "{text}").map_err(Trouble::Output)
}
