//! The status file of a node, read.
use qn_shown::{Shown, ShownFault, read_shown};
use std::alloc::AllocError;
use std::fs::{self, File};
use std::io::Read;
use std::rt::Files;
use std::str::from_utf8;
use std::{fmt, io};

/// The most bytes that a status file has.
const MOST_BYTES: usize = 65536;

/// How many bytes are read at a time.
const PIECE: usize = 4096;

/// Why a file is no status file.
#[derive(Drop)]
pub enum Refusal {
    /// It cannot be opened or read.
    System(io::Error),
    /// It is a folder, a pipe or a device.
    NotFile,
    TooLong,
    /// Its text says nothing of a node.
    Text(ShownFault),
    /// Out of memory.
    NoMemory,
}

impl fmt::Display for Refusal {
    fn fmt<W: fmt::Write>(&self, f: &mut fmt::Formatter<W>) -> fmt::Result {
        match self {
            Refusal::System(error) => write!(f, "{error}"),
            Refusal::NotFile => f.write_str("it is no file"),
            Refusal::TooLong => write!(f, "it has more than {MOST_BYTES} bytes"),
            Refusal::Text(fault) => write!(f, "{fault}"),
            Refusal::NoMemory => f.write_str("out of memory"),
        }
    }
}

impl From<AllocError> for Refusal {
    fn from(_error: AllocError) -> Refusal {
        Refusal::NoMemory
    }
}

/// Reads the status file of that path.
pub fn read_status_file<R: Files<File = File> + AllocGlobal>(
    rt: &R,
    path: &str,
) -> Result<Shown, Refusal> {
    let bytes = read_bytes(rt, path)?;
    let text = from_utf8(bytes.as_slice()).map_err(|_| Refusal::Text(ShownFault::NotJson))?;
    match read_shown(rt.alloc(), text) {
        Ok(shown) => Ok(shown),
        Err(ShownFault::NoMemory) => Err(Refusal::NoMemory),
        Err(fault) => Err(Refusal::Text(fault)),
    }
}

/// All bytes of a file.
fn read_bytes<R: Files<File = File> + AllocGlobal>(rt: &R, path: &str) -> Result<Vec<u8>, Refusal> {
    let is_file = fs::metadata(rt, path).map_err(Refusal::System)?.is_file();
    if !is_file {
        return Err(Refusal::NotFile);
    }
    let mut file = File::open(rt, path).map_err(Refusal::System)?;
    let mut bytes = Vec::new(rt.alloc());
    let mut piece = [0; PIECE];
    for _ in 0..=MOST_BYTES {
        let count = file.read(&mut piece).map_err(Refusal::System)?;
        if count == 0 {
            return Ok(bytes);
        }
        bytes.extend_from_slice(&piece[..count])?;
        if bytes.len() > MOST_BYTES {
            break;
        }
    }
    Err(Refusal::TooLong)
}
