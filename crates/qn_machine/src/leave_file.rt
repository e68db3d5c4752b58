//! A file with which the host of a node asks it to leave.
use qn_peers::LEAVE;
use std::fs::File;
use std::rt::Files;
use std::time::Clock;
use std::{fs, io};

/// Milliseconds between two looks for it.
const LOOK: u64 = 500;

/// What is handed to the node then: `QN`, a kind that no packet has, and 1.
pub(crate) const REQUEST: [u8; 4] = [b'Q', b'N', LEAVE, 1];

/// A file with which the host of a node asks it to leave, which is told once.
#[derive(Drop)]
pub(crate) struct LeaveFile {
    path: String,
    /// When it is looked for next, in milliseconds.
    next: u64,
    is_told: bool,
}

impl LeaveFile {
    /// The file of that path, which was not looked for yet.
    pub(crate) fn at(path: String) -> LeaveFile {
        LeaveFile {
            path,
            next: 0,
            is_told: false,
        }
    }

    /// Whether the file has come. It is looked for at most twice a second, and removed where it is; whether it could be removed or not, it is told once.
    pub(crate) fn has_come<R: Files<File = File> + Clock>(&mut self, rt: &R) -> io::Result<bool> {
        if self.is_told {
            return Ok(false);
        }
        let now = u64::try_from(rt.monotonic()?.as_millis()).unwrap_or(u64::MAX);
        if now < self.next {
            return Ok(false);
        }
        self.next = now.saturating_add(LOOK);
        if fs::metadata(rt, self.path.as_str()).is_err() {
            return Ok(false);
        }
        self.is_told = true;
        let _ = fs::remove_file(rt, self.path.as_str());
        Ok(true)
    }
}
