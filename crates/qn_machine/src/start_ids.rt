//! What tells the starts of a node apart: its machine, the boot of that machine, and the start itself.

use crate::named_file::NamedFile;
use crate::reported::reported;
use arrayvec::ArrayVec;
use qn_exchange::read_again;
use std::fs::File;
use std::io::{self, ErrorKind};
use std::rt::Files;

/// Where a machine has its name, by machine-id(5).
const MACHINE: &str = "/etc/machine-id";

/// Where the kernel has that of its boot, and gives another one at each reading (random(4)).
const BOOT: &str = "/proc/sys/kernel/random/boot_id";

const START: &str = "/proc/sys/kernel/random/uuid";

/// How many bytes an identifier has at most.
pub(crate) const MOST_ID: usize = 36;

/// How many it has at least.
const LEAST_ID: usize = 32;

/// An identifier: hexadecimal digits, perhaps with dashes.
pub(crate) type Id = ArrayVec<u8, MOST_ID>;

/// What tells a start of a node apart.
#[derive(Drop)]
pub(crate) struct StartIds {
    pub(crate) machine: Id,
    pub(crate) boot: Id,
    pub(crate) start: Id,
}

impl StartIds {
    /// Those of a start that is now. Of the first that cannot be read a line on standard error says why.
    pub(crate) fn read<R: Files<File = File>, E: Eprint>(
        rt: &R,
        errors: &E,
    ) -> io::Result<StartIds> {
        Ok(StartIds {
            machine: id_in(rt, errors, MACHINE)?,
            boot: id_in(rt, errors, BOOT)?,
            start: id_in(rt, errors, START)?,
        })
    }
}

/// The identifier in a file.
fn id_in<R: Files<File = File>, E: Eprint>(rt: &R, errors: &E, path: &str) -> io::Result<Id> {
    reported(errors, path, read_id(rt, path)).map_err(|_| io::Error::new(
        ErrorKind::NotFound,
        "nothing tells this start of the node apart",
    ))
}

fn read_id<R: Files<File = File>>(rt: &R, path: &str) -> io::Result<Id> {
    let opened = NamedFile::open_to_read(rt, path)?;
    let mut bytes = [0; MOST_ID + 1];
    let count = read_again(&mut &opened.file, &mut bytes)?;
    let read = bytes.split_at(count).0;
    let id = read.strip_suffix(b"\n").unwrap_or(read);
    let is_id = id.len() >= LEAST_ID
        && id
            .iter()
            .all(|byte| byte.is_ascii_hexdigit() || *byte == b'-');
    let mut kept = Id::new();
    if !is_id || kept.try_extend_from_slice(id).is_err() {
        return Err(io::Error::new(ErrorKind::InvalidData, "no identifier"));
    }
    Ok(kept)
}
