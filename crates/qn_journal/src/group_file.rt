//! The file in which the supervisor of this host's resources says how their group is: a word and a tick.
use qn_base::read_decimal;
use qn_shown::Group;
use std::fs::File;
use std::io::{self, Read};
use std::rt::Files;

/// More bytes than the file has: a word of 11 letters and a number of 20 digits.
const BYTES: usize = 64;

/// For how many milliseconds the word counts.
const FRESH: u64 = 3000;

/// How the group is at that tick of the host's clock, in milliseconds, by the file of that path: what its supervisor said at most three seconds ago.
pub(crate) fn group_of_file<R: Files<File = File>>(rt: &R, path: &str, tick: u64) -> Group {
    let mut bytes = [0; BYTES];
    let count = match read_front(rt, path, &mut bytes) {
        Ok(count) => count.min(BYTES),
        Err(_) => return Group::Unattended,
    };
    match said(&bytes[..count]) {
        Some((group, at)) if at.abs_diff(tick) <= FRESH => group,
        Some(_) | None => Group::Unattended,
    }
}

/// The first bytes of the file of that path, and how many these are.
fn read_front<R: Files<File = File>>(
    rt: &R,
    path: &str,
    bytes: &mut [u8; BYTES],
) -> io::Result<usize> {
    let mut file = File::open(rt, path)?;
    file.read(bytes)
}

/// The group and the tick that a text says: `WORD TICK` and the end of its line.
fn said(text: &[u8]) -> Option<(Group, u64)> {
    let space = text.iter().position(|byte| *byte == b' ')?;
    let (word, rest) = text.split_at(space.min(text.len()));
    let number = rest.strip_prefix(b" ")?.strip_suffix(b"\n")?;
    let group = Group::of_name(str::from_utf8(word).ok()?)?;
    Some((group, read_decimal(number)?))
}
