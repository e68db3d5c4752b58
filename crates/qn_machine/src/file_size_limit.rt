//! Whether the system ends this process at a file that grows.
ghost use Rattle.std.specs.Prelude.{◌≤◌, IfSome};

use crate::named_file::NamedFile;
use memchr::memmem;
use qn_exchange::read_again;
use std::fs::File;
use std::io;
use std::rt::Files;

/// Where the limits of this process stand (proc(5)).
const LIMITS: &str = "/proc/self/limits";

/// What the line of the greatest size of a file begins with.
const SIZE: &[u8] = b"Max file size";

/// The most bytes of the limits that are read.
const READ: usize = 4096;

/// Fails where a file of this process may not grow as it needs: at the limit the system ends the process by a signal, and the machine is
/// then reset. Where the limits cannot be read it goes on.
pub(crate) fn refuse_file_size_limit<R: Files<File = File>>(rt: &R) -> io::Result<()> {
    let mut text = [0; READ];
    let Some(count) = read_limits(rt, &mut text) else {
        return Ok(());
    };
    if is_limited(&text[..count]) {
        return Err(io::Error::other(
            "the size of a file is limited (ulimit -f), which would end this program",
        ));
    }
    Ok(())
}

/// The limits of this process, and how many bytes these are; None where they cannot be read.
fn read_limits<R: Files<File = File>>(rt: &R, text: &mut [u8; READ]) -> Option<usize>
    ensures { IfSome result (λ count. count ≤ 4096) }
{
    let opened = NamedFile::open_to_read(rt, LIMITS).ok()?;
    read_again(&mut &opened.file, text).ok()
}

/// Whether the line of the greatest size of a file says something else than `unlimited` after its name.
fn is_limited(text: &[u8]) -> bool {
    let Some(at) = memmem::find(text, SIZE) else {
        return false;
    };
    let line = text.split_at(at).1;
    let limit = line.split_at(SIZE.len()).1.trim_ascii_start();
    !limit.starts_with(b"unlimited")
}
