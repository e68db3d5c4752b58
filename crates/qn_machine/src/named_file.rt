//! A file of the outside that is open, with the path that it was opened by.
ghost use Rattle.std.specs.Prelude.{◌+◌, ◌<◌, ◌≤◌, ◌^◌, IfOk, length, pos, ◌≤ℤ◌};
ghost use Rattle.std.specs.Fd.{file_raw_fd};

use arrayvec::ArrayString;
use qn_exchange::TRIES;
use std::fs::{self, File, OpenOptions};
use std::io::{self, ErrorKind, Write};
use std::os::fd::{AsRawFd, RawFd};
use std::os::unix::fs::FileExt;
use std::rt::Files;

/// The descriptors of standard input, standard output and standard error are below this one.
pub(crate) const FIRST_OF_A_FILE: RawFd = 3;

/// The most bytes of a path that the system opens.
const PATH: usize = 4096;

/// What becomes of an opening where nothing has that path.
#[derive(Clone, Copy, PartialEq, Eq)]
pub(crate) enum Absent {
    /// An empty file is made.
    Made,
    /// It fails.
    Refused,
}

/// A file that is open, never under the descriptor of a standard stream.
#[derive(Drop)]
pub(crate) struct NamedFile {
    pub(crate) file: File,
    path: ArrayString<PATH>,
    /// Whether it was made as it was opened.
    pub(crate) is_made: bool,
    ghost apart: { pos 3 ≤ℤ file_raw_fd file },
}

impl NamedFile {
    /// Opens the file of that path for reading and writing.
    pub(crate) fn open<R: Files<File = File>>(
        rt: &R,
        path: &str,
        absent: Absent,
    ) -> io::Result<NamedFile> {
        let mut options = OpenOptions::new();
        options.read(true).write(true);
        match NamedFile::open_with(rt, path, &options) {
            Err(error) if error.kind() == ErrorKind::NotFound && absent == Absent::Made => {
                options.create(true);
                let mut made = NamedFile::open_with(rt, path, &options)?;
                made.is_made = true;
                Ok(made)
            }
            done => done,
        }
    }

    /// Makes the file of that path, empty, and opens it for reading and writing. It fails where anything has the path, also a link.
    pub(crate) fn make<R: Files<File = File>>(rt: &R, path: &str) -> io::Result<NamedFile> {
        let mut options = OpenOptions::new();
        options.read(true).write(true).create_new(true);
        let mut made = NamedFile::open_with(rt, path, &options)?;
        made.is_made = true;
        Ok(made)
    }

    /// Opens the file of that path for reading alone, which fails where it is absent.
    pub(crate) fn open_to_read<R: Files<File = File>>(rt: &R, path: &str) -> io::Result<NamedFile> {
        let mut options = OpenOptions::new();
        options.read(true);
        NamedFile::open_with(rt, path, &options)
    }

    /// Opens the file of that path for writing alone, which fails where it is absent.
    pub(crate) fn open_to_write<R: Files<File = File>>(
        rt: &R,
        path: &str,
    ) -> io::Result<NamedFile> {
        let mut options = OpenOptions::new();
        options.write(true);
        NamedFile::open_with(rt, path, &options)
    }

    fn open_with<R: Files<File = File>>(
        rt: &R,
        path: &str,
        options: &OpenOptions,
    ) -> io::Result<NamedFile> {
        let file = open_apart(rt, path, options)?;
        let mut kept = ArrayString::new();
        let _ = kept.try_push_str(path);
        Ok(NamedFile {
            file,
            path: kept,
            is_made: false,
        })
    }

    /// The path that it was opened by.
    pub(crate) fn path(&self) -> &str {
        self.path.as_str()
    }

    /// Writes the bytes at that place, in as many writes as it needs.
    pub(crate) fn write_at(&self, from: &[u8], place: u64) -> io::Result<()>
        requires { place + length from.now < 2 ^ 64 }
    {
        let mut at = 0;
        'parts: while at < from.len() {
            at += write_part(&self.file, &from[at..], place + at as u64)?;
        }
        Ok(())
    }
}

/// A file that is written from its first byte on.
#[derive(Drop)]
pub(crate) struct FromStart<'a> {
    file: &'a File,
    place: u64,
}

impl<'a> FromStart<'a> {
    /// Of that file, of which nothing is written so far.
    pub(crate) fn of(named: &'a NamedFile) -> FromStart<'a> {
        FromStart {
            file: &named.file,
            place: 0,
        }
    }
}

impl<'a> Write for FromStart<'a> {
    fn write(&mut self, buf: &[u8]) -> io::Result<usize> {
        let count = write_part(self.file, buf, self.place)?;
        self.place = self.place.saturating_add(count as u64);
        Ok(count)
    }

    fn flush(&mut self) -> io::Result<()> {
        Ok(())
    }
}

/// Opens a file with these options. Its descriptor is never that of a
/// standard stream: where one of those is closed, the path is opened again until a higher one comes, so
/// that nothing which is written to a stream reaches the file. A file that was made is removed before it is made again.
fn open_apart<R: Files<File = File>>(rt: &R, path: &str, options: &OpenOptions) -> io::Result<File>
    ensures { IfOk result (λ file. pos 3 ≤ℤ file_raw_fd file) }
{
    let mut lower = [None, None, None, None];
    for place in &mut lower {
        let file = open_once(rt, path, options)?;
        if file.as_raw_fd() >= FIRST_OF_A_FILE {
            return Ok(file);
        }
        *place = Some(file);
        if options.asks_create_new() {
            fs::remove_file(rt, path)?;
        }
    }
    Err(io::Error::other("no descriptor above the standard streams"))
}

/// Opens a file by the descriptor that the system gives, again after each interruption.
fn open_once<R: Files<File = File>>(rt: &R, path: &str, options: &OpenOptions) -> io::Result<File> {
    'tries: for _ in 0..TRIES {
        match options.open(rt, path) {
            Err(error) if error.kind() == ErrorKind::Interrupted => {}
            done => return done,
        }
    }
    Err(io::Error::from(ErrorKind::Interrupted))
}

/// Writes once, again after each interruption. A write that takes nothing has failed.
fn write_part(file: &File, from: &[u8], place: u64) -> io::Result<usize>
    ensures within { IfOk result (λ n. n ≤ length from.now) }
    ensures some { IfOk result (λ n. 0 < n) }
{
    'tries: for _ in 0..TRIES {
        match file.write_at(from, place) {
            Ok(0) => return Err(io::Error::from(ErrorKind::WriteZero)),
            Ok(count) => return Ok(count),
            Err(error) if error.kind() == ErrorKind::Interrupted => {}
            Err(error) => return Err(error),
        }
    }
    Err(io::Error::from(ErrorKind::Interrupted))
}
