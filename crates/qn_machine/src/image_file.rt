//! An image file: how it is opened, locked, read and written.
ghost use Rattle.std.specs.Prelude.{◌≤◌, IfOk, length};

use crate::image::Opener;
use crate::named_file::{Absent, NamedFile};
use qn_exchange::{MOST_PLACE, Stride, TRIES};
use qn_io::SECTOR;
use std::fs::{self, File, Metadata, TryLockError};
use std::io::{self, ErrorKind};
use std::os::unix::fs::{FileExt, FileTypeExt, MetadataExt};
use std::rt::Files;

/// An image file that is open, under a shared lock of the whole file, or under the exclusive lock once its
/// header was written.
#[derive(Drop)]
pub(crate) struct ImageFile {
    opened: NamedFile,
    stride: Stride,
    identity: Identity,
    /// The system's number of why it was opened for reading alone, where it was.
    unwritable: Option<i32>,
}

/// Which file it is: its device and its number there.
#[derive(Clone, Copy, PartialEq, Eq)]
struct Identity {
    device: u64,
    number: u64,
}

impl Identity {
    fn of(about: &Metadata) -> Identity {
        Identity {
            device: about.dev(),
            number: about.ino(),
        }
    }
}

impl ImageFile {
    /// Opens the file of that path under a shared lock, and makes it where it is absent and that is wanted. A command also opens a file
    /// that can only be read; a write to it then fails as its opening did. A program that only reads opens it for nothing else. A block
    /// device is refused.
    pub(crate) fn open<R: Files<File = File>>(
        rt: &R,
        path: &str,
        stride: Stride,
        opener: Opener,
        absent: Absent,
    ) -> io::Result<ImageFile> {
        refuse_block_device(rt, path)?;
        let (opened, unwritable) = open_writable(rt, path, opener, absent)?;
        ImageFile::hold(opened, stride, unwritable)
    }

    /// Makes the file of that path, empty, and opens it under a shared lock. It fails where anything has the path.
    pub(crate) fn make<R: Files<File = File>>(
        rt: &R,
        path: &str,
        stride: Stride,
    ) -> io::Result<ImageFile> {
        ImageFile::hold(NamedFile::make(rt, path)?, stride, None)
    }

    /// Takes the shared lock of a file that is open.
    fn hold(opened: NamedFile, stride: Stride, unwritable: Option<i32>) -> io::Result<ImageFile> {
        let identity = Identity::of(&opened.file.metadata()?);
        opened.file.try_lock_shared().map_err(lock_error)?;
        Ok(ImageFile {
            opened,
            stride,
            identity,
            unwritable,
        })
    }

    /// Whether it was made as it was opened.
    pub(crate) fn is_made(&self) -> bool {
        self.opened.is_made
    }

    /// The path that it was opened by.
    pub(crate) fn path(&self) -> &str {
        self.opened.path()
    }

    /// How many bytes the file has.
    pub(crate) fn length(&self) -> io::Result<u64> {
        Ok(self.opened.file.metadata()?.len())
    }

    /// How far apart its sectors stand.
    pub(crate) fn stride(&self) -> Stride {
        self.stride
    }

    /// Takes the exclusive lock, and keeps it while the image is open. Where another program has the image
    /// open this fails, and then no lock is held: the image is to be closed.
    pub(crate) fn lock(&self) -> io::Result<()> {
        self.opened.file.try_lock().map_err(lock_error)
    }

    /// Fails where another file has its path, or none has: it was unlinked or replaced, and the other nodes use it no more.
    fn stays<R: Files<File = File>>(&self, rt: &R) -> io::Result<()> {
        match fs::metadata(rt, self.path()) {
            Ok(about) if Identity::of(&about) == self.identity => Ok(()),
            Ok(_) => Err(io::Error::new(ErrorKind::NotFound, "another file was put in its place")),
            Err(error) => Err(error),
        }
    }

    /// Reads a sector, in as many reads as it needs. What lies past the end of the file reads as zeros.
    pub(crate) fn read<R: Files<File = File>>(
        &self,
        rt: &R,
        sector: u32,
        into: &mut [u8; SECTOR],
    ) -> io::Result<()> {
        self.stays(rt)?;
        self.read_sector(sector, into)
    }

    fn read_sector(&self, sector: u32, into: &mut [u8; SECTOR]) -> io::Result<()> {
        let place = self.stride.place_of(sector);
        let mut at = 0;
        'parts: while at < SECTOR {
            let count = read_part(&self.opened.file, &mut into[at..], place + at as u64)?;
            if count == 0 {
                into[at..].fill(0);
                return Ok(());
            }
            at += count;
        }
        Ok(())
    }

    /// Writes a sector, and zeros up to the place of the next one, in as many writes as it needs, and has it pushed to the disk.
    pub(crate) fn write<R: Files<File = File>>(
        &self,
        rt: &R,
        sector: u32,
        from: &[u8; SECTOR],
    ) -> io::Result<()> {
        if let Some(number) = self.unwritable {
            return Err(io::Error::from_raw_os_error(number));
        }
        self.stays(rt)?;
        let at = self.stride.place_of(sector);
        match self.stride {
            Stride::Short => self.opened.write_at(from, at)?,
            Stride::Long => {
                let mut place = [0; MOST_PLACE];
                place[..SECTOR].copy_from_slice(from);
                self.opened.write_at(&place, at)?;
            }
        }
        push_to_disk(&self.opened.file)
    }
}

/// Fails at a block device, which this host would read through a cache of its own.
fn refuse_block_device<R: Files<File = File>>(rt: &R, path: &str) -> io::Result<()> {
    match fs::metadata(rt, path) {
        Ok(about) if about.file_type().is_block_device() => Err(io::Error::other(
            "a block device is read through this host's cache: use nbd:",
        )),
        _ => Ok(()),
    }
}

/// The system's number of a write to a file that can only be read (EROFS).
const READ_ONLY: i32 = 30;

/// Opens the file for reading and writing; or, where that is refused to a command, for reading alone, with the number of the refusal.
fn open_writable<R: Files<File = File>>(
    rt: &R,
    path: &str,
    opener: Opener,
    absent: Absent,
) -> io::Result<(NamedFile, Option<i32>)> {
    if opener == Opener::Reader {
        return Ok((NamedFile::open_to_read(rt, path)?, Some(READ_ONLY)));
    }
    let error = match NamedFile::open(rt, path, absent) {
        Ok(opened) => return Ok((opened, None)),
        Err(error) => error,
    };
    match error.kind() {
        ErrorKind::PermissionDenied | ErrorKind::ReadOnlyFilesystem if opener == Opener::Command =>
            {
                match NamedFile::open_to_read(rt, path) {
                    Ok(opened) => Ok((opened, error.raw_os_error())),
                    Err(_) => Err(error),
                }
            }
        _ => Err(error),
    }
}

/// Why a lock was not to be had.
fn lock_error(error: TryLockError) -> io::Error {
    match error {
        TryLockError::Error(error) => error,
        TryLockError::WouldBlock => {
            io::Error::new(ErrorKind::WouldBlock, "another program has it open")
        }
    }
}

/// Reads once, again after each interruption.
fn read_part(file: &File, into: &mut [u8], place: u64) -> io::Result<usize>
    ensures { IfOk result (λ n. n ≤ length into.new) }
{
    'tries: for _ in 0..TRIES {
        match file.read_at(into, place) {
            Ok(count) => return Ok(count),
            Err(error) if error.kind() == ErrorKind::Interrupted => {}
            Err(error) => return Err(error),
        }
    }
    Err(io::Error::from(ErrorKind::Interrupted))
}

/// Waits until what was written to the file lasts.
fn push_to_disk(file: &File) -> io::Result<()> {
    'tries: for _ in 0..TRIES {
        match file.sync_data() {
            Ok(()) => return Ok(()),
            Err(error) if error.kind() == ErrorKind::Interrupted => {}
            Err(error) => return Err(error),
        }
    }
    Err(io::Error::from(ErrorKind::Interrupted))
}
