//! A file that is told of a halt, as /proc/sysrq-trigger, which then ends the machine at once.

use crate::named_file::NamedFile;
use qn_exchange::put_halt;
use std::fs::{self, File};
use std::io;
use std::os::unix::fs::MetadataExt;
use std::rt::Files;

/// The file, open from the opening of the node on, since nothing is opened while a node ends.
#[derive(Drop)]
pub(crate) struct HaltFile {
    opened: NamedFile,
}

impl HaltFile {
    /// Opens the file of that path for writing alone. It is not made where it is absent.
    pub(crate) fn open<R: Files<File = File>>(rt: &R, path: &str) -> io::Result<HaltFile> {
        let opened = NamedFile::open_to_write(rt, path)?;
        Ok(HaltFile { opened })
    }

    /// The path that it was opened by.
    pub(crate) fn path(&self) -> &str {
        self.opened.path()
    }

    /// Whether it is a file as others, which ends nothing: none of the kernel's, which stand in /proc.
    pub(crate) fn is_plain<R: Files<File = File>>(&self, rt: &R) -> io::Result<bool> {
        let about = self.opened.file.metadata()?;
        let is_kernels = fs::metadata(rt, "/proc").is_ok_and(|proc| proc.dev() == about.dev());
        Ok(about.is_file() && !is_kernels)
    }

    /// Tells it of a halt of that code.
    pub(crate) fn tell(&self, code: u8) -> io::Result<()> {
        put_halt(code, &mut &self.opened.file)
    }
}
