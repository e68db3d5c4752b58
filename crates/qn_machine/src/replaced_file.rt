//! A file that is replaced as a whole, so that a reader finds the old text or the new one.
use crate::named_file::NamedFile;
use arrayvec::ArrayString;
use qn_exchange::write_whole;
use std::fs::{self, File};
use std::io;
use std::rt::Files;

/// The most bytes of a path that the system opens.
const PATH: usize = 4096;

/// The most bytes of the path of a file that is replaced.
const MOST: usize = 4090;

/// What stands after the path of a text that is under way.
const NEW: &str = ".new";

/// A file that is replaced: the text is written to a new file beside it, which then gets its name. It is not flushed to a disk.
#[derive(Drop)]
pub struct ReplacedFile {
    path: ArrayString<PATH>,
    new: ArrayString<PATH>,
}

impl ReplacedFile {
    /// The file of that path. None: the path is empty, or has more than 4090 bytes.
    pub fn at(path: &str) -> Option<ReplacedFile> {
        if path.is_empty() || path.len() > MOST {
            return None;
        }
        let mut new = ArrayString::from(path).ok()?;
        new.try_push_str(NEW).ok()?;
        Some(ReplacedFile {
            path: ArrayString::from(path).ok()?,
            new,
        })
    }

    /// The path.
    pub fn path(&self) -> &str {
        self.path.as_str()
    }

    /// Whether nothing but files can be replaced and be under way there; what a run before left under way is removed then.
    pub fn is_clear<R: Files<File = File>>(&self, rt: &R) -> bool {
        if !is_absent_or_file(rt, self.path()) || !is_absent_or_file(rt, self.new.as_str()) {
            return false;
        }
        let _ = fs::remove_file(rt, self.new.as_str());
        true
    }

    /// Replaces the text. At a failure the old one stands, and nothing stands beside it. No link is followed.
    pub fn replace<R: Files<File = File>>(&self, rt: &R, text: &[u8]) -> io::Result<()> {
        let made = NamedFile::make(rt, self.new.as_str())?;
        let done = self.put(rt, &made, text);
        if done.is_err() {
            let _ = fs::remove_file(rt, self.new.as_str());
        }
        done
    }

    /// Writes the text to the new file, and gives that its name.
    fn put<R: Files<File = File>>(&self, rt: &R, made: &NamedFile, text: &[u8]) -> io::Result<()> {
        write_whole(&mut &made.file, text)?;
        fs::rename(rt, self.new.as_str(), self.path.as_str())
    }
}

/// Whether a regular file has the path, or nothing that can be seen.
fn is_absent_or_file<R: Files<File = File>>(rt: &R, path: &str) -> bool {
    match fs::symlink_metadata(rt, path) {
        Ok(about) => about.is_file(),
        Err(_) => true,
    }
}
