//! An image file that is not there, and is made when an image is written into it.

use crate::image_file::ImageFile;
use arrayvec::ArrayString;
use qn_exchange::Stride;
use std::fs::{self, File};
use std::io::{self, ErrorKind};
use std::rt::Files;

/// The most bytes of a path that the system opens.
const PATH: usize = 4096;

/// A path that nothing has, in a folder that is there. All its sectors are zeros.
#[derive(Drop)]
pub(crate) struct AbsentFile {
    path: ArrayString<PATH>,
    stride: Stride,
}

impl AbsentFile {
    /// That path. None where its folder is not there, so that no file can be made.
    pub(crate) fn at<R: Files<File = File>>(
        rt: &R,
        path: &str,
        stride: Stride,
    ) -> Option<AbsentFile> {
        if path.is_empty() || !fs::metadata(rt, folder_of(path)).ok()?.is_dir() {
            return None;
        }
        let path = ArrayString::from(path).ok()?;
        Some(AbsentFile { path, stride })
    }

    /// The path.
    pub(crate) fn path(&self) -> &str {
        self.path.as_str()
    }

    /// How far apart its sectors are to stand.
    pub(crate) fn stride(&self) -> Stride {
        self.stride
    }

    /// Makes the file, empty, and opens it as one that is there. It fails where anything has the path by now.
    pub(crate) fn make<R: Files<File = File>>(&self, rt: &R) -> io::Result<ImageFile> {
        ImageFile::make(rt, self.path(), self.stride)
    }

    /// A write of a sector but the first: no image can be there.
    pub(crate) fn refuse(&self) -> io::Error {
        io::Error::from(ErrorKind::NotFound)
    }
}

/// The folder that a path names something in.
fn folder_of(path: &str) -> &str {
    match path.rsplit_once('/') {
        None => ".",
        Some(("", _)) => "/",
        Some((folder, _)) => folder,
    }
}
