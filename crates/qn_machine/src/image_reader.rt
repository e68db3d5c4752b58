//! An image that is looked at by a program which is no node and writes nothing.

use crate::image::{Image, Opener};
use crate::named_file::Absent;
use qn_exchange::Stride;
use qn_io::SECTOR;
use std::fs::File;
use std::io;
use std::net::{Net, TcpStream};
use std::rt::Files;
use std::time::Clock;

/// An image that is open to be looked at: a file, an export of a block server, or keys of an etcd cluster.
#[derive(Drop)]
pub struct ImageReader<
    'r,
    R: Files<File = File> + Net<Stream = TcpStream> + Clock + Eprint + AllocGlobal,
> {
    rt: &'r R,
    image: Image,
    /// How many bytes its file has; None where it lies on a server, of which the room behind it is no part.
    length: Option<u64>,
    stride: Stride,
}

impl<
    'r,
    R: Files<File = File> + Net<Stream = TcpStream> + Clock + Eprint + AllocGlobal,
> ImageReader<'r, R> {
    ghost use Rattle.std.specs.Prelude.{◌<◌};

    /// Opens the image of that word. A file is opened for reading alone, under a shared lock, and none is made.
    pub fn open(rt: &'r R, word: &str) -> io::Result<ImageReader<'r, R>> {
        let image = Image::open(rt, rt, word, Opener::Reader, Absent::Refused)?;
        let length = image.length()?;
        let stride = image.stride();
        Ok(ImageReader {
            rt,
            image,
            length,
            stride,
        })
    }

    /// Reads a sector. What lies past the end of a file reads as zeros, and so does a sector of a cluster that has no key.
    pub fn read(&mut self, sector: u32, into: &mut [u8; SECTOR]) -> io::Result<()>
        requires { sector < 3072 }
    {
        self.image.read(self.rt, sector, into)
    }

    /// How many bytes of its file stood behind so many sectors as it was opened. On a server that is 0: more room is there than the image takes.
    pub fn bytes_behind(&self, sectors: u64) -> u64 {
        let end = sectors.saturating_mul(self.stride.bytes() as u64);
        self.length.unwrap_or(0).saturating_sub(end)
    }
}
