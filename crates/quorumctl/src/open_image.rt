//! An image that is open to be looked at, wherever it lies.
use crate::trouble::Trouble;
use qn_control::Sectors;
use qn_io::SECTOR;
use qn_machine::ImageReader;
use std::fs::File;
use std::net::{Net, TcpStream};
use std::rt::Files;
use std::time::Clock;

/// What the word of an image in an etcd cluster begins with.
const CLUSTER: &str = "etcd:";

/// How many sectors can be asked for.
const SECTORS: u32 = 3072;

/// An image: a file, an export of a block server, or keys of an etcd cluster.
#[derive(Drop)]
pub struct OpenImage<
    'r,
    R: Files<File = File> + Net<Stream = TcpStream> + Clock + Eprint + AllocGlobal,
> {
    reader: ImageReader<'r, R>,
    is_in_cluster: bool,
}

impl<'r, R: Files<File = File> + Net<Stream = TcpStream> + Clock + Eprint + AllocGlobal> OpenImage<
    'r,
    R,
> {
    /// Opens the image of that word for reading alone, which makes none.
    pub fn open(rt: &'r R, word: &str) -> Result<OpenImage<'r, R>, Trouble> {
        match ImageReader::open(rt, word) {
            Ok(reader) => Ok(OpenImage {
                reader,
                is_in_cluster: word.starts_with(CLUSTER),
            }),
            Err(error) => Err(Trouble::of_file(rt.alloc(), word, error)),
        }
    }
}

impl<'r, R: Files<File = File> + Net<Stream = TcpStream> + Clock + Eprint + AllocGlobal> Sectors
    for OpenImage<'r, R> {
    fn sector(&mut self, number: u32) -> Option<[u8; 512]> {
        if number >= SECTORS {
            return None;
        }
        let mut bytes = [0; SECTOR];
        match self.reader.read(number, &mut bytes) {
            Ok(()) => Some(bytes),
            Err(_) => None,
        }
    }

    fn bytes_behind(&self, sectors: u64) -> u64 {
        self.reader.bytes_behind(sectors)
    }

    fn have_elections(&self) -> bool {
        self.is_in_cluster
    }
}
