//! An image, wherever it lies.

use crate::absent_file::AbsentFile;
use crate::etcd_image::EtcdImage;
use crate::image_file::ImageFile;
use crate::image_word::{ImageWord, Place};
use crate::named_file::Absent;
use crate::nbd_image::NbdImage;
use qn_base::Rank;
use qn_exchange::Stride;
use qn_io::SECTOR;
use std::fs::File;
use std::io::{self, ErrorKind};
use std::net::{Net, TcpStream};
use std::rt::Files;
use std::time::Clock;

/// Who opens an image.
#[derive(Clone, Copy, PartialEq, Eq)]
pub(crate) enum Opener {
    /// A command, which perhaps only reads: an image that cannot be written is opened too, and a write to it fails. A file that is absent is
    /// made where its header is written, and not before.
    Command,
    /// A program that only reads, and opens a file for nothing else.
    Reader,
    /// The node of that rank.
    Node(Rank),
}

/// An image that is open.
#[derive(Drop)]
pub(crate) enum Image {
    Absent(AbsentFile),
    File(ImageFile),
    Block(NbdImage),
    Cluster(EtcdImage),
}

impl Image {
    ghost use Rattle.std.specs.Prelude.{◌<◌};

    /// Opens the image of that word.
    pub(crate) fn open<
        R: Files<File = File> + Net<Stream = TcpStream> + Clock + AllocGlobal,
        E: Eprint,
    >(rt: &R, errors: &E, word: &str, opener: Opener, absent: Absent) -> io::Result<Image> {
        let ImageWord { place, stride } = ImageWord::read(word)?;
        match place {
            Place::File(path) => open_file(rt, path, stride, opener, absent),
            Place::Block(..) => Ok(Image::Block(NbdImage::open(rt, word, stride, opener)?)),
            Place::Cluster(at) => {
                let mut image = EtcdImage::open(rt, word, &at, opener)?;
                if let Opener::Node(rank) = opener {
                    image.begin_boot(rt, errors, rank)?;
                }
                Ok(Image::Cluster(image))
            }
        }
    }

    /// The path of its file, or the word of its server.
    pub(crate) fn name(&self) -> &str {
        match self {
            Image::Absent(absent) => absent.path(),
            Image::File(image) => image.path(),
            Image::Block(image) => image.name(),
            Image::Cluster(image) => image.name(),
        }
    }

    /// Whether its file was made by this program.
    pub(crate) fn is_made(&self) -> bool {
        match self {
            Image::File(image) => image.is_made(),
            Image::Absent(_) | Image::Block(_) | Image::Cluster(_) => false,
        }
    }

    /// Whether it is a file, which is there or not.
    pub(crate) fn is_file(&self) -> bool {
        match self {
            Image::Absent(_) | Image::File(_) => true,
            Image::Block(_) | Image::Cluster(_) => false,
        }
    }

    /// Whether it is an export of a block server.
    pub(crate) fn is_exported(&self) -> bool {
        match self {
            Image::Block(_) => true,
            Image::Absent(_) | Image::File(_) | Image::Cluster(_) => false,
        }
    }

    /// How many bytes its file has; None where it lies on a server.
    pub(crate) fn length(&self) -> io::Result<Option<u64>> {
        match self {
            Image::Absent(_) => Ok(Some(0)),
            Image::File(image) => Ok(Some(image.length()?)),
            Image::Block(_) | Image::Cluster(_) => Ok(None),
        }
    }

    /// How far apart its sectors stand. The keys of a cluster have no places.
    pub(crate) fn stride(&self) -> Stride {
        match self {
            Image::Absent(absent) => absent.stride(),
            Image::File(image) => image.stride(),
            Image::Block(image) => image.stride(),
            Image::Cluster(_) => Stride::Short,
        }
    }

    /// Takes the exclusive lock of a file, which is made where it is absent, and keeps it while the image is open. Where another program has the
    /// image open this fails, and then no lock is held: the image is to be closed. A block server has no locks, and a cluster compares at each
    /// write.
    pub(crate) fn lock<R: Files<File = File>>(&mut self, rt: &R) -> io::Result<()> {
        if let Image::Absent(absent) = self {
            let made = absent.make(rt)?;
            *self = Image::File(made);
        }
        match self {
            Image::File(image) => image.lock(),
            Image::Absent(_) | Image::Block(_) | Image::Cluster(_) => Ok(()),
        }
    }

    /// Reads a sector.
    pub(crate) fn read<R: Files<File = File> + Net<Stream = TcpStream> + Clock>(
        &mut self,
        rt: &R,
        sector: u32,
        into: &mut [u8; SECTOR],
    ) -> io::Result<()>
        requires { sector < 3072 }
    {
        match self {
            Image::Absent(_) => {
                into.fill(0);
                Ok(())
            }
            Image::File(image) => image.read(rt, sector, into),
            Image::Block(image) => image.read(rt, sector, into),
            Image::Cluster(image) => image.read(rt, sector, into),
        }
    }

    /// Writes a sector, which lasts when that is done.
    pub(crate) fn write<R: Files<File = File> + Net<Stream = TcpStream> + Clock>(
        &mut self,
        rt: &R,
        sector: u32,
        from: &[u8; SECTOR],
    ) -> io::Result<()>
        requires { sector < 3072 }
    {
        match self {
            Image::Absent(absent) => Err(absent.refuse()),
            Image::File(image) => image.write(rt, sector, from),
            Image::Block(image) => image.write(rt, sector, from),
            Image::Cluster(image) => image.write(rt, sector, from),
        }
    }

    /// Ends the boot of a node that has left, where the image knows of boots.
    pub(crate) fn end_boot<R: Net<Stream = TcpStream> + Clock>(
        &mut self,
        rt: &R,
    ) -> io::Result<()> {
        match self {
            Image::Absent(_) | Image::File(_) | Image::Block(_) => Ok(()),
            Image::Cluster(image) => image.end_boot(rt),
        }
    }
}

/// Opens the image file of that path. A command makes none as it opens.
fn open_file<R: Files<File = File>>(
    rt: &R,
    path: &str,
    stride: Stride,
    opener: Opener,
    absent: Absent,
) -> io::Result<Image> {
    match ImageFile::open(rt, path, stride, opener, absent_for(opener, absent)) {
        Ok(image) => Ok(Image::File(image)),
        Err(error) if error.kind() == ErrorKind::NotFound && opener == Opener::Command => {
            AbsentFile::at(rt, path, stride)
                .map(Image::Absent)
                .ok_or(error)
        }
        Err(error) => Err(error),
    }
}

/// What becomes of the opening of a file by such a one, where it is absent.
fn absent_for(opener: Opener, absent: Absent) -> Absent {
    match opener {
        Opener::Command | Opener::Reader => Absent::Refused,
        Opener::Node(_) => absent,
    }
}
