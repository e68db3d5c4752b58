//! What stands where an image is to be made.

use crate::edge::Overwrites;
use crate::image::Image;
use qn_io::SECTOR;
use qn_sector::{get_header, get_header_1};
use std::fmt::{self, Display};
use std::fs::File;
use std::io;
use std::net::{Net, TcpStream};
use std::rt::Files;
use std::time::Clock;

/// How many sectors an image of 32 nodes has.
const SECTORS: u32 = 544;

/// What is no blank place.
#[derive(Clone, Copy, PartialEq, Eq)]
pub(crate) enum Found {
    /// An image of so many nodes.
    Image(u32),
    /// Bytes that are no image.
    Other,
}

impl Display for Found {
    fn fmt<W: fmt::Write>(&self, f: &mut fmt::Formatter<W>) -> fmt::Result {
        match self {
            Found::Image(nodes) => write!(f, "not blank: an image of {nodes} nodes is there. ")?,
            Found::Other => f.write_str("not blank: no image is there, but something else. ")?,
        }
        f.write_str("quorumd --anew create .. writes over it")
    }
}

/// What stands where an image is to be made and is not to be written over, where there is any.
pub(crate) fn found_at<R: Files<File = File> + Net<Stream = TcpStream> + Clock>(
    rt: &R,
    image: &mut Image,
    overwrites: Overwrites,
) -> io::Result<Option<Found>> {
    let is_looked_at = match overwrites {
        Overwrites::Files => image.is_exported(),
        Overwrites::Nothing => image.is_exported() || image.is_file(),
        Overwrites::Anything => false,
    };
    if !is_looked_at {
        return Ok(None);
    }
    first_found(rt, image)
}

/// What the sectors of an image of 32 nodes have there; None where all of them are zeros.
fn first_found<R: Files<File = File> + Net<Stream = TcpStream> + Clock>(
    rt: &R,
    image: &mut Image,
) -> io::Result<Option<Found>> {
    let mut sector = [0; SECTOR];
    'sectors: for number in 0..SECTORS {
        image.read(rt, number, &mut sector)?;
        if !is_zeros(&sector) {
            return Ok(Some(found_in(number, &sector)));
        }
    }
    Ok(None)
}

/// What it is by its first sector that is not blank.
fn found_in(number: u32, sector: &[u8; SECTOR]) -> Found {
    if number > 0 {
        return Found::Other;
    }
    match get_header(sector).or_else(|| get_header_1(sector)) {
        Some((nodes, _)) => Found::Image(nodes),
        None => Found::Other,
    }
}

/// Whether a sector is blank.
pub(crate) fn is_zeros(sector: &[u8; SECTOR]) -> bool {
    sector.iter().all(|byte| *byte == 0)
}
