//! How the sectors of a node stand on its images, and what becomes of what each image says.
ghost use Rattle.std.specs.Prelude.{◌≡◌};
ghost use Rattle.qn_outside.specs.Layouts.{said_by};

use crate::times::{Times, lesser};

/// How many sectors each of three images has.
const IMAGE_SECTORS: u32 = 1024;

/// How the sectors of a node stand on its images.
#[derive(Clone, Copy, PartialEq, Eq)]
pub enum Layout {
    /// All on the first one.
    One,
    /// 1024 on each of three, in their order.
    Three,
}

impl Layout {
    ghost use Rattle.std.specs.Prelude.{◌≡◌, ◌<◌, ◌&&◌};
    ghost use Rattle.qn_outside.specs.Layouts.{image_of, is_three, is_written, sector_there, times_on, wanted};

    /// The place of the image that has a sector, and the number of the sector there.
    pub fn place(self, sector: u32) -> (usize, u32)
        requires { sector < 3072 }
        ensures image { result.0 ≡ image_of self sector }
        ensures sector { result.1 ≡ sector_there self sector }
        ensures few { result.0 < 3 }
        ensures there { result.1 < 3072 }
    {
        match self {
            Layout::One => (0, sector),
            Layout::Three if sector < IMAGE_SECTORS => (0, sector),
            Layout::Three if sector < 2 * IMAGE_SECTORS => (1, sector - IMAGE_SECTORS),
            Layout::Three => (2, sector - 2 * IMAGE_SECTORS),
        }
    }

    /// Whether the last write was done, of which image by image it is said whether it was: of three images on two of them. Then no write of it
    /// can land later and count.
    pub fn is_written(self, wrote: [bool; 3]) -> bool
        ensures { result ≡ is_written self wrote }
    {
        let [first, second, third] = wrote;
        match self {
            Layout::One => first,
            Layout::Three => first && second || third && (first || second),
        }
    }

    /// Whether the header of an image is looked at before the next call on it, after one that failed or was done: of three images one that failed
    /// may be another since.
    pub fn is_looked_at(self, has_failed: bool) -> bool
        ensures { result ≡ (is_three self && has_failed) }
    {
        self == Layout::Three && has_failed
    }

    /// The least of what the headers say, where enough of them say any: of three images two.
    pub fn times(self, said: [Option<Times>; 3]) -> Option<Times>
        ensures { result ≡ times_on self said }
    {
        if said_by(said) < self.wanted() {
            return None;
        }
        let [first, second, third] = said;
        lesser(first, lesser(second, third))
    }

    /// How many headers have to say times.
    fn wanted(self) -> u32
        ensures { result ≡ wanted self }
    {
        match self {
            Layout::One => 1,
            Layout::Three => 2,
        }
    }
}

/// How many headers say times.
fn said_by(said: [Option<Times>; 3]) -> u32
    ensures { result ≡ said_by said }
{
    let [first, second, third] = said;
    u32::from(first.is_some()) + u32::from(second.is_some()) + u32::from(third.is_some())
}
