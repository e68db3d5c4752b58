//! The packets that were sent, in little room: 16 bytes each, beside a heading for the packets of one entry.
ghost use Rattle.std.specs.Prelude.{◌<◌, All, vec_len};

use crate::kept::{Heading, Kept};

/// The packets that were sent, in order: the heading of each is one of these.
#[derive(Drop)]
pub(crate) struct Packets {
    headings: Vec<Heading>,
    kept: Vec<Kept>,
    ghost headed: { All (λ k. k.heading < vec_len headings) kept.items },
}

mod adding;
