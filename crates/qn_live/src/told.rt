//! What the images told so far of a disk operation.
ghost use Rattle.std.specs.Prelude.{◌≡◌, ◌≤◌};
ghost use Rattle.qn_live.specs.TripleMachine.{image_of_read, image_of_write};

use qn_parts::Part;

/// What the images told of a read, in their order.
#[derive(Clone, Copy)]
pub enum Reads {
    Nothing,
    /// What the first image told.
    One(Part),
    /// What the first two images told.
    Two(Part, Part),
}

/// On which images a write was done, in their order.
#[derive(Clone, Copy)]
pub enum Writes {
    Nothing,
    /// Whether it was on the first image.
    One(bool),
    /// Whether it was on each of the first two images.
    Two(bool, bool),
}

impl Reads {
    /// The number of the image that is read next, 1 to 3.
    pub fn image(self) -> u32
        ensures value { result ≡ image_of_read self }
        ensures from_one { 1 ≤ result }
        ensures to_three { result ≤ 3 }
    {
        match self {
            Reads::Nothing => 1,
            Reads::One(_) => 2,
            Reads::Two(..) => 3,
        }
    }
}

impl Writes {
    /// The number of the image that is written next, 1 to 3.
    pub fn image(self) -> u32
        ensures value { result ≡ image_of_write self }
        ensures from_one { 1 ≤ result }
        ensures to_three { result ≤ 3 }
    {
        match self {
            Writes::Nothing => 1,
            Writes::One(_) => 2,
            Writes::Two(..) => 3,
        }
    }
}
