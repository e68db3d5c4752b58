//! The events of a world of three images.
use qn_base::Rank;
use qn_model::{Event, Message};

/// What happens in a world of three images: one event (this project's profile). An image number is 1 to 3.
#[derive(Drop)]
pub enum TripleEvent {
    /// An event as in the world of one image. Land, Fail, Late and Operator are not allowed here: each of them
    /// names its image, below. Done answers the operation that is out by its parts on the three images.
    One(Event),
    /// The part of the operation that is out takes effect on that image.
    LandOn(Rank, u8),
    /// The part of the operation that is out fails on that image.
    FailOn(Rank, u8),
    /// The leftover write of that image and number takes effect there, from 1 to 200000.
    LateOn(Rank, u8, u64),
    /// An operator writes the message to the mailbox of that node on that image, running or off.
    OperatorOn(Rank, u8, Message),
}
