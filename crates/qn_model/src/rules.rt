//! The numbers of the rules of the world.

/// The number of a rule of the world, from 1 to 10, which refuses an event.
#[derive(Clone, Copy, PartialEq, Eq)]
pub struct Rule(pub u8);
