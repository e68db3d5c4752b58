//! The two faults that need no more words: a call on the outside that failed, and no memory.

/// A call on the outside did not do what it was asked for.
#[derive(Clone, Copy, PartialEq, Eq, Debug)]
pub struct Failed;

/// Out of memory.
#[derive(Clone, Copy, PartialEq, Eq, Debug)]
pub struct NoMemory;
