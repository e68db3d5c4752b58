//! The kinds of packets: the byte after `QN`.

pub const ASK: u8 = 1;

pub const TELL: u8 = 2;

pub const HELLO: u8 = 3;

pub const ANNOUNCE: u8 = 4;

pub const VOTE: u8 = 5;

pub const HEARD: u8 = 8;

/// An announcement of a view with a name.
pub const NAMED: u8 = 11;
