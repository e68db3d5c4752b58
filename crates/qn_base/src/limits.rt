//! The limits that several crates share: bytes of a line, events, the longest period, the latest time.

/// The most bytes of a line of an input, without its end (this project's profile).
pub const MOST_LINE_BYTES: usize = 4_096;

/// The most lines of an input of `count`, and the most events of a replay or a soak (this project's profile).
pub const MOST_EVENTS: u64 = 200_000;

/// The longest time that a settings text, an image or the command line gives, in milliseconds: one hour
/// (this project's profile).
pub const LONGEST_PERIOD: u64 = 3_600_000;

/// The latest true time at which a world takes an event, in milliseconds (this project's profile).
pub const LATEST_TIME: u64 = 10_000_000_000_000_000;
