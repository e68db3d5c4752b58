//! What a node asks its arbiter, and what the arbiter answers.
use qn_base::{Rank, View};

/// A node asks its arbiter for a vote. Incarnation, install number and view are those that it has; its polls of one boot
/// are numbered from 0 (this project's profile).
#[derive(Clone, Copy, PartialEq, Eq)]
pub struct Poll {
    pub from: Rank,
    pub number: u64,
    pub incarnation: u64,
    pub install: u64,
    pub view: View,
}

/// The answer to a [`Poll`], whose number, incarnation and install number it repeats (this project's profile).
#[derive(Clone, Copy, PartialEq, Eq)]
pub struct Reply {
    pub to: Rank,
    pub number: u64,
    pub incarnation: u64,
    pub install: u64,
    /// Whether the arbiter gives its vote.
    pub agrees: bool,
}
