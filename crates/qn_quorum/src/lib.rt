//! The count of votes of one node, in fixed memory: the votes of the present view, the ends of two spans
//! of time, the expected votes, and whether the node is released.
//!
//! Promises: a `Quorum` stands for the vote list of the entries that it was handed (`specs/Quorum`), and
//! `answer` is the defined answer of that list at any tick. No call has a condition: ticks may fall, views
//! may be empty, settings need not be valid.
#![tactic(auto)]

mod counting;
mod deadlines;

pub use counting::Quorum;
