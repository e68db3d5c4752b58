//! The tie breaker of one node, in fixed memory: the order of preference, and the last view of a majority.
//!
//! Promises: a `Tie` stands for the vote list of the entries that it was handed (`specs/Tie`), and `breaks` is
//! exactly whether the breaker lets the present view be quorate, once the node is released. No call has a
//! condition: numbers of votes may be any, settings need not be valid. Two nodes that went into a split from
//! the same last view of a majority are never both quorate (`law_tie_halves`), and one of them can be
//! (`law_tie_premises_are_met`).
#![tactic(auto)]

mod breaker;
mod laws;

pub use breaker::Tie;
pub use laws::{law_tie_halves, law_tie_premises_are_met, law_tie_stays};
