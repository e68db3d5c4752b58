//! A node from its whole history, and a count from its whole vote list: slow, plain, in no memory of its
//! own. The tests of the fixed-memory cores have these as their second opinion.
//!
//! Promises: `outs` is what the definitions say comes out of the last entry of a history, `why` the first
//! condition that blocks a start, `answer` the count of votes with the tie breaker; `vote_answer` is the defined
//! answer of a vote list, by the votes alone. They hold for every settings, every rank and every list; `why`
//! alone asks that its tick is no earlier than that of any entry. None of them refuses or takes memory.
#![tactic(auto)]

mod entries;
mod evaluation;
mod lack;
mod life;
mod operations;
mod outputs;
mod past;
mod peer;
mod phases;
mod sought;
mod spans;
mod tally;
mod tie;
mod votes;
mod wanted;

pub use evaluation::{answer, outs, why};
pub use votes::vote_answer;
