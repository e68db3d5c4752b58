//! The supervisor of a group of resources as a state machine: `Group::step` takes one event and gives what is to be done, at most one action on a resource
//! and one answer to the node.
//!
//! Promises: no stop is answered as done while something of the group may run, and nothing is started while the node does not hold.
#![tactic(auto)]

mod group;
mod laws;
mod phase;
mod told;

pub use group::{Act, Answer, Event, Given, Goal, Group};
pub use laws::{law_down_by_word, law_nothing_unheld, law_one_action, law_runs};
pub use phase::{MOST, Outcome, Phase, Rule, Rules, Verb, Word, forgetting_of};
pub use told::Told;
