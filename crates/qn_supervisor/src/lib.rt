//! The lines between the supervisor of a host's resources and `quorumctl group`: what it hands over, an event each, and what it is told.
//!
//! Promises: a line is taken exactly where it is the one spelling of what it says, with its numbers in range; the first fault is named. What is told is spelled
//! exactly. An event is a step of the group, and a line that is refused changes nothing.
#![tactic(auto)]

mod line;
mod name;
mod reply;
mod steps;
mod words;

pub use line::{Line, read_line};
pub use reply::{Reply, phases_line, reply_line};
pub use steps::{Refused, Steps, TOLD};
