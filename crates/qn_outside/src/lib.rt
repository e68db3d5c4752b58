//! What the outside of a node has its machine do, over any machine that can tell it.
//!
//! Promises: each call of a node is the one deed of the machine that it names, with that deed's answer; an opening that succeeded did its parts in
//! their order, the resource stopped and the watchdog looked at before that is armed; a feed is judged by the last answer of the clock that the node
//! had, beside the feed delay of its images. Which image has a sector, whether a write was done and which times the headers say together are
//! defined functions. What a deed is at a real machine is not said here.
#![tactic(auto)]

mod layout;
mod machine;
mod outside;
mod times;

pub use layout::Layout;
pub use machine::Machine;
pub use outside::Outside;
pub use times::Times;
