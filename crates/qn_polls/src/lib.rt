//! The bytes of polls and of their replies: one spelling for each well formed one.
//!
//! Promises: `put_poll` and `put_reply` write the spelling of any poll or reply. `get_poll` and `get_reply` answer Some exactly where
//! the bytes are the spelling of that one and it is well formed, and None exactly elsewhere. No call takes memory.
#![tactic(auto)]

mod arbiter;
mod fields;
mod laws;
mod poller;
mod reading;
mod times;
mod writing;

pub use arbiter::Arbiter;
pub use laws::law_polls_read_back;
pub use poller::{Poller, Standing};
pub use reading::{get_poll, get_reply};
pub use times::least_lease;
pub use writing::{put_poll, put_reply};
