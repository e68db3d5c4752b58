//! What is told of a running node: the events of each entry that it takes in, and those of the answers of its agent and its
//! watchdog. Nothing here knows a text, a wall clock or a file.
//!
//! Promises: `events` are exactly the events that are defined of the states before and after an entry, of the entry and of its
//! outputs (`specs/Events`); `answered` is the event that is defined of a call and its answer. An `Observer` that is handed
//! each call of a run tells, of each entry, the events of that entry. No call takes memory from an allocator.
#![tactic(auto)]

mod answers;
mod comparing;
mod kinds;
mod laws;
mod observer;
mod turns;

pub use answers::answered;
pub use kinds::Event;
pub use laws::{law_fence_told, law_hold_told, law_journal_grows, law_quorum_told};
pub use observer::Observer;
pub use turns::{EventList, events};
