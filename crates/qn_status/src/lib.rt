//! The status of a world, as text and as JSON: one line, or one object, for each node in ascending id, at the
//! node's present tick. Of a node that is off the answer is that of the empty history.
//!
//! Promises: `status_text` and `status_json` write exactly the defined bytes of the world that they are given;
//! where the sink fails a prefix of them was written, and where it is out of memory nothing.
#![tactic(auto)]

mod as_json;
mod node_state;
mod status;
mod text;

pub use status::{StatusFault, status_json, status_text};
