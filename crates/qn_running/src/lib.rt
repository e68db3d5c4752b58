//! The commands of a running node: `node` and `node3`, the same with each call recorded (`node-logged`, `node3-logged`), and `audit`, which
//! judges such a record.
//!
//! Promises: each command's function meets the record of the command in specs/Commands, which says what was read, called
//! and written, which statuses there are, and that each fault has its cause.
#![tactic(auto)]

mod commands;
mod node_text;
mod node_texts;

pub use commands::audit::{AuditWords, run_audit};
pub use commands::node::{NodeWords, node};
pub use commands::node_logged::node_logged;
pub use qn_live::NodeImages;
