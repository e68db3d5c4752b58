//! The watcher of a node's own mailbox, in fixed memory: when it is to be read, and what a read comes to.
//!
//! Promises: a `Watch` stands for a node's log (`specs/Watch`). `due` is the defined test, `read` gives
//! the defined verdict, and the verdict feeds, kills and leaves exactly where the definitions of
//! `qn_model` say so. `issued` and every line that asks for no read keep what it stands for. No call has a
//! condition.
#![tactic(auto)]

mod laws;
mod mailbox;

pub use laws::law_other_lines;
pub use mailbox::{Verdict, Watch};
