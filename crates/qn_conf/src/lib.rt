//! The settings text as a tree: sections and pairs in text order (corosync.conf(5)), with no knowledge of
//! which names mean something.
//!
//! Promises: `read_tree` answers the tree exactly where the text is a configuration, and else the first fault
//! in a fixed order, with the line where it stands. Only where it runs out of memory is left open.
#![tactic(auto)]

mod faults;
mod line;
mod reader;
mod tree;

pub use faults::ConfFault;
pub use line::is_blank;
pub use reader::{MOST_TEXT_BYTES, read_tree};
pub use tree::{Item, Tree, Word};
