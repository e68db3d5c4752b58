//! The journal of a running node or arbiter and its status file: what `Notices` hands on becomes lines on standard error, in the grammar of
//! FORMATS.md, and one object of JSON in a file that is replaced. It is the edge: the system's clock, and files. What is told of
//! an entry is decided by `qn_notice`, and which lines are told, of what, and their bytes by `qn_told`.
//!
//! Promises: at each call that is heard exactly the defined lines are said, and at the end the one of it, to whoever is told them (`specs/Hearing`); the
//! text of a status is that of a value which shows where the node stands, whether it holds among it (`specs/Statuses`). Each call
//! ends, takes no memory from an allocator, and fails nowhere. No clause says what a file or standard error takes.
#![tactic(auto)]

mod arbiter;
mod ending;
mod fixed_text;
mod group_file;
mod journal;
mod json_text;
mod on_errors;
mod showing;
mod shown_text;
mod status;
mod text;
mod writing;

pub use journal::Journal;
pub use on_errors::OnErrors;
pub use qn_told::NodeNames;
pub use shown_text::ShownText;
