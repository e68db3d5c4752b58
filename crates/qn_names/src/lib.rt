//! The words that a status, a journal, the line of a running node and a trace share: of phases, of what blocks a start, of counts and of
//! the causes for which a boot halts. Nothing here knows a schedule.
//!
//! Promises: each text is exactly the defined one, and no longer than the room that its call asks for.
#![tactic(auto)]

mod answer;
mod cause;
mod numbered;
mod phase;
mod why;

pub use answer::{add_answer, answer_text};
pub use cause::cause_number;
pub use numbered::add_numbered;
pub use phase::phase_name;
pub use why::{add_why, write_why};
