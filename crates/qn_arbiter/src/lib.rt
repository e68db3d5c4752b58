//! An arbiter with leased votes, and the poller of a node, each in fixed memory; the world of a cluster beside it: the nodes with the
//! image that they share, those of `qn_world`, the arbiter, which is off or runs with a clock of its own, a poller at each node, and
//! the polls and the replies ever sent; and the lines of its schedules and traces.
//!
//! Promises: an `Arbiter` stands for what the definition remembers of the polls that it heard, and its answer is exactly
//! the defined one; a `Poller` is one of the definition, and takes exactly the replies that the definition takes.
//!
//! An `ArbiterWorld` stands for a world of the definitions that allowed events lead to (`specs/Standing`).
//! `allowed` is exactly the rules; `apply_into`, and `apply` on it, answers the rule that refuses an event, or makes exactly the
//! step of the definitions and reports the new world. After a refusal the world is as it was. It runs out of memory only where a poll or
//! a reply is sent, or where the step of the nodes wants memory. At most one node holds; and where the vote is leased, no two
//! nodes with disjoint present views are both quorate.
//!
//! A line is accepted as an event exactly where it is the one spelling of that well formed event (`law_arbiter_lines`), and as the two
//! times of a lease exactly where it is their spelling; the first fault is named. The trace line of a report is written exactly. The
//! lines that `qn_sched` knows are read and written by it. Nothing here reads or writes a file.
#![tactic(auto)]

mod event_line;
mod event_name;
mod kinds;
mod laws;
mod lease_line;
mod pollers;
mod rules;
mod running;
mod state;
mod steps;
mod trace;
mod world;

pub use event_line::read_arbiter_line_into;
pub use laws::law_arbiter_lines;
pub use lease_line::read_lease;
pub use trace::write_arbiter_trace;
pub use world::{ArbiterWorld, blank_report};
