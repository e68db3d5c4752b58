//! The command of a running arbiter: `arbiter`.
//!
//! Promises: `arbiter` meets the record of `specs/Arbitrating`, which says what was read, called and written, which statuses there are, and that
//! each fault has its cause.
#![tactic(auto)]

mod command;

pub use command::{ArbiterWords, arbiter};
