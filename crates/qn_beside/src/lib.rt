//! Running nodes beside a running arbiter.
//!
//! `specs/Beside` says what may happen to them, call by call and byte by byte: what may happen to running nodes that share one image, each of
//! which polls, and to an arbiter, of which one runs at a time. Promises: at most one resource runs at any moment, whatever the arbiter does
//! (`law_one_owner_beside`); and no two running nodes with disjoint present views are both quorate (`law_one_lease_runs`). Each such run
//! is a run of the world beside an arbiter: each thing that happens is one event of its nodes at most, and a poll, an answer or a boot
//! of the arbiter at most. It is of one image alone. The premises are met (`law_one_side_is_quorate`), and that the arbiter's clock is 1 per cent
//! fast at most is one of them that cannot be left out (`law_faster_clock_breaks_it`).
#![tactic(auto)]

mod laws;
mod premises;

pub use laws::{law_one_lease_runs, law_one_owner_beside};
pub use premises::{law_faster_clock_breaks_it, law_one_side_is_quorate};
