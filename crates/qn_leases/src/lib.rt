//! An arbiter that runs: it receives, then looks at the clock, then answers.
//!
//! Promises: the calls that `run_arbiter` makes are those of the plan `arbiter_plan` of `specs/Serving`, and its end is the one of that plan;
//! it begins and goes on as the points of `specs/Points` say (`law_points`). It takes no memory.
#![tactic(auto)]

mod arbiter_end;
mod laws;
mod notices;
mod serving;

pub use arbiter_end::ArbiterEnd;
pub use laws::law_points;
pub use notices::ArbiterNotices;
pub use serving::run_arbiter;
