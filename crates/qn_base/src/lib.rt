//! The words that the whole repository speaks: node ids, ranks, masks of ranks, views, what a Hello says, decimal
//! numbers, short texts, limits, calls on the outside, and the sum of the votes of a view's members. No crate below this
//! one; nothing here knows of settings, histories or the outside.
//!
//! Promises: `read_decimal` and `write_decimal` are exact both ways, `votes` is the plain sum over the
//! members, and `chosen` is the member of least rank. `specs/PlanSteps` has the laws of plans of calls.
#![tactic(auto)]

mod calls;
mod decimal;
mod faults;
mod fields;
mod ids;
mod limits;
mod masks;
mod members;
mod text;

pub use calls::{Bytes, Call, Received};
pub use decimal::{read_decimal, write_decimal};
pub use faults::{Failed, NoMemory};
pub use fields::{add_u16, add_u32, add_u64};
pub use ids::{Mask, NodeId, Rank, Said, Standing, View};
pub use limits::{LATEST_TIME, LONGEST_PERIOD, MOST_EVENTS, MOST_LINE_BYTES};
pub use members::{chosen, votes};
pub use text::{ShortText, add, add_number, yes_no};
