//! Which nodes outside the view a node has seen as clean or has reset, and whom it has to look at or to
//! reset next, in fixed memory.
//!
//! Promises: a `Fence` stands for a node's log (`specs/Fence`). `next` is the defined operation of the
//! fencing, `licensed` is the defined licence, and `unfenced` names the least node outside the view that
//! has none. An answer counts only where it was asked for since the rank was last in a view. No call
//! takes memory.
#![tactic(auto)]

mod fencing;
mod laws;

pub use fencing::{Fence, Licence, Unfenced, Want};
pub use laws::{law_asked_inside, law_other_lines, law_outside};
