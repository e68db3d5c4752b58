//! The boot of a node in types: each step takes the state before it and hands out the next one, or halts
//! and hands nothing back.
//!
//! Promises: a boot goes on and halts exactly by the boot table (`qn_model/specs/Phases`); a clean start, and
//! no other boot, checks its mailbox between its slot and its claim; a `Ready` comes only out of a clear that
//! succeeded, and carries the incarnation that was claimed, the times of the header and the tick of the clear.
//! Each state stands for the log of the node that boots (`specs/Boot`).
//! No call has a condition.
#![tactic(auto)]

mod laws;
mod steps;

pub use laws::law_boot_waits;
pub use steps::{
    AfterSlot, Boot, Halt, Ready, WantCheck, WantClaim, WantClear, WantHeader, WantSlot,
};
