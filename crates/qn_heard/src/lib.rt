//! What a node heard of the other members of its view about the resource, in fixed memory: who said that
//! it holds nothing, who said that it holds, and when the others are to be asked.
//!
//! Promises: a `Heard` stands for a node's log (`specs/Heard`). A Tell counts exactly where it answers the
//! present incarnation, install number and view; `state`, `holder` and `unheard` are the definitions of
//! `qn_model`; `asks` names exactly those whom the definition asks, at the asking moments alone; `reply`
//! is the defined answer to an Ask. A new view forgets all that was heard.
#![tactic(auto)]

mod laws;
mod listener;

pub use laws::{law_asks_by_members, law_few_installs, law_not_asking, law_other_lines};
pub use listener::{Heard, Heardness};
