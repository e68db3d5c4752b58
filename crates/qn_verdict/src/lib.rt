//! What the status files of a cluster come to.
//!
//! Promises: a file of a node is stale, a verdict on such files is reached, and a network is told as down, exactly as defined; of the texts that nodes write
//! `law_verdict` says what an operator rests on.
#![tactic(auto)]

mod file;
mod laws;
mod networks;
mod verdict;
mod voice;

pub use file::{is_answered, is_quiet, is_stale, members, miss_time};
pub use laws::law_verdict;
pub use networks::{is_cut_off, is_down_between, is_network_down};
pub use verdict::{Verdict, judge};
pub use voice::{
    Voice, are_all_told, has_voice, is_contested, is_fresh, is_heard, is_held, is_held_twice,
    is_here, is_live, told_voice, voice_of,
};
