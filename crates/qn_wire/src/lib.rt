//! The bytes of packets: one spelling for each well formed packet; an announcement without a name is also read in the kind of
//! those with one.
//!
//! Promises: `put_packet` writes the spelling of any packet. `get_packet` answers Some exactly where the bytes are a
//! spelling of that packet and it is well formed, and None exactly elsewhere; so a well formed packet that was put is
//! read back. A view with a name is put and read in kind 11 alone. No call takes memory.
#![tactic(auto)]

mod fields;
mod kinds;
mod laws;
mod reading;
mod writing;

pub use laws::{law_named_views_have_their_kind, law_read_back};
pub use reading::{get_packet, is_rank, is_view, read_view};
pub use writing::put_packet;
