//! The interfaces of the outside, and what reads and writes over them: where bytes come from and where they go, the calls of a node on
//! its disk, its network, its clock and its devices, and the faults that were counted; lines that are read, and bytes that are all written.
//! Nothing here knows what the bytes mean, and nothing what a source, a sink or an outside is made of.
//!
//! Promises: whatever a source, a sink or an outside does, its count of faults never falls, and a call
//! answers `Failed` only where that count rose. Bytes that are told come and go whole and in order; calls
//! that are told are exactly the calls that were made, with their answers.
#![tactic(auto)]

mod buffered;
mod calls;
mod lines;
mod next_line;
mod outside;
mod whole;

pub use buffered::{LINE, Next, PIECE, Pieces};
pub use calls::{Env, Got, Opening, PACKET, SECTOR, SECTORS, SENT_PACKET};
pub use lines::{LineRead, read_line};
pub use next_line::{NextLine, read_next};
pub use outside::{Sink, Source};
pub use whole::put_all;
