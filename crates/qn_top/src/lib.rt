//! The commands of the program, from the bytes in to the bytes out: `top` is all that the program does.
//!
//! Promises, on `top`: what is written, the calls on the outside and the status are exactly those that the
//! definition gives for the words, the bytes read and the answers of the calls (specs/Does.antt, a record for each
//! command). Status 2 comes exactly for words that are no command; 6, 7 and 8 only where the count of faults of
//! the source, the sink or the outside rose, and at 7 the first bytes of the text were written. `create`, `node`,
//! `node3`, `node-logged`, `node3-logged` and `audit` take memory for their settings text, and `replay`, `status` and `soak` for that and for their worlds.
//! Input is read in pieces of at most 4096 bytes, and none after the piece in which the end stood.
#![tactic(auto)]

mod command;
mod command_name;
mod commands;
mod options;
mod program;
mod replay_end;

pub use program::top;
