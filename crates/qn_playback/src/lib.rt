//! A schedule as it is read: its head, which is a settings text, the line `----` and the timing line, and the lines after it, played by
//! any world. Every other input that begins with a settings text has its head read here too.
//!
//! Promises: `read_settings`, `read_head_line` and `read_head` give exactly what the definitions of `specs/Heads` give for
//! the bytes that were taken, however they were cut into pieces, and take no byte that the value or the end does not
//! need. What follows a head is each caller's own: the laws of `specs/PartLaws` join a head and whatever follows it.
//! `specs/Replays` says what a replay answers, whatever its head and its world are, and `specs/ReplayLaws` joins the two.
//!
//! On `play`: the trace and the end are exactly those that the definition gives for the bytes that were
//! read and for what the world says to a line (`Plays`), however the bytes were cut; no byte is taken that the end
//! does not need; a write that failed leaves a prefix of the trace; where it ran out of memory, the trace of all lines
//! before was written. The text is written in blocks of up to 8192 bytes, and always before the source is
//! read: the one function that reads it requires that nothing waits.
//!
//! The laws of taking an input step by step (`specs/Steps`) and of whole runs (`specs/RunLaws`) serve both.
#![tactic(auto)]

mod head;
mod head_fault;
mod head_line;
mod lines;
mod null_sink;
mod output;
mod part_text;
mod plays;
mod run;
mod settings_head;

pub use head::{Head, read_head};
pub use head_fault::HeadFault;
pub use head_line::read_head_line;
pub use null_sink::NullSink;
pub use output::{MOST_WAITING, Output};
pub use plays::Plays;
pub use run::play;
pub use settings_head::{SettingsHead, read_settings};
