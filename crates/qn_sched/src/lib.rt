//! The lines of a schedule, of its trace and of the input of `count`, word by word. Nothing here reads or writes.
//!
//! Promises: the words of a line are exactly the parts round single spaces; a number is accepted exactly
//! where it has no leading zero and is in range; a list of members is accepted exactly where its ids are
//! those of nodes and ascend strictly. A line is accepted as an event exactly where it is the one spelling of
//! that well formed event (`law_event_lines`), and as times exactly where it is their spelling; the first fault is named. The
//! line of an event and the trace line of a report are written exactly.
#![tactic(auto)]

mod clocks;
mod event_line;
mod event_name;
mod event_text;
mod holder;
mod kept_beginning;
mod kept_state;
mod laws;
mod members;
mod numbers;
mod replay_end;
mod text;
mod timing_line;
mod trace;
mod trace_writer;
mod words;

pub use event_line::{message_worded, read_line, read_line_into, read_pass};
pub use event_text::write_line;
pub use laws::law_event_lines;
pub use members::{known_rank, read_members};
pub use numbers::number_between;
pub use qn_model::LineFault;
pub use replay_end::ReplayEnd;
pub use timing_line::read_timing;
pub use trace::{write_trace, write_trace_with};
pub use trace_writer::TraceWriter;
pub use words::{first_part, next_word, no_more_words, one_word, three_words, two_words};
