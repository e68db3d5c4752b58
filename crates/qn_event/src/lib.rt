//! A line of a running node's journal, as text.
//!
//! Promises: a line begins with its node, its tick, its time, its level and its event as defined, has exactly the words that were added to it
//! (`specs/EventWords`), a plain one as ` KEY=VALUE`, and at most 511 bytes without its end; whatever its values are, none of its words holds a
//! control, so that it is one line. The text of a value is read as that value (`law_value_read_back`).
#![tactic(auto)]

mod event_line;
mod event_name;
mod laws;
mod level;
mod moment;
mod value;

pub use event_line::EventLine;
pub use event_name::EventName;
pub use laws::{law_event_names_read_back, law_value_read_back};
pub use level::Level;
pub use moment::Moment;
pub use value::read_value;
