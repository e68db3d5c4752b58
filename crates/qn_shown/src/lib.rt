//! What a running node shows of itself in its status file, as a value: its text, one object of JSON, and the reading of that text.
//!
//! Promises: the text of what a node shows is read as what it shows, whatever its words are (`law_shown_read_back`); `read_shown` gives exactly what a text
//! says as defined, and refuses a key that stands twice.
#![tactic(auto)]

mod fault;
mod group;
mod keys;
mod kinds;
mod laws;
mod lists;
mod reading;
mod short_string;
mod shown;
mod telling;
mod words;

pub use fault::ShownFault;
pub use group::Group;
pub use laws::{law_shown_read_back, law_told_read_back, law_words_read_back};
pub use reading::read_shown;
pub use short_string::ShortString;
pub use shown::{
    Arbiter, Candidate, Counts, Heard, HostStanding, Mailbox, Peer, Shown, ShownView, Told,
};
pub use telling::{Spelling, get_told, put_told};
pub use words::{DeviceAnswer, MailState};
