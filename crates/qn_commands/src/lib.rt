//! The commands that play no schedule and run no node, and what every command shares: how it ends (`Status`, `Fault`, `say`, `refuse`),
//! and the reading of the settings (`read_settings`, and with the text `read_good_text`).
//!
//! Promises: each command's function meets the record of the command in specs/Commands, which says what was read, called
//! and written, which statuses there are, and that each fault has its cause.
#![tactic(auto)]

mod commands;
mod counter;
mod ending;
mod fault;
mod image;
mod image_texts;
mod path;
mod settings_text;
mod status;

pub use commands::count::count;
pub use commands::create::create;
pub use commands::dump::dump;
pub use commands::list::list;
pub use commands::message::send;
pub use commands::migrate::migrate;
pub use ending::{refuse, say};
pub use fault::{Fault, LeaseTimes};
pub use path::Path;
pub use settings_text::{GoodText, SettingsText, read_good_text, read_settings};
pub use status::Status;
