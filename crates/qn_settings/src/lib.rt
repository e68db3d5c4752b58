//! The settings that a tree of corosync.conf gives (corosync.conf(5), votequorum(5)).
//!
//! Promises: `settings` answers the settings of the tree exactly where no fault of the list applies, and they are
//! valid (`law_valid_settings`); else it answers the first fault in a fixed order. It takes no memory.
//! `settings_of_text` answers those of a whole text, or the first fault of the text or of its tree; only where it runs
//! out of memory is left open.
#![tactic(auto)]

mod entries;
mod faults;
mod key;
mod laws;
mod nodes;
mod reading;
mod section;
mod text;
mod tie_order;
mod values;

pub use faults::{SettingsFault, TextFault};
pub use key::Key;
pub use laws::law_valid_settings;
pub use reading::settings;
pub use text::settings_of_text;
