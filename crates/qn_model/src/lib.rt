//! What a cluster member's settings, times and votes are, with the definitions that every contract above
//! cites and the laws that hold of them. Nothing here says how anything is computed from a history.
//!
//! Promises: `timing_safe` is exactly the definition of safe timing; the laws are contracts of functions
//! without parameters: two nodes with disjoint present views are never both quorate
//! (`law_disjoint_views`), with wait_for_all on nothing is quorate before a release
//! (`law_released_first`), and a reset goes only to a node outside the view, after its fence delay
//! (`law_reset_outside`).
#![tactic(auto)]

mod clocks;
mod configuration;
mod count_line;
mod count_rows;
mod disk;
mod entries;
mod events;
mod laws;
mod life;
mod line_fault;
mod mailbox;
mod nodelist;
mod order;
mod outputs;
mod packets;
mod reports;
mod rules;
mod seen;
mod times;
mod votes;

pub use clocks::Clocks;
pub use configuration::{Device, Settings};
pub use count_line::CountLine;
pub use count_rows::{law_count_ending, law_empty_count, law_half_and_majority};
pub use disk::{Message, Slot};
pub use entries::{Entry, What};
pub use events::Event;
pub use laws::{
    law_disjoint_views, law_disjoint_votes, law_present_view, law_released_first, law_reset_outside,
};
pub use life::{Phase, Why};
pub use line_fault::LineFault;
pub use mailbox::{Mail, Sender};
pub use nodelist::{NodeEntry, Nodes};
pub use order::Order;
pub use outputs::{BootCause, DiskOp, HaltKind, Out, Outs};
pub use packets::{Ask, Packet, Sent, Tell};
pub use reports::{Refused, Report};
pub use rules::Rule;
pub use seen::{HeaderSeen, MailSeen, SlotSeen};
pub use times::{Timing, timing_safe};
pub use votes::{Answer, VoteEntry, VoteWhat};
