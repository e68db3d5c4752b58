//! The lines in which a running node tells what happens to it, and when each is told: its events, that a node is heard or silent, what its mailbox
//! holds, that an image is lost or is back, what the arbiter answers, what happens often, that stops fail, and what it tells the others of itself.
//! Nothing here knows a stream, a file, or the system's clock.
//!
//! Promises: each line is exactly the defined one: its level, what it begins with, its name and its words (`specs/Events` of what a node tells
//! of an entry, `specs/Remarks` of what wants bytes, a clock or a device). At each turn exactly the defined lines are said, in their order, to whoever
//! is told them, and what is known after it is the defined too (`Teller::turn`, `specs/Telling`). Of what happens often none is told twice and none is
//! left out (`Seldom::due`, clause `kept`). That a node begins or ends to hold is told the others at once (`Telling::is_due`, clause `at_once`).
#![tactic(auto)]

mod around;
mod device;
mod differing;
mod entered;
mod events;
mod images;
mod mail;
mod news;
mod node_names;
mod peers;
mod remarks;
mod says;
mod seldom;
mod stops;
mod teller;
mod telling;

pub use around::Around;
pub use device::DeviceNews;
pub use entered::Entered;
pub use events::{add_failed, event_line};
pub use images::{IMAGE, ImageNews, Images};
pub use mail::{MailNews, MailState, Mailbox};
pub use news::News;
pub use node_names::NodeNames;
pub use peers::{Peer, Peers};
pub use remarks::{
    device_answered, device_silent, ended, feeds_failed, image_back, image_lost, mail_damaged,
    mail_failed, mail_told, network_back, network_lost, packets_refused, peer_lost, peer_seen,
};
pub use says::Says;
pub use seldom::Seldom;
pub use stops::Stops;
pub use teller::Teller;
pub use telling::Telling;
