//! The calls of an operator on a disk image: make one, read its header and its lines, leave a message in a
//! mailbox (sbd(8), `create`, `dump`, `list`, `message`), and bring it to version 2, over any outside.
//!
//! Promises: each call makes exactly the reads and writes of its plan, in order, up to the first that
//! fails, and answers as the plan says. `Disk` comes only where the outside's count of faults rose. An
//! image whose creation was stopped is no image, and one whose migration was stopped is as before or done; a
//! created one spells every header, slot and mailbox. No test and no exit replaces a deadly message.
//! No call takes memory.
#![tactic(auto)]

mod creating;
mod fault;
mod laws;
mod messaging;
mod migrating;
mod reading;

pub use creating::create;
pub use fault::ImageFault;
pub use laws::{
    law_created_image, law_creation_writes, law_image_faults, law_kept_messages, law_migration,
    law_stopped_creation, law_stopped_migration,
};
pub use messaging::message;
pub use migrating::migrate;
pub use reading::{header, line_of};
