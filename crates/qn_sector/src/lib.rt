//! The bytes of an image's sectors: one spelling of 512 bytes for each header, slot and mailbox, and the
//! sectors where they stand, in the two versions of an image. Fields are big-endian and written through `byteorder`.
//!
//! Promises: each `put_` writes the spelling of its value. Each `get_` answers Some exactly where all 512
//! bytes are the spelling of that value, and None exactly where they are the spelling of nothing; so what
//! was put is read back. No call takes memory.
#![tactic(auto)]

mod fields;
mod header;
mod laws;
mod mailbox;
mod places;
mod slot;

pub use header::{get_header, get_header_1, put_header};
pub use laws::{law_read_back, law_read_header_1};
pub use mailbox::{get_mail, get_mail_1, put_mail};
pub use places::{mail_sector, mail_sector_1, slot_sector};
pub use slot::{get_slot, put_slot};
