//! The seal of a packet between machines: a head, the packet, and a tag under a key that the nodes share.
//!
//! Promises: `put_sealed` writes the one spelling of a seal and a packet. `open` answers a packet exactly where the bytes are its
//! spelling under the key beside the text. `Receiver::take` takes exactly what one of its keys opens beside one of its texts, is of another configured rank to
//! this one and newer than what it took of that sender; what it does not take changes nothing. That nobody makes such bytes without the
//! key rests on HMAC-SHA-256 alone, and no clause says it. `tag_of` is that tag, HMAC-SHA-256 (RFC 2104) at a key of 32 bytes.
#![tactic(auto)]

mod keys;
mod laws;
mod mac;
mod opening;
mod receiver;
mod seals;

pub use keys::{Key, Keys, Texts, text_of};
pub use laws::law_taken_once;
pub use opening::open;
pub use receiver::{Newest, Receiver, Refused, is_newer};
pub use seals::{INNER, Seal, put_sealed};
