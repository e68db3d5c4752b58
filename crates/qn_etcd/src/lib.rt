//! What is asked of an etcd cluster that keeps an image, and what its answers say: keys, transactions, tokens of boots, heads and bodies of
//! answers. Nothing here knows what a sector means, and nothing is sent here.
//!
//! Promises: each request is the defined text of who writes, of the sector and of its bytes; a boot's request holds the comparison with its
//! token, without which etcd does nothing. An answer is taken to say what its definition says of the JSON that was read, and else nothing.
#![tactic(auto)]

mod answers;
mod heads;
mod keys;
mod requests;
mod writers;

pub use answers::{AnswerFault, Entry, ReadAnswer, WriteAnswer, read_answer, write_answer};
pub use heads::{Head, head_of};
pub use keys::{Key, MOST_PREFIX, sector_key, writer_key};
pub use requests::{
    holder_request, open_request, post, read_request, release_request, write_request,
};
pub use writers::{Boot, TOKEN, Token, Writer, opening_revision, token_of};
