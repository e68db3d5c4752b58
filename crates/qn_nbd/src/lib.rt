//! The bytes of a block server (NBD), as far as an image on one needs them: how a connection begins, what an export is, and how its
//! sectors are read and written (doc/proto.md of NBD: fixed newstyle negotiation with NBD_OPT_GO, simple replies).
//!
//! Promises: each `put_` writes the one spelling of its request; a write asks that it lasts when it is answered (NBD_CMD_FLAG_FUA). An
//! answer is Done only where it has the number of its request and no error. What bytes of the server say is read as the definitions have
//! it, and an export is taken only where its writes last, it is long enough and its blocks are no longer than a sector's place. No call takes
//! memory. That a server does what it answers is nowhere said.
#![tactic(auto)]

mod exports;
mod options;
mod requests;
mod spelling;

pub use exports::{Export, Unfit};
pub use options::{GREETING, MOST_NAME, REPLY, Reply, greeting_of, put_option, reply_of};
pub use requests::{ANSWER, Answer, Command, answer_to, put_request};
