//! Writes polls and replies as their bytes.
ghost use Rattle.std.specs.Prelude.{◌≡◌};
ghost use Rattle.arrayvec.specs.ArrayVec.{array_vec_len};
ghost use Rattle.qn_polls.specs.Polls.{poll_bytes, reply_bytes};

use crate::fields::{self, Spelling};
use qn_base::add;
use qn_safety::{Poll, Reply};

/// The kind of a poll.
const POLL: u8 = 6;

/// The kind of a reply.
const REPLY: u8 = 7;

/// Empties `into`, and writes the spelling of the poll. One that is not well formed has a spelling too, which
/// [`get_poll`](crate::get_poll) does not read.
#[tactic(auto, unfolding(crate::specs::Polls::poll_bytes))]
pub fn put_poll(poll: &Poll, into: &mut Spelling)
    ensures spelling { into.new.items ≡ poll_bytes poll.now }
    ensures length { array_vec_len into.new ≡ 40 }
{
    fields::begin(into, POLL);
    add(into, &[poll.from.0]);
    fields::add_numbers(into, poll.number, poll.incarnation, poll.install);
    fields::add_view(into, poll.view);
}

/// Empties `into`, and writes the spelling of the reply. One that is not well formed has a spelling too, which
/// [`get_reply`](crate::get_reply) does not read.
#[tactic(auto, unfolding(crate::specs::Polls::reply_bytes))]
pub fn put_reply(reply: &Reply, into: &mut Spelling)
    ensures spelling { into.new.items ≡ reply_bytes reply.now }
    ensures length { array_vec_len into.new ≡ 29 }
{
    fields::begin(into, REPLY);
    add(into, &[reply.to.0]);
    fields::add_numbers(into, reply.number, reply.incarnation, reply.install);
    add(into, &[u8::from(reply.agrees)]);
}
