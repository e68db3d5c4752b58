//! Reads bytes as a poll or as a reply.
ghost use Rattle.std.specs.Prelude.{◌≡◌, ◌≤◌, ◌+◌, length, IfSome, IfNone};
ghost use Rattle.qn_safety.specs.declared.polls.Poll.{Poll};
ghost use Rattle.qn_safety.specs.declared.polls.Reply.{Reply};
ghost use Rattle.qn_polls.specs.Polls.{SpellsPoll, SpellsReply, is_poll, is_reply};
ghost use Rattle.qn_polls.specs.Reading.{poll_at, poll_of, reply_at, reply_of};

use crate::writing::{put_poll, put_reply};
use arrayvec::ArrayVec;
use byteorder::{BigEndian, ByteOrder};
use qn_base::Rank;
use qn_safety::{Poll, Reply};
use qn_wire::{is_rank, is_view, read_view};

/// The poll that these bytes spell: its rank is below 32, and its view has members.
pub fn get_poll(from: &[u8]) -> Option<Poll>
    ensures some { IfSome result (SpellsPoll from.now) }
    ensures none { IfNone result ((poll : Poll) → SpellsPoll from.now poll → ⊥) }
    ensures gives { result ≡ poll_of from.now }
{
    read_poll(from)
}

/// The reply that these bytes spell: its rank is below 32.
pub fn get_reply(from: &[u8]) -> Option<Reply>
    ensures some { IfSome result (SpellsReply from.now) }
    ensures none { IfNone result ((reply : Reply) → SpellsReply from.now reply → ⊥) }
    ensures gives { result ≡ reply_of from.now }
{
    read_reply(from)
}

#[tactic(auto, unfolding(crate::specs::Reading::poll_of))]
fn read_poll(from: &[u8]) -> Option<Poll>
    ensures { result ≡ poll_of from.now }
{
    if from.len() != 40 {
        return None;
    }
    let poll = poll_fields(from);
    if !is_poll(poll) {
        return None;
    }
    let mut spelled = ArrayVec::new();
    put_poll(&poll, &mut spelled);
    if spelled.as_slice() == from {
        Some(poll)
    } else {
        None
    }
}

#[tactic(auto, unfolding(crate::specs::Reading::reply_of))]
fn read_reply(from: &[u8]) -> Option<Reply>
    ensures { result ≡ reply_of from.now }
{
    if from.len() != 29 {
        return None;
    }
    let reply = reply_fields(from);
    if !is_reply(reply) {
        return None;
    }
    let mut spelled = ArrayVec::new();
    put_reply(&reply, &mut spelled);
    if spelled.as_slice() == from {
        Some(reply)
    } else {
        None
    }
}

fn poll_fields(from: &[u8]) -> Poll
    requires { 40 ≤ length from.now }
    ensures { result ≡ poll_at from.now }
{
    Poll {
        from: Rank(from[3]),
        number: BigEndian::read_u64(from.split_at(4).1),
        incarnation: BigEndian::read_u64(from.split_at(12).1),
        install: BigEndian::read_u64(from.split_at(20).1),
        view: read_view(28, from),
    }
}

fn reply_fields(from: &[u8]) -> Reply
    requires { 29 ≤ length from.now }
    ensures { result ≡ reply_at from.now }
{
    Reply {
        to: Rank(from[3]),
        number: BigEndian::read_u64(from.split_at(4).1),
        incarnation: BigEndian::read_u64(from.split_at(12).1),
        install: BigEndian::read_u64(from.split_at(20).1),
        agrees: from[28] == 1,
    }
}

fn is_poll(poll: Poll) -> bool
    ensures { result ≡ is_poll poll }
{
    is_rank(poll.from) && is_view(poll.view)
}

fn is_reply(reply: Reply) -> bool
    ensures { result ≡ is_reply reply }
{
    is_rank(reply.to)
}
