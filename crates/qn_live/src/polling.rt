//! What a node that polls an arbiter sends to it, and from when on.
ghost use Rattle.std.specs.Prelude.{◌≡◌, ◌<◌, ◌+◌, ◌-◌, ◌^◌, ◌&&◌, min, not, false, if◌then◌else◌, option_map};
ghost use Rattle.qn_base.specs.Members.{is_member};
ghost use Rattle.qn_safety.specs.Poller.{fresh_poller};
ghost use Rattle.qn_polls.specs.Poller.{poller_of};
ghost use Rattle.qn_live.specs.Asking.{IsServed, IsWithin, is_look, question_of};
ghost use Rattle.qn_live.specs.Polling.{has_lost, has_lost_members, is_device, is_view_entry, poll_call, poller_after};

use crate::asked::{Asked, Room};
use qn_base::{Mask, Rank, View};
use qn_model::What;
use qn_polls::{Poller, put_poll};
use qn_safety::Poll;

/// The seat of the arbiter: one above the ranks.
pub const ARBITER: Rank = Rank(32);

/// What a node that begins polls with, by the limit within which it takes a reply.
pub fn fresh(polls: Option<u64>) -> Option<Poller>
    ensures { option_map poller_of result ≡ option_map fresh_poller polls }
{
    match polls {
        Some(limit) => Some(Poller::new(limit)),
        None => None,
    }
}

/// The poll is sent to the arbiter.
pub fn ask_poll(poll: &Poll, room: &mut Room) -> Asked
    ensures asked { question_of result room.new ≡ poll_call poll.now }
    ensures within { IsWithin result }
    ensures served { IsServed result }
    ensures looks { is_look result ≡ false }
{
    put_poll(poll, &mut room.sent);
    Asked::Send { to: ARBITER }
}

/// A view makes a poller forget its last poll, and so does a reply that it took.
pub fn hear_entry(poller: &mut Option<Poller>, entry: What)
    ensures { option_map poller_of poller.new ≡ poller_after entry (option_map poller_of poller.old) }
{
    if (is_view(entry) || is_device(entry))
        && let Some(poller) = poller
    {
        poller.on_view();
    }
}

/// Whether an entry is a view.
pub fn is_view(entry: What) -> bool
    ensures { result ≡ is_view_entry entry }
{
    matches!(entry, What::View(_))
}

/// Whether an entry is an answer of the device.
pub fn is_device(entry: What) -> bool
    ensures { result ≡ is_device entry }
{
    matches!(entry, What::Device(_))
}

/// Whether a view has lost a node of another one.
pub fn has_lost(before: Option<View>, after: View) -> bool
    ensures { result ≡ has_lost before after }
{
    match before {
        Some(before) => has_left(before.members, after.members),
        None => false,
    }
}

/// From when on a node polls after a view, by whether that has lost a node and whether the node holds.
pub fn wait_until(has_lost: bool, holds: bool, tick: u64, loop_ms: u64) -> u64
    ensures { result ≡ (if has_lost && not holds then min (tick + loop_ms) (2 ^ 64 - 1) else 0) }
{
    if has_lost && !holds {
        tick.saturating_add(loop_ms)
    } else {
        0
    }
}

fn has_left(before: Mask, after: Mask) -> bool
    ensures { result ≡ has_lost_members before after }
{
    (0..32u8).any(|rank| is_lost(before, after, Rank(rank)))
}

fn is_lost(before: Mask, after: Mask, rank: Rank) -> bool
    requires { rank.0 < 32 }
    ensures { result ≡ (is_member before rank.0 && not (is_member after rank.0)) }
{
    before.has(rank) && !after.has(rank)
}
