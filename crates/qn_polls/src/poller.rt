//! The poller of a node: its polls, and the replies that it takes.
ghost use Rattle.std.specs.Prelude.{◌≡◌};
ghost use Rattle.qn_safety.specs.Poller.{is_reply_to};

use qn_base::{Rank, View};
use qn_safety::{Poll, Reply};

/// What a node that may poll shows of itself: the tick of its clock in milliseconds, its incarnation, its install number and
/// its view.
#[derive(Clone, Copy, PartialEq, Eq)]
pub struct Standing {
    pub tick: u64,
    pub incarnation: u64,
    pub install: u64,
    pub view: View,
}

/// A poll that was sent, with the tick of its node then.
#[derive(Clone, Copy)]
struct SentPoll {
    tick: u64,
    poll: Poll,
}

/// What a node keeps of its polls in one boot: the limit in milliseconds within which it takes a reply, how many polls it
/// sent, and the last one since its last view.
#[derive(Clone, Copy)]
pub struct Poller {
    limit: u64,
    count: u64,
    last: Option<SentPoll>,
}

impl Poller {
    ghost use Rattle.std.specs.Prelude.{◌≡◌, ◌<◌, ◌+◌};
    ghost use Rattle.qn_safety.specs.Poller.{answer_taken, fresh_poller, is_reply_to, next_poll, with_sent, without_last};
    ghost use Rattle.qn_polls.specs.Poller.{poller_of, standing_of};

    /// The poller of a node that boots.
    pub fn new(limit: u64) -> Self
        ensures { poller_of result ≡ fresh_poller limit }
    {
        Poller {
            limit,
            count: 0,
            last: None,
        }
    }

    /// The next poll of the node of a rank, which stands so: polls are numbered from 0.
    pub fn poll(&mut self, from: Rank, at: Standing) -> Poll
        requires { (poller_of self.old).count < u64.MAX }
        ensures poll { result ≡ next_poll from (standing_of at) (poller_of self.old) }
        ensures sent { poller_of self.new ≡ with_sent from (standing_of at) (poller_of self.old) }
    {
        let poll = self.next(from, at);
        self.count += 1;
        self.last = Some(SentPoll {
            tick: at.tick,
            poll,
        });
        poll
    }

    /// The poll that the node would send next.
    pub fn next(&self, from: Rank, at: Standing) -> Poll
        ensures { result ≡ next_poll from (standing_of at) (poller_of self.now) }
    {
        Poll {
            from,
            number: self.count,
            incarnation: at.incarnation,
            install: at.install,
            view: at.view,
        }
    }

    /// How many polls the node sent.
    pub fn count(&self) -> u64
        ensures { result ≡ (poller_of self.now).count }
    {
        self.count
    }

    /// A view of the node: it forgets its last poll.
    pub fn on_view(&mut self)
        ensures { poller_of self.new ≡ without_last (poller_of self.old) }
    {
        self.last = None;
    }

    /// What the node takes from a reply at this tick: its answer exactly where the last poll has its number, incarnation and
    /// install number, and is at most the limit old.
    pub fn reply(&self, tick: u64, reply: &Reply) -> Option<bool>
        ensures { result ≡ answer_taken tick reply.now (poller_of self.now) }
    {
        let sent = self.last?;
        let is_in_time = tick <= sent.tick || tick - sent.tick <= self.limit;
        if is_reply_to(&sent.poll, reply) && is_in_time {
            Some(reply.agrees)
        } else {
            None
        }
    }
}

/// Whether a reply answers a poll.
fn is_reply_to(poll: &Poll, reply: &Reply) -> bool
    ensures { result ≡ is_reply_to poll.now reply.now }
{
    poll.number == reply.number
        && poll.incarnation == reply.incarnation
        && poll.install == reply.install
}
