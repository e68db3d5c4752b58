//! The pollers of all nodes, by rank.
use qn_base::Rank;
use qn_model::Event;
use qn_polls::{Poller, Standing};
use qn_safety::{Poll, Reply};
use std::marker::Model;

/// A poller at each rank.
#[derive(Drop)]
pub(crate) struct Pollers {
    all: [Poller; 32],
}

impl Model for Pollers {
    ghost use Rattle.std.specs.Prelude.{List, map};
    ghost use Rattle.qn_polls.specs.Poller.{poller_of};
    ghost use Rattle.qn_safety.specs.Poller.{Poller as DefinedPoller};

    ghost Value = { List DefinedPoller };

    ghost view = { λ pollers. map poller_of pollers.all };
}

impl Pollers {
    ghost use Rattle.std.specs.Prelude.{◌≡◌, ◌<◌, ℕ, Some, slice_get};
    ghost use Rattle.qn_polls.specs.Poller.{standing_of};
    ghost use Rattle.qn_safety.specs.declared.lease.Lease.{Lease};
    ghost use Rattle.qn_safety.specs.ArbiterSteps.{pollers_with};
    ghost use Rattle.qn_safety.specs.Poller.{Poller as DefinedPoller, answer_taken, fresh_poller, next_poll, with_sent, without_last};
    ghost use Rattle.qn_model.specs.Steps.{touched};
    ghost use Rattle.qn_model.specs.World.{put};
    ghost use Rattle.qn_arbiter.specs.Standing.{IsRankWithin, PollersFor};

    /// The pollers of nodes that never booted, which take replies within this limit, in milliseconds.
    pub(crate) fn new(limit: u64) -> Self
        ensures { PollersFor result (λ rank. fresh_poller limit) }
    {
        Pollers {
            all: [Poller::new(limit); 32],
        }
    }

    /// The poll that the node of a rank, which stands so, would send next.
    pub(crate) fn next(&self, i: Rank, at: Standing) -> Poll
        requires { i.0 < 32 }
        ensures { (pollers : ℕ → DefinedPoller)
            → PollersFor self.now pollers
            → result ≡ next_poll i (standing_of at) (pollers i.0) }
    {
        self.all[usize::from(i.0)].next(i, at)
    }

    /// What the node of a rank takes from a reply at this tick.
    pub(crate) fn answer(&self, i: Rank, tick: u64, reply: &Reply) -> Option<bool>
        requires { i.0 < 32 }
        ensures { (pollers : ℕ → DefinedPoller)
            → PollersFor self.now pollers
            → result ≡ answer_taken tick reply.now (pollers i.0) }
    {
        self.all[usize::from(i.0)].reply(tick, reply)
    }

    /// The node of a rank, which stands so, sent its next poll.
    pub(crate) fn send(&mut self, i: Rank, at: Standing)
        requires within { i.0 < 32 }
        requires few { (poller : DefinedPoller)
            → slice_get self.old i.0 ≡ Some poller
            → poller.count < u64.MAX }
        ensures { (pollers : ℕ → DefinedPoller)
            → PollersFor self.old pollers
            → PollersFor self.new (put pollers i.0 (with_sent i (standing_of at) (pollers i.0))) }
    {
        self.all[usize::from(i.0)].poll(i, at);
    }

    /// The poller of a rank is that of a node that boots.
    fn boot(&mut self, i: Rank, limit: u64)
        requires { i.0 < 32 }
        ensures { (pollers : ℕ → DefinedPoller)
            → PollersFor self.old pollers
            → PollersFor self.new (put pollers i.0 (fresh_poller limit)) }
    {
        self.all[usize::from(i.0)] = Poller::new(limit);
    }

    /// The poller of a rank is told of a view.
    fn on_view(&mut self, i: Rank)
        requires { i.0 < 32 }
        ensures { (pollers : ℕ → DefinedPoller)
            → PollersFor self.old pollers
            → PollersFor self.new (put pollers i.0 (without_last (pollers i.0))) }
    {
        self.all[usize::from(i.0)].on_view();
    }

    /// The pollers after an event of the nodes, with this limit: that of a node that boots is new, and that of a node that is
    /// handed a view forgets its last poll.
    pub(crate) fn meet(&mut self, limit: u64, event: &Event)
        requires { IsRankWithin 32 (touched event.now) }
        ensures { (times : Lease) (pollers : ℕ → DefinedPoller)
            → times.limit ≡ limit
            → PollersFor self.old pollers
            → PollersFor self.new (pollers_with times event.now pollers) }
    {
        match event {
            Event::Boot(i, _) => self.boot(*i, limit),
            Event::BootClean(i, _) => self.boot(*i, limit),
            Event::View(i, _) => self.on_view(*i),
            Event::Pass { .. } => {}
            Event::Crash(_) => {}
            Event::Land(_) => {}
            Event::Done(_) => {}
            Event::Fail(_) => {}
            Event::Late(_, _) => {}
            Event::Deliver(_, _) => {}
            Event::Device(_, _) => {}
            Event::Tick(_) => {}
            Event::Stopped(_) => {}
            Event::Unstopped(_) => {}
            Event::Leave(_) => {}
            Event::Feed(_) => {}
            Event::Operator(_, _) => {}
        }
    }
}
