//! The arbiter: what it remembers of each rank, and whether it gives its yes.
ghost use Rattle.std.specs.Prelude.{◌≡◌, ◌<◌, ℕ, ◌&&◌};
ghost use Rattle.std.specs.List.{list_any, range_with_len};
ghost use Rattle.qn_base.specs.Members.{is_member};
ghost use Rattle.qn_safety.specs.Arbiter.{do_meet};

use qn_base::{Mask, Rank};
use qn_safety::Poll;

/// How many ranks there can be.
const RANKS: usize = 32;

/// The incarnation and the install number of a poll: polls of one rank are ordered by them.
#[derive(Clone, Copy)]
struct Installed {
    incarnation: u64,
    install: u64,
}

/// A yes that was given: the tick of the arbiter's clock then, and the members of the view that was polled.
#[derive(Clone, Copy)]
struct Yes {
    tick: u64,
    members: Mask,
}

/// What an arbiter remembers of one rank: the greatest pair of incarnation and install number that it polled, and the
/// last yes that it got.
#[derive(Clone, Copy)]
struct Remembered {
    newest: Option<Installed>,
    yes: Option<Yes>,
}

/// An arbiter in one boot of its own. Ticks are milliseconds of its clock.
#[derive(Clone, Copy)]
pub struct Arbiter {
    lease: u64,
    began: u64,
    ranks: [Remembered; RANKS],
}

impl Installed {
    ghost use Rattle.std.specs.Prelude.{◌≡◌};
    ghost use Rattle.qn_polls.specs.Arbiter.{installed_in, is_before};

    fn of(poll: &Poll) -> Self
        ensures { result ≡ installed_in poll.now }
    {
        Installed {
            incarnation: poll.incarnation,
            install: poll.install,
        }
    }

    /// Whether this one is of an earlier incarnation, or of an earlier view in the same incarnation.
    fn is_before(self, other: Self) -> bool
        ensures { result ≡ is_before self other }
    {
        self.incarnation < other.incarnation
            || self.incarnation == other.incarnation && self.install < other.install
    }
}

impl Remembered {
    ghost use Rattle.std.specs.Prelude.{◌≡◌, None};
    ghost use Rattle.qn_polls.specs.Arbiter.{is_allowed_by, leaves_vote, with_heard};

    /// Whether no later poll of the rank was heard.
    fn allows(self, poll: &Poll) -> bool
        ensures { result ≡ is_allowed_by self poll.now }
    {
        match self.newest {
            Some(newest) => !Installed::of(poll).is_before(newest),
            None => true,
        }
    }

    /// Whether the last yes leaves the vote to a poll of another rank: there is none, or it is no longer younger than the
    /// lease, or its members meet the polled view.
    fn leaves_vote(self, lease: u64, tick: u64, poll: &Poll) -> bool
        ensures { result ≡ leaves_vote self lease tick poll.now }
    {
        match self.yes {
            Some(yes) => {
                let is_live = tick < yes.tick || tick - yes.tick < lease;
                !is_live || do_meet(yes.members, poll.view.members)
            }
            None => true,
        }
    }

    /// After a poll of the rank that was answered at a tick.
    fn with(self, tick: u64, poll: &Poll, agrees: bool) -> Self
        ensures { result ≡ with_heard self tick poll.now agrees }
    {
        let polled = Installed::of(poll);
        let newest = match self.newest {
            Some(newest) if polled.is_before(newest) => newest,
            Some(_) | None => polled,
        };
        let yes = if agrees {
            Some(Yes {
                tick,
                members: poll.view.members,
            })
        } else {
            self.yes
        };
        Remembered {
            newest: Some(newest),
            yes,
        }
    }
}

impl Arbiter {
    ghost use Rattle.std.specs.Prelude.{◌≡◌, ◌<◌, ◌+◌, ℕ, Some, nat_le, slice_get};
    ghost use Rattle.std.specs.List.{list_all, range_with_len};
    ghost use Rattle.qn_safety.specs.Arbiter.{Memory, fresh_memory, gives_yes, with_poll};
    ghost use Rattle.qn_polls.specs.Arbiter.{ArbiterFor, leaves_vote_at, with_answer};

    /// An arbiter that boots at this tick with a lease in milliseconds: it remembers nothing.
    pub fn new(lease: u64, tick: u64) -> Self
        ensures { ArbiterFor result (fresh_memory lease tick) }
    {
        let nothing = Remembered {
            newest: None,
            yes: None,
        };
        Arbiter {
            lease,
            began: tick,
            ranks: [nothing; RANKS],
        }
    }

    /// Hears a poll at this tick, and gives the answer: a yes exactly where a lease has passed since the boot, no later poll
    /// of that rank was heard, and the members of each other rank's last yes that is younger than the lease meet the polled
    /// view.
    pub fn poll(&mut self, tick: u64, poll: &Poll) -> bool
        requires { poll.now.from.0 < 32 }
        ensures says { (memory : Memory)
            → ArbiterFor self.old memory
            → result ≡ gives_yes memory tick poll.now }
        ensures stands { (memory : Memory)
            → ArbiterFor self.old memory
            → ArbiterFor self.new (with_poll tick poll.now memory) }
    {
        let agrees = self.would_agree(tick, poll);
        self.remember(tick, poll, agrees);
        agrees
    }

    /// The answer to a poll at this tick, which is not heard yet.
    pub fn would_agree(&self, tick: u64, poll: &Poll) -> bool
        requires { poll.now.from.0 < 32 }
        ensures { (memory : Memory)
            → ArbiterFor self.now memory
            → result ≡ gives_yes memory tick poll.now }
    {
        let has_waited = self.has_waited(tick);
        let is_newest = self.rank(poll.from).allows(poll);
        all_hold(has_waited, is_newest, self.is_vote_left(tick, poll))
    }

    /// Whether a lease has passed since the boot.
    fn has_waited(&self, tick: u64) -> bool
        ensures { result ≡ nat_le (self.now.began + self.now.lease) tick }
    {
        tick >= self.began && tick - self.began >= self.lease
    }

    fn rank(&self, rank: Rank) -> Remembered
        requires { rank.0 < 32 }
        ensures { slice_get self.now.ranks rank.0 ≡ Some result }
    {
        self.ranks[usize::from(rank.0)]
    }

    /// Whether the last yes of each other rank leaves the vote to a poll.
    fn is_vote_left(&self, tick: u64, poll: &Poll) -> bool
        ensures { result ≡ list_all (leaves_vote_at self.now tick poll.now) (range_with_len 0 32) }
    {
        for rank in 0..RANKS {
            if !self.leaves_vote(Rank(rank as u8), tick, poll) {
                return false;
            }
        }
        true
    }

    /// Whether the last yes of a rank leaves the vote to a poll, which may be its own.
    fn leaves_vote(&self, rank: Rank, tick: u64, poll: &Poll) -> bool
        requires { rank.0 < 32 }
        ensures { result ≡ leaves_vote_at self.now tick poll.now rank.0 }
    {
        rank == poll.from || self.rank(rank).leaves_vote(self.lease, tick, poll)
    }

    /// Takes in a poll that was answered at this tick.
    fn remember(&mut self, tick: u64, poll: &Poll, agrees: bool)
        requires { poll.now.from.0 < 32 }
        ensures { self.new ≡ with_answer tick poll.now agrees self.old }
    {
        let rank = self.rank(poll.from);
        self.ranks[usize::from(poll.from.0)] = rank.with(tick, poll, agrees);
    }
}

/// Whether two sets of nodes have a node in common.
fn do_meet(one: Mask, other: Mask) -> bool
    ensures { result ≡ do_meet one other }
{
    for rank in 0..32u8 {
        if is_in_both(one, other, Rank(rank)) {
            return true;
        }
    }
    false
}

fn is_in_both(one: Mask, other: Mask, rank: Rank) -> bool
    ensures { result ≡ (is_member one rank.0 && is_member other rank.0) }
{
    one.has(rank) && other.has(rank)
}

fn all_hold(first: bool, second: bool, third: bool) -> bool
    ensures { result ≡ (first && second && third) }
{
    first && second && third
}
