//! Which node this is: its rank and its settings.
use qn_base::{Rank, View};
use qn_model::Settings;

/// Which node this is: its rank, and the settings of its cluster.
#[derive(Drop)]
pub struct Own {
    pub settings: Settings,
    pub me: Rank,
}

impl Own {
    ghost use Rattle.std.specs.Prelude.{◌≡◌, ◌<◌, ◌≤◌, ◌+◌, length, nat_le, nat_lt};
    ghost use Rattle.qn_model.specs.Fitting.{is_for, is_own_view};
    ghost use Rattle.qn_model.specs.Wanted.{fence_delay};

    /// How many nodes are configured.
    pub fn count(&self) -> u8
        ensures value { result ≡ length self.now.settings.nodes }
        ensures fits { result ≤ 32 }
    {
        self.settings.nodes.len() as u8
    }

    /// Whether a rank is configured.
    pub fn has(&self, rank: Rank) -> bool
        ensures { result ≡ nat_lt rank.0 (length self.now.settings.nodes) }
    {
        rank.0 < self.count()
    }

    /// How many milliseconds after a view a rank may be reset, 0 where it is not configured.
    pub fn fence_delay(&self, rank: Rank) -> u64
        ensures { result ≡ fence_delay self.now.settings rank.0 }
    {
        if self.has(rank) {
            self.settings.nodes.get(usize::from(rank.0)).fence_delay
        } else {
            0
        }
    }

    /// Whether the fence delay of a rank is over at this tick, after a view at the tick `since`.
    pub fn is_delay_over(&self, rank: Rank, since: u64, tick: u64) -> bool
        ensures { result ≡ nat_le (since + fence_delay self.now.settings rank.0) tick }
    {
        tick >= since && tick - since >= self.fence_delay(rank)
    }

    /// Whether the members of a view are configured and contain this node.
    pub fn is_own_view(&self, view: View) -> bool
        ensures { result ≡ is_own_view self.now.settings self.now.me.0 view }
    {
        u64::from(view.members.0) < 1 << self.count() && view.members.has(self.me)
    }

    /// Whether a packet is to this node from another configured one.
    pub fn is_for(&self, from: Rank, to: Rank) -> bool
        ensures { result ≡ is_for self.now.settings self.now.me.0 from to }
    {
        to.0 == self.me.0 && self.has(from) && from.0 != self.me.0
    }

    /// An equal one.
    pub fn copy(&self) -> Self
        ensures { result ≡ self.now }
    {
        Own {
            settings: self.settings.copy(),
            me: self.me,
        }
    }
}
