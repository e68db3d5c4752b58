//! Whether one of the two networks is lost to another node, by what comes of it.
ghost use Rattle.std.specs.Prelude.{◌≡◌};
ghost use Rattle.qn_peers.specs.Arrivals.{alone_since, arrivals_after, lost_network};

use qn_links::Ring;

/// Over which network the packets of a node come.
#[derive(Clone, Copy)]
pub enum Arrivals {
    /// None came.
    Nothing,
    /// The last ones came over that network alone.
    Over {
        ring: Ring,
        /// The tick of the first of these packets, or of the first after the node was silent for as long as makes a network lost.
        since: u64,
        /// The tick of the last one.
        last: u64,
        /// Whether the other network is lost.
        is_other_lost: bool,
    },
}

impl Arrivals {
    /// After one more packet of the node, over that network at that tick. The other network is lost once packets have come over this one alone
    /// for so many milliseconds, and is back at its first packet. A node that was silent for as long is counted anew.
    pub fn after(self, ring: Ring, tick: u64, limit: u64) -> Arrivals
        ensures { result ≡ arrivals_after self ring tick limit }
    {
        let first = Arrivals::Over {
            ring,
            since: tick,
            last: tick,
            is_other_lost: false,
        };
        let Arrivals::Over {
            ring: before,
            since,
            last,
            is_other_lost,
        } = self
        else {
            return first;
        };
        if before != ring {
            return first;
        }
        let since = alone_since(since, last, tick, limit);
        Arrivals::Over {
            ring,
            since,
            last: tick,
            is_other_lost: is_other_lost || tick.saturating_sub(since) >= limit,
        }
    }

    /// The network that is lost to the node, where one is.
    pub fn lost(self) -> Option<Ring>
        ensures { result ≡ lost_network self }
    {
        match self {
            Arrivals::Nothing => None,
            Arrivals::Over {
                ring,
                is_other_lost,
                ..
            } => is_other_lost.then_some(ring.other()),
        }
    }
}

/// Since when packets come over one network alone, once one more did.
fn alone_since(since: u64, last: u64, tick: u64, limit: u64) -> u64
    ensures { result ≡ alone_since since last tick limit }
{
    if tick.saturating_sub(last) >= limit {
        tick
    } else {
        since
    }
}
