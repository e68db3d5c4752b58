//! The least rank that is a member, a holder, unheard, unfenced, or due for a read or a reset.
ghost use Rattle.std.specs.Prelude.{◌≡◌, ◌==◌, not, false};
ghost use Rattle.std.specs.Option.{option_map_or};

use crate::past::Past;
use qn_base::Rank;
use qn_model::Settings;

/// Which ranks are sought.
#[derive(Clone, Copy)]
pub enum Sought {
    /// The members of the present view.
    Member,
    /// The member that the present view names.
    Named,
    /// The other members that say that they hold.
    Holder,
    /// The other members that did not answer.
    Unheard,
    /// The ranks outside the view that have no licence.
    Unfenced,
    /// The ranks outside the view whose slot was not read in their out-time.
    Unread,
    /// The ranks outside the view that were neither read as clean nor reset in their out-time.
    Unreset,
}

impl Past {
    ghost use Rattle.std.specs.Prelude.{◌≡◌, ◌<◌, length, IfSome};
    ghost use Rattle.qn_plain.specs.Sought.{chosen_at, is_given_away_at, is_sought, least_sought};

    /// Whether a rank is sought at a tick.
    fn is_sought(&self, sought: Sought, me: Rank, tick: u64, rank: Rank) -> bool
        requires { rank.0 < 32 }
        ensures { result ≡ is_sought sought me.0 tick self.now rank.0 }
    {
        let peer = self.peers[usize::from(rank.0)];
        let is_in = self.is_in(rank);
        let is_other = is_in && rank.0 != me.0;
        match sought {
            Sought::Member => is_in,
            Sought::Named => is_in && self.is_named(rank),
            Sought::Holder => is_other && peer.is_held(),
            Sought::Unheard => is_other && !peer.free && !peer.is_held(),
            Sought::Unfenced => {
                !is_in && !(peer.is_clean() || peer.is_fenced(self.life.timing.msgwait, tick))
            }
            Sought::Unread => !is_in && !peer.is_seen(),
            Sought::Unreset => !is_in && !peer.is_clean() && !peer.is_written(),
        }
    }

    /// The chosen node: the member that the present view names, else its least member.
    pub fn chosen(&self, settings: &Settings, me: Rank, tick: u64) -> Option<Rank>
        ensures value { result ≡ chosen_at settings.now me.0 tick self.now }
        ensures within { IfSome result (λ rank. rank.0 < length settings.now.nodes) }
    {
        if self.is_barred() {
            None
        } else {
            self.least(settings, Sought::Named, me, tick)
                .or(self.least(settings, Sought::Member, me, tick))
        }
    }

    /// Whether the present view gives the resource away: it says that none of its members may start, or it names
    /// another one.
    pub fn is_given_away(&self, settings: &Settings, me: Rank, tick: u64) -> bool
        ensures { result ≡ is_given_away_at settings.now me.0 tick self.now }
    {
        self.is_barred() || is_other(me, self.least(settings, Sought::Named, me, tick))
    }

    /// The least configured rank that is sought at a tick.
    pub fn least(&self, settings: &Settings, sought: Sought, me: Rank, tick: u64) -> Option<Rank>
        ensures value { result ≡ least_sought settings.now sought me.0 tick self.now }
        ensures within { IfSome result (λ rank. rank.0 < length settings.now.nodes) }
    {
        let count = settings.nodes.len() as u8;
        for rank in 0..count {
            if self.is_sought(sought, me, tick, Rank(rank)) {
                return Some(Rank(rank));
            }
        }
        None
    }
}

/// Whether a rank is another node's, where there is one.
fn is_other(me: Rank, found: Option<Rank>) -> bool
    ensures { result ≡ option_map_or (λ rank. not (rank.0 == me.0)) found false }
{
    match found {
        Some(rank) => rank.0 != me.0,
        None => false,
    }
}
