//! The first condition that blocks a start, by ranks.
ghost use Rattle.std.specs.Prelude.{◌≡◌, ◌<◌, length};
ghost use Rattle.qn_plain.specs.Lack.{is_nothing, is_rank};

use crate::past::Past;
use crate::phases::is_up;
use crate::sought::Sought;
use qn_base::Rank;
use qn_model::{Settings, Why};

/// The first condition that blocks a start of the resource, by ranks.
#[derive(Clone, Copy)]
pub enum Lack {
    Down,
    Holding,
    NoView,
    WaitForAll,
    NotQuorate,
    NotChosen(Rank),
    HeldBy(Rank),
    Unheard(Rank),
    Unfenced(Rank),
    Clear,
}

impl Lack {
    /// Whether nothing blocks a start.
    pub fn is_nothing(self) -> bool
        ensures { result ≡ is_nothing self }
    {
        matches!(self, Lack::Clear)
    }
}

impl Past {
    ghost use Rattle.std.specs.Prelude.{◌≡◌, ◌<◌, length, IfSome};
    ghost use Rattle.qn_plain.specs.Lack.{HasRank, is_quorate_at, lack_at, lack_of_others, other_than, why_by};
    ghost use Rattle.qn_plain.specs.Past.{ResetsBy};
    ghost use Rattle.qn_plain.specs.Peer.{peer_at};
    ghost use Rattle.qn_plain.specs.Sought.{chosen_at};

    /// Whether the node is quorate at a tick, by the votes or by the tie breaker.
    pub fn is_quorate(&self, settings: &Settings, tick: u64) -> bool
        ensures { result ≡ is_quorate_at settings.now tick self.now }
    {
        self.votes.answer_with_tie(settings, tick).quorate
    }

    /// The first condition that blocks a start at a tick, by ranks that are configured.
    pub fn lack(&self, settings: &Settings, me: Rank, tick: u64) -> Lack
        ensures value { result ≡ lack_at settings.now me.0 tick self.now }
        ensures within { HasRank settings.now result }
    {
        if !is_up(self.life.phase) {
            Lack::Down
        } else if self.life.holds {
            Lack::Holding
        } else if self.votes.view.is_none() {
            Lack::NoView
        } else if !self.votes.released {
            Lack::WaitForAll
        } else if !self.is_quorate(settings, tick) {
            Lack::NotQuorate
        } else {
            match self.other_chosen(settings, me, tick) {
                Some(rank) => Lack::NotChosen(rank),
                None => self.lack_of_others(settings, me, tick),
            }
        }
    }

    /// The chosen node where it is another node; a rank that no node has where none is chosen.
    fn other_chosen(&self, settings: &Settings, me: Rank, tick: u64) -> Option<Rank>
        ensures { result ≡ other_than me.0 (chosen_at settings.now me.0 tick self.now) }
    {
        let chosen = self.chosen(settings, me, tick);
        if is_rank(me, chosen) {
            None
        } else {
            Some(chosen.unwrap_or(Rank(255)))
        }
    }

    /// What of the other nodes blocks a start.
    fn lack_of_others(&self, settings: &Settings, me: Rank, tick: u64) -> Lack
        ensures value { result ≡ lack_of_others settings.now me.0 tick self.now }
        ensures within { HasRank settings.now result }
    {
        if let Some(rank) = self.least(settings, Sought::Holder, me, tick) {
            return Lack::HeldBy(rank);
        }
        if let Some(rank) = self.least(settings, Sought::Unheard, me, tick) {
            return Lack::Unheard(rank);
        }
        if let Some(rank) = self.least(settings, Sought::Unfenced, me, tick) {
            return Lack::Unfenced(rank);
        }
        Lack::Clear
    }

    /// The condition with the numbers that it names. No reset may have been written after the tick.
    pub fn why(&self, settings: &Settings, tick: u64, lack: Lack) -> Why
        requires resets { ResetsBy self.now tick }
        requires within { HasRank settings.now lack }
        ensures { result ≡ why_by settings.now tick self.now lack }
    {
        match lack {
            Lack::Down => Why::Down,
            Lack::Holding => Why::Holding,
            Lack::NoView => Why::NoView,
            Lack::WaitForAll => Why::WaitForAll,
            Lack::NotQuorate => {
                let answer = self.votes.answer_with_tie(settings, tick);
                Why::NotQuorate {
                    votes: answer.votes,
                    quorum: answer.quorum,
                }
            }
            Lack::NotChosen(rank) => Why::NotChosen {
                id: settings.id_of(rank),
            },
            Lack::HeldBy(rank) => Why::HeldBy {
                id: settings.id_of(rank),
            },
            Lack::Unheard(rank) => Why::Unheard {
                id: settings.id_of(rank),
            },
            Lack::Unfenced(rank) => self.why_unfenced(settings, tick, rank),
            Lack::Clear => Why::Clear,
        }
    }

    /// That a rank has no licence, with the ticks of msgwait that remain.
    fn why_unfenced(&self, settings: &Settings, tick: u64, rank: Rank) -> Why
        requires resets { ResetsBy self.now tick }
        requires within { rank.0 < length settings.now.nodes }
        ensures { result ≡ why_by settings.now tick self.now (Lack.Unfenced rank) }
    {
        let id = settings.id_of(rank);
        let peer = self.peers[usize::from(rank.0)];
        Why::Unfenced {
            id,
            written: peer.is_written(),
            left: peer.left(self.life.timing.msgwait, tick),
        }
    }
}

/// Whether it is this rank.
pub fn is_rank(me: Rank, found: Option<Rank>) -> bool
    ensures { result ≡ is_rank me.0 found }
{
    match found {
        Some(rank) => rank.0 == me.0,
        None => false,
    }
}
