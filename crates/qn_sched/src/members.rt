//! Reads ids and lists of members.
ghost use Rattle.std.specs.Prelude.{◌≡◌, ◌<◌, ◌&&◌, length, IfOk};
ghost use Rattle.qn_model.specs.Lines.{known_rank, members_of};
ghost use Rattle.qn_model.specs.Settings.{ids};
ghost use Rattle.qn_sched.specs.EventReading.{rank_of};
ghost use Rattle.qn_sched.specs.MemberList.{rank_number};

use crate::numbers::number_between;
use crate::words::first_part;
use qn_base::{Mask, Rank};
use qn_model::{LineFault, Nodes};

/// The rank of the node that a word names by its id. BadNumber where the word is no number of 64 bits,
/// and else UnknownNode where no node has the id.
#[tactic(auto, unfolding(qn_model::specs::Lines::known_rank, crate::specs::EventReading::rank_of))]
pub fn known_rank(nodes: &Nodes, word: &[u8]) -> Result<Rank, LineFault>
    ensures value { rank_number result ≡ known_rank (ids nodes.now) word.now }
    ensures rank { result ≡ rank_of (ids nodes.now) word.now }
    ensures within { IfOk result (λ rank. (rank.0 < length nodes.now) × (rank.0 < 32)) }
{
    let id = number_between(0, u64::MAX, word)?;
    nodes.rank_of(id).ok_or(LineFault::UnknownNode)
}

/// A list of members while its parts are judged one by one.
#[derive(Clone, Copy)]
struct MemberList {
    /// A bit for each rank so far.
    ranks: u32,
    /// The last id so far.
    last: Option<u32>,
    /// Whether every part so far had a byte, and every id stands above the one before it.
    is_sound: bool,
}

impl MemberList {
    ghost use Rattle.qn_sched.specs.MemberList.{finished, no_members, with_part, with_rank, is_above};

    fn new() -> Self
        ensures { result ≡ no_members }
    {
        MemberList {
            ranks: 0,
            last: None,
            is_sound: true,
        }
    }

    /// With one more part.
    #[tactic(auto, unfolding(crate::specs::MemberList::with_part))]
    fn with_part(self, part: &[u8], nodes: &Nodes) -> Result<MemberList, LineFault>
        ensures { result ≡ with_part (ids nodes.now) self part.now }
    {
        if part.is_empty() {
            return Ok(MemberList {
                ranks: self.ranks,
                last: self.last,
                is_sound: false,
            });
        }
        let rank = known_rank(nodes, part)?;
        Ok(self.with_rank(rank, nodes.id_of(rank).0))
    }

    /// With one more member.
    fn with_rank(self, rank: Rank, id: u32) -> MemberList
        requires { rank.0 < 32 }
        ensures { result ≡ with_rank self rank.0 id }
    {
        MemberList {
            ranks: self.ranks | 1 << rank.0,
            last: Some(id),
            is_sound: self.is_sound_before(id),
        }
    }

    /// Whether the list is sound with this id after the last one.
    fn is_sound_before(self, id: u32) -> bool
        ensures { result ≡ (self.is_sound && is_above self.last id) }
    {
        self.is_sound && self.last.is_none_or(|last| last < id)
    }

    /// The members, where no part is left.
    #[tactic(auto, unfolding(crate::specs::MemberList::finished))]
    fn finished(self) -> Result<Mask, LineFault>
        ensures { result ≡ finished self }
    {
        if self.is_sound {
            Ok(Mask(self.ranks))
        } else {
            Err(LineFault::BadView)
        }
    }
}

/// The members that a word lists: ids of nodes, joined by commas, strictly ascending. The first fault from
/// left to right is named; BadView for an empty part or for the order comes after the faults of the ids.
pub fn read_members(nodes: &Nodes, word: &[u8]) -> Result<Mask, LineFault>
    ensures { result ≡ members_of (ids nodes.now) word.now }
{
    let mut list = MemberList::new();
    let mut rest = Some(word);
    'parts: while let Some(text) = rest {
        let (part, more) = first_part(text, b',');
        list = list.with_part(part, nodes)?;
        rest = more;
    }
    list.finished()
}
