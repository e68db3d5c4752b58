//! Writes ids and lists of numbers.
ghost use Rattle.std.specs.Prelude.{◌≡◌, ◌≤◌, ◌+◌, ◌*◌, ◌++◌, [], ◌∷◌, length, map, decimal};
ghost use Rattle.qn_model.specs.Settings.{ids};
ghost use Rattle.qn_names.specs.MemberWords.{ids_from, joined};
ghost use Rattle.qn_sched.specs.EventLines.{id_word};

use arrayvec::ArrayVec;
use qn_base::{Mask, Rank, add, add_number};
use qn_model::Nodes;

/// Adds the id of the node of that rank, 0 where there is none.
pub(crate) fn add_id(into: &mut ArrayVec<u8, 4096>, nodes: &Nodes, rank: Rank)
    requires { length into.old.items + 20 ≤ 4096 }
    ensures text { into.new.items ≡ into.old.items ++ id_word (ids nodes.now) rank }
    ensures len { length into.new.items ≤ length into.old.items + 20 }
{
    add_number(into, u64::from(nodes.id_of(rank).0));
}

/// The ids of the members, ascending.
pub(crate) fn member_ids(nodes: &Nodes, members: Mask) -> ArrayVec<u32, 32>
    ensures { result.items ≡ ids_from 0 (ids nodes.now) members }
{
    let mut list = ArrayVec::new();
    for (rank, node) in nodes.as_slice().iter().enumerate() {
        if members.contains(Rank(rank as u8)) {
            list.push(node.id.0);
        }
    }
    list
}

/// Adds the ids of the members, ascending, joined by a byte.
pub(crate) fn add_members(into: &mut ArrayVec<u8, 4096>, byte: u8, nodes: &Nodes, members: Mask)
    requires { length into.old.items ≤ 3000 }
    ensures text { into.new.items
        ≡ into.old.items ++ joined byte (ids_from 0 (ids nodes.now) members) }
    ensures len { length into.new.items ≤ length into.old.items + 21 * 32 }
{
    let list = member_ids(nodes, members);
    add_joined(into, byte, list.as_slice());
}

/// Adds numbers, joined by a byte.
pub(crate) fn add_joined(into: &mut ArrayVec<u8, 4096>, byte: u8, numbers: &[u32])
    requires few { length numbers.now ≤ 32 }
    requires room { length into.old.items + 21 * 32 ≤ 4096 }
    ensures text { into.new.items ≡ into.old.items ++ joined byte numbers.now }
    ensures len { length into.new.items ≤ length into.old.items + 21 * 32 }
{
    let Some((first, others)) = numbers.split_first() else {
        return;
    };
    add_number(into, u64::from(*first));
    'others: for number in others {
        add(into, &[byte]);
        add_number(into, u64::from(*number));
    }
}
