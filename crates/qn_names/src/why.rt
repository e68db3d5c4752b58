//! The first condition that blocks a start.
ghost use Rattle.std.specs.Prelude.{◌≡◌, ◌≤◌, ◌+◌, ◌++◌, length, codes, decimal};
ghost use Rattle.qn_model.specs.declared.life.Why.{Why};
ghost use Rattle.qn_names.specs.WhyTexts.{why_text};

use crate::numbered::add_numbered;
use arrayvec::ArrayVec;
use qn_base::{NodeId, add};
use qn_model::Why;

/// Empties `into` and writes the first condition that blocks a start of the resource, as a trace and a status
/// print it.
pub fn write_why(why: &Why, into: &mut ArrayVec<u8, 64>)
    ensures { into.new.items ≡ why_text why.now }
{
    into.clear();
    add_why(into, why);
}

/// Adds the first condition that blocks a start, at the end of a list that has room for 64 bytes.
pub fn add_why<const N: usize>(into: &mut ArrayVec<u8, N>, why: &Why)
    requires { length into.old.items + 64 ≤ N }
    ensures text { into.new.items ≡ into.old.items ++ why_text why.now }
    ensures len { length into.new.items ≤ length into.old.items + 64 }
{
    match *why {
        Why::Down => add(into, b"down"),
        Why::Holding => add(into, b"holding"),
        Why::NoView => add(into, b"no-view"),
        Why::WaitForAll => add(into, b"wait-for-all"),
        Why::NotQuorate { votes, quorum } => add_not_quorate(into, votes, quorum),
        Why::NotChosen { id } => add_numbered(into, b"not-chosen:", u64::from(id.0)),
        Why::HeldBy { id } => add_numbered(into, b"held-by:", u64::from(id.0)),
        Why::Unheard { id } => add_numbered(into, b"unheard:", u64::from(id.0)),
        Why::Unfenced { id, written, left } => add_unfenced(into, id, written, left),
        Why::Clear => add(into, b"clear"),
    }
}

/// Adds a count that is too low.
fn add_not_quorate<const N: usize>(into: &mut ArrayVec<u8, N>, votes: u64, quorum: u64)
    requires { length into.old.items + 64 ≤ N }
    ensures text { into.new.items ≡ into.old.items
        ++ (codes "not-quorate:" ++ decimal votes ++ codes "/" ++ decimal quorum) }
    ensures len { length into.new.items ≤ length into.old.items + 64 }
{
    add_numbered(into, b"not-quorate:", votes);
    add_numbered(into, b"/", quorum);
}

/// Adds a node that is neither cleanly stopped nor fenced.
fn add_unfenced<const N: usize>(into: &mut ArrayVec<u8, N>, id: NodeId, written: bool, left: u64)
    requires { length into.old.items + 64 ≤ N }
    ensures text { into.new.items ≡ into.old.items ++ why_text (Why.Unfenced id written left) }
    ensures len { length into.new.items ≤ length into.old.items + 64 }
{
    add_numbered(into, b"unfenced:", u64::from(id.0));
    if written {
        add_numbered(into, b":", left);
    } else {
        add(into, b":unwritten");
    }
}
