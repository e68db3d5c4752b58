//! What an event is told by: what changed, and what an output says.
ghost use Rattle.std.specs.Prelude.{◌≡◌};
ghost use Rattle.qn_notice.specs.Events.{change, condition_number, halt_of, installs, is_outside, is_same_condition, is_same_phase, is_written, named, phase_number, reset_of};

use qn_base::{Rank, View};
use qn_model::{DiskOp, HaltKind, Out, Outs, Phase, Why};

/// Whether something is so now, where it was otherwise before.
pub fn change(before: bool, after: bool) -> Option<bool>
    ensures { result ≡ change before after }
{
    match (before, after) {
        (false, true) => Some(true),
        (true, false) => Some(false),
        (false, false) | (true, true) => None,
    }
}

/// Whether two phases are one.
pub fn is_same_phase(first: Phase, second: Phase) -> bool
    ensures { result ≡ is_same_phase first second }
{
    phase_number(first) == phase_number(second)
}

fn phase_number(phase: Phase) -> u8
    ensures { result ≡ phase_number phase }
{
    match phase {
        Phase::Booting => 0,
        Phase::Up => 1,
        Phase::Leaving => 2,
        Phase::Dying => 3,
        Phase::Gone => 4,
    }
}

/// Whether two conditions are told alike: the votes, and the ticks that remain, are not looked at.
pub fn is_same_condition(first: Why, second: Why) -> bool
    ensures { result ≡ is_same_condition first second }
{
    condition_number(first) == condition_number(second)
        && named(first) == named(second)
        && is_written(first) == is_written(second)
}

fn condition_number(why: Why) -> u8
    ensures { result ≡ condition_number why }
{
    match why {
        Why::Down => 0,
        Why::Holding => 1,
        Why::NoView => 2,
        Why::WaitForAll => 3,
        Why::NotQuorate { .. } => 4,
        Why::NotChosen { .. } => 5,
        Why::HeldBy { .. } => 6,
        Why::Unheard { .. } => 7,
        Why::Unfenced { .. } => 8,
        Why::Clear => 9,
    }
}

/// The id of the node that the condition names, 0 where it names none.
fn named(why: Why) -> u32
    ensures { result ≡ named why }
{
    match why {
        Why::NotChosen { id }
        | Why::HeldBy { id }
        | Why::Unheard { id }
        | Why::Unfenced { id, .. } => id.0,
        Why::Down
        | Why::Holding
        | Why::NoView
        | Why::WaitForAll
        | Why::NotQuorate { .. }
        | Why::Clear => 0,
    }
}

/// Whether the condition says that a reset was written.
fn is_written(why: Why) -> bool
    ensures { result ≡ is_written why }
{
    match why {
        Why::Unfenced { written, .. } => written,
        Why::Down
        | Why::Holding
        | Why::NoView
        | Why::WaitForAll
        | Why::NotQuorate { .. }
        | Why::NotChosen { .. }
        | Why::HeldBy { .. }
        | Why::Unheard { .. }
        | Why::Clear => false,
    }
}

/// Whether a rank, which is below 32, is outside the present view, where there is one.
pub fn is_outside(present: Option<(u64, View)>, rank: Rank) -> bool
    ensures { result ≡ is_outside present rank.0 }
{
    match present {
        Some((_, view)) => rank.0 < 32 && !view.members.contains(rank),
        None => false,
    }
}

/// The install number of the present view, 0 without a view.
pub fn installs(present: Option<(u64, View)>) -> u64
    ensures { result ≡ installs present }
{
    match present {
        Some((number, _)) => number,
        None => 0,
    }
}

/// The node whose mailbox an operation resets.
pub fn reset_of(op: DiskOp) -> Option<Rank>
    ensures { result ≡ reset_of op }
{
    match op {
        DiskOp::WriteReset(rank) => Some(rank),
        DiskOp::ReadHeader
        | DiskOp::ReadSlot(_)
        | DiskOp::CheckMail
        | DiskOp::WriteClaim(_)
        | DiskOp::WriteClear
        | DiskOp::ReadMail
        | DiskOp::WriteClose(_) => None,
    }
}

/// The first halt among the outputs.
pub fn halt_of(outs: &Outs) -> Option<HaltKind>
    ensures { result ≡ halt_of outs.now }
{
    for out in outs.as_slice() {
        if let Out::Halt(kind) = out {
            return Some(*kind);
        }
    }
    None
}
