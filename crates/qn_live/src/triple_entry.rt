//! What three images tell together.
ghost use Rattle.std.specs.Prelude.{◌≡◌, ◌&&◌, ◌==◌};
ghost use Rattle.std.specs.List.{list_any};
ghost use Rattle.qn_safety.specs.TripleWorld.{has_failed};
ghost use Rattle.qn_live.specs.TripleDisk.{differ, headers_differ, if_failed, is_failed_read, read_entry, same_times, some_differ, strange};

use qn_model::{DiskOp, HeaderSeen, MailSeen, SlotSeen, Timing, What};
use qn_parts::{Part, answer_of};

/// The entry of a read by its parts on the three images and by the good ones of the node.
pub fn read_entry(op: DiskOp, parts: &[Part; 3], good: &[bool; 3]) -> What
    ensures { result ≡ read_entry op parts.now good.now }
{
    if some_differ(parts) {
        return What::Header(HeaderSeen::NotImage);
    }
    if_failed(op, some_failed(parts), answer_of(op, parts, good))
}

/// Whether a part failed.
fn some_failed(parts: &[Part; 3]) -> bool
    ensures { result ≡ list_any has_failed parts.now }
{
    parts.iter().any(|part| matches!(part, Part::Failed))
}

fn if_failed(op: DiskOp, some_failed: bool, entry: What) -> What
    ensures { result ≡ if_failed op some_failed entry }
{
    if is_failed_read(entry) && !some_failed {
        strange(op)
    } else {
        entry
    }
}

fn is_failed_read(entry: What) -> bool
    ensures { result ≡ is_failed_read entry }
{
    matches!(
        entry,
        What::Header(HeaderSeen::Failed)
            | What::SlotRead(_, SlotSeen::Failed)
            | What::MailChecked(MailSeen::Failed)
            | What::MailRead(MailSeen::Failed)
    )
}

/// The entry of a read of bytes that are no spelling.
#[tactic(auto, unfolding(qn_model::specs::World::failed))]
fn strange(op: DiskOp) -> What
    ensures { result ≡ strange op }
{
    match op {
        DiskOp::ReadHeader => What::Header(HeaderSeen::NotImage),
        DiskOp::ReadSlot(rank) => What::SlotRead(rank, SlotSeen::Damaged),
        DiskOp::CheckMail => What::MailChecked(MailSeen::Damaged),
        DiskOp::ReadMail => What::MailRead(MailSeen::Damaged),
        DiskOp::WriteClaim(_) => What::Claimed(false),
        DiskOp::WriteClose(_) => What::Closed(false),
        DiskOp::WriteClear => What::Cleared(false),
        DiskOp::WriteReset(rank) => What::MailWritten(rank, false),
    }
}

/// Whether two of the parts are headers that differ.
fn some_differ(parts: &[Part; 3]) -> bool
    ensures { result ≡ some_differ parts.now }
{
    differ(parts[0], parts[1]) || differ(parts[0], parts[2]) || differ(parts[1], parts[2])
}

fn differ(one: Part, other: Part) -> bool
    ensures { result ≡ differ one other }
{
    match (one, other) {
        (Part::Landed(What::Header(one)), Part::Landed(What::Header(other))) => {
            headers_differ(one, other)
        }
        _ => false,
    }
}

fn headers_differ(one: HeaderSeen, other: HeaderSeen) -> bool
    ensures { result ≡ headers_differ one other }
{
    match (one, other) {
        (
            HeaderSeen::Read { nodes, timing },
            HeaderSeen::Read {
                nodes: other,
                timing: times,
            },
        ) => !(nodes == other && same_times(&timing, &times)),
        _ => false,
    }
}

fn same_times(one: &Timing, other: &Timing) -> bool
    ensures { result ≡ same_times one.now other.now }
{
    one.watchdog == other.watchdog
        && one.msgwait == other.msgwait
        && one.loop_ms == other.loop_ms
        && one.read_limit == other.read_limit
        && one.feed_delay == other.feed_delay
}
