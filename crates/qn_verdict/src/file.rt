//! What the status file of one node says of now, of its view and of its mailbox.
ghost use Rattle.std.specs.Prelude.{◌≡◌, ◌*◌, ◌≤◌};
ghost use Rattle.qn_verdict.specs.Files.{is_answer, is_answered, is_arbiter_well, is_quiet, is_stale, loop_of, members_of};

use qn_base::NodeId;
use qn_model::Message;
use qn_shown::{Arbiter, DeviceAnswer, MailState, Shown};

/// Whether the file says nothing of this moment, in milliseconds of the host's monotonic clock: its node has ended, its tick is of
/// another boot of the host, or it is older than three loops and a second (docs/STATUS.md).
pub fn is_stale(now: u64, file: &Shown) -> bool
    ensures { result ≡ is_stale now file.now }
{
    file.end.is_some() || now < file.tick || miss_time(file) + 1000 < now - file.tick
}

/// After how many milliseconds of silence the node misses a peer: three loops.
pub fn miss_time(file: &Shown) -> u64
    ensures exact { result ≡ 3 * loop_of file.now }
    ensures bound { result ≤ 3 * 4294967295 }
{
    3 * u64::from(loop_of(file))
}

/// The loop of the node in milliseconds: a second before it knows its image.
pub(crate) fn loop_of(file: &Shown) -> u32
    ensures { result ≡ loop_of file.now }
{
    if file.loop_ms == 0 {
        1000
    } else {
        file.loop_ms
    }
}

/// The nodes that the node counts as present; none where it has no view.
pub fn members(file: &Shown) -> &[NodeId]
    ensures { result.now ≡ members_of file.now.view }
{
    match &file.view {
        Some(view) => view.members.as_slice(),
        None => &[],
    }
}

/// Whether no message but a test waits in the mailbox, as far as it was read.
pub fn is_quiet(mail: MailState) -> bool
    ensures { result ≡ is_quiet mail }
{
    match mail {
        MailState::Holds(Message::Empty | Message::Test) | MailState::Unread => true,
        MailState::Holds(Message::Reset | Message::Off | Message::Exit | Message::Crashdump)
        | MailState::Damaged
        | MailState::Failed => false,
    }
}

/// Whether an answer of the arbiter counts.
fn is_answer(answer: DeviceAnswer) -> bool
    ensures { result ≡ is_answer answer }
{
    match answer {
        DeviceAnswer::Yes | DeviceAnswer::No => true,
        DeviceAnswer::Silent => false,
    }
}

/// Whether an answer of the arbiter of that node counts, or the last one is at most three loops old.
pub fn is_answered(file: &Shown, arbiter: &Arbiter) -> bool
    ensures { result ≡ is_answered file.now arbiter.now }
{
    is_answer(arbiter.answer) || arbiter.age_ms <= miss_time(file)
}

/// Whether the arbiter of the node answers, where it polls one.
pub(crate) fn is_arbiter_well(file: &Shown) -> bool
    ensures { result ≡ is_arbiter_well file.now }
{
    match &file.arbiter {
        Some(arbiter) => is_answered(file, arbiter),
        None => true,
    }
}
