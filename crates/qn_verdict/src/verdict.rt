//! What the status files of a cluster come to.
ghost use Rattle.std.specs.Prelude.{◌≡◌};
ghost use Rattle.std.specs.List.{list_all, list_any};
ghost use Rattle.qn_verdict.specs.Verdicts.{holders, is_holder, is_owner_unknown, judge, of_live, with_holder, without_holder};
ghost use Rattle.qn_verdict.specs.Voices.{is_live, is_well};

use crate::voice::{are_all_told, is_contested, is_held, is_held_twice, is_live, is_well};
use qn_shown::Shown;

/// What the status files of a cluster come to. Its exit status is that of a Nagios plug-in.
#[derive(Clone, Copy)]
pub enum Verdict {
    /// One node holds, and nothing is wrong with any node.
    Healthy,
    /// One node holds, and something is wrong; one hands over to another; or none is known to hold, and one that says nothing may.
    Degraded,
    /// No node holds, or two do at a time.
    NoOwner,
    /// No file says anything of now.
    Unknown,
}

impl Verdict {
    ghost use Rattle.std.specs.Prelude.{◌≡◌};
    ghost use Rattle.qn_verdict.specs.Verdicts.{beside_unread, exit_status, verdict_name};

    /// The verdict where a file beside the judged ones could not be read, or none.
    pub fn beside_unread(self, unread: bool) -> Verdict
        ensures { result ≡ beside_unread unread self }
    {
        match self {
            Verdict::Healthy if unread => Verdict::Degraded,
            Verdict::Healthy | Verdict::Degraded | Verdict::NoOwner | Verdict::Unknown => self,
        }
    }

    /// 0, 1, 2 or 3: ok, warning, critical, unknown.
    pub fn exit_status(self) -> u8
        ensures { result ≡ exit_status self }
    {
        match self {
            Verdict::Healthy => 0,
            Verdict::Degraded => 1,
            Verdict::NoOwner => 2,
            Verdict::Unknown => 3,
        }
    }

    /// The word of the verdict.
    pub fn name(self) -> &'static str
        ensures { result.now ≡ verdict_name self }
    {
        match self {
            Verdict::Healthy => "healthy",
            Verdict::Degraded => "degraded",
            Verdict::NoOwner => "no owner",
            Verdict::Unknown => "unknown",
        }
    }
}

/// What these files come to at a moment, in milliseconds of the monotonic clock of their host (docs/STATUS.md).
pub fn judge(now: u64, files: &[Shown]) -> Verdict
    ensures { result ≡ judge now files.now }
{
    if has_live(now, files) {
        of_live(now, files)
    } else {
        Verdict::Unknown
    }
}

/// What files come to of which one is live.
fn of_live(now: u64, files: &[Shown]) -> Verdict
    ensures { result ≡ of_live now files.now }
{
    if holders(now, files) > 1 || is_contested(now, files) {
        Verdict::NoOwner
    } else if is_held_twice(now, files) {
        Verdict::Degraded
    } else if is_held(now, files) {
        with_holder(now, files)
    } else {
        without_holder(now, files)
    }
}

/// The same where no node holds, by its own word.
fn without_holder(now: u64, files: &[Shown]) -> Verdict
    ensures { result ≡ without_holder now files.now }
{
    if is_owner_unknown(now, files) {
        Verdict::Degraded
    } else {
        Verdict::NoOwner
    }
}

/// The same where one node holds.
fn with_holder(now: u64, files: &[Shown]) -> Verdict
    ensures { result ≡ with_holder now files.now }
{
    if are_well(now, files) {
        Verdict::Healthy
    } else {
        Verdict::Degraded
    }
}

/// Whether a file is live.
fn has_live(now: u64, files: &[Shown]) -> bool
    ensures { result ≡ list_any (is_live now) files.now }
{
    files.iter().any(|file| is_live(now, file))
}

/// Whether nothing is wrong with any node.
fn are_well(now: u64, files: &[Shown]) -> bool
    ensures { result ≡ list_all (is_well now files.now) files.now }
{
    files.iter().all(|file| is_well(now, files, file))
}

/// Whether the node is live and holds.
fn is_holder(now: u64, file: &Shown) -> bool
    ensures { result ≡ is_holder now file.now }
{
    is_live(now, file) && file.holds
}

/// How many live nodes hold.
fn holders(now: u64, files: &[Shown]) -> usize
    ensures { result ≡ holders now files.now }
{
    files.iter().filter(|file| is_holder(now, file)).count()
}

/// Whether a node may hold that has no voice.
fn is_owner_unknown(now: u64, files: &[Shown]) -> bool
    ensures { result ≡ is_owner_unknown now files.now }
{
    files.iter().any(|file| is_live(now, file) && !are_all_told(now, files, file))
}
