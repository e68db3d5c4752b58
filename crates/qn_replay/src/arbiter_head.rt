//! Reads the head of a schedule beside an arbiter: that of a schedule, and then the line of the two times of a lease.
ghost use Rattle.std.specs.Prelude.{◌≡◌, ◌≤◌, ◌+◌, [], true, length, IfOk, IfErr};
ghost use Rattle.std.specs.Io.KnownBytes.{IsAtEnd, prepend_known};
ghost use Rattle.qn_io.specs.Outside.{HasRisen};
ghost use Rattle.qn_model.specs.Settings.{IsValid};
ghost use Rattle.qn_model.specs.Timing.{is_safe};
ghost use Rattle.qn_playback.specs.Parts.{Gives, Refuses};
ghost use Rattle.qn_safety.specs.Lease.{is_safe_lease};
ghost use Rattle.qn_replay.specs.BesideHeads.{arbiter_head_part, lease_in, unsafe_end};

use arrayvec::ArrayVec;
use qn_arbiter::read_lease;
use qn_io::{PIECE, Pieces, Source};
use qn_model::{Settings, Timing};
use qn_playback::{read_head, read_head_line};
use qn_safety::{Lease, lease_safe};
use qn_sched::ReplayEnd;
use std::alloc::Global;

/// What the head of a schedule beside an arbiter gives: the settings and the safe times, the safe times of the lease, and how
/// many lines of the input it has.
#[derive(Drop)]
pub(crate) struct ArbiterHead {
    pub settings: Settings,
    pub timing: Timing,
    pub lease: Lease,
    pub lines: u64,
}

/// Reads the head, at the beginning of the input. `UnsafeLease` comes where the lease line is good and its times are not
/// safe.
pub(crate) fn read_arbiter_head<I: Source>(
    alloc: Global,
    pieces: &mut Pieces,
    input: &mut I,
) -> Result<ArbiterHead, ReplayEnd>
    ensures head { IfOk result (λ head. Gives arbiter_head_part head
        (prepend_known pieces.old (I.left input.old))
        (prepend_known pieces.new (I.left input.new))) }
    ensures valid { IfOk result (λ head. IsValid head.settings) }
    ensures safe { IfOk result (λ head. is_safe head.timing ≡ true) }
    ensures safe_lease { IfOk result (λ head. is_safe_lease head.settings head.lease ≡ true) }
    ensures few_lines { IfOk result (λ head. head.lines ≤ 4294967296) }
    ensures end { IfErr result (Refuses arbiter_head_part
        (prepend_known pieces.old (I.left input.old)) (prepend_known pieces.new (I.left input.new))
        ((pieces.new ≡ []) × IsAtEnd (I.left input.new))
        ((pieces.new ≡ []) × HasRisen (I.faults input.old) (I.faults input.new))) }
    ensures within { length pieces.new ≤ PIECE }
    ensures never_falls { I.faults input.old ≤ I.faults input.new }
{
    let head = read_head(alloc, pieces, input)?;
    let mut line = ArrayVec::new();
    read_head_line(pieces, input, head.lines, &mut line)?;
    let lease = judge_lease(line.as_slice(), head.lines + 1, &head.settings)?;
    Ok(ArbiterHead {
        settings: head.settings,
        timing: head.timing,
        lease,
        lines: head.lines + 1,
    })
}

/// The safe times that the line of this number gives.
fn judge_lease(line: &[u8], number: u64, settings: &Settings) -> Result<Lease, ReplayEnd>
    ensures { result ≡ lease_in number settings.now line.now }
{
    let lease = match read_lease(line) {
        Ok(lease) => lease,
        Err(fault) => {
            return Err(ReplayEnd::BadSchedule {
                line: number,
                fault,
            });
        }
    };
    if !lease_safe(settings, &lease) {
        return Err(unsafe_lease(settings, lease));
    }
    Ok(lease)
}

/// The end at a lease that is not safe.
fn unsafe_lease(settings: &Settings, lease: Lease) -> ReplayEnd
    ensures { result ≡ unsafe_end settings.now lease }
{
    let timeout = match settings.device {
        Some(device) => device.timeout,
        None => 0,
    };
    ReplayEnd::UnsafeLease {
        timeout,
        limit: lease.limit,
        lease: lease.lease,
    }
}
