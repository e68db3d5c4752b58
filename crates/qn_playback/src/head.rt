//! Reads the head of a schedule: the settings text, the line `----`, and the timing line.
ghost use Rattle.std.specs.Prelude.{◌≡◌, ◌≤◌, ◌<◌, ◌+◌, ◌^◌, [], true, length, IfOk, IfErr};
ghost use Rattle.std.specs.Io.KnownBytes.{IsAtEnd, prepend_known};
ghost use Rattle.qn_io.specs.Outside.{HasRisen};
ghost use Rattle.qn_model.specs.Settings.{IsValid};
ghost use Rattle.qn_model.specs.Timing.{is_safe};
ghost use Rattle.qn_playback.specs.Faults.{IsHeadEnd};
ghost use Rattle.qn_playback.specs.Heads.{head_part};
ghost use Rattle.qn_playback.specs.Parts.{Gives, Refuses};
ghost use Rattle.qn_sched.specs.Head.{safe_timing_in};

use crate::head_line::read_head_line;
use crate::settings_head::read_settings;
use arrayvec::ArrayVec;
use qn_io::{PIECE, Pieces, Source};
use qn_model::{Settings, Timing, timing_safe};
use qn_sched::{ReplayEnd, read_timing};
use std::alloc::Global;

/// What the head of a schedule gives: the settings and the times, and how many lines of the input it has.
#[derive(Drop)]
pub struct Head {
    pub settings: Settings,
    pub timing: Timing,
    pub lines: u64,
}

/// Reads the head of a schedule, at the beginning of the input.
pub fn read_head<I: Source>(
    alloc: Global,
    pieces: &mut Pieces,
    input: &mut I,
) -> Result<Head, ReplayEnd>
    ensures head { IfOk result (λ head. Gives head_part head
        (prepend_known pieces.old (I.left input.old))
        (prepend_known pieces.new (I.left input.new))) }
    ensures valid { IfOk result (λ head. IsValid head.settings) }
    ensures safe { IfOk result (λ head. is_safe head.timing ≡ true) }
    ensures few_lines { IfOk result (λ head. head.lines ≤ 1048578) }
    ensures end { IfErr result (Refuses head_part
        (prepend_known pieces.old (I.left input.old)) (prepend_known pieces.new (I.left input.new))
        ((pieces.new ≡ []) × IsAtEnd (I.left input.new))
        ((pieces.new ≡ []) × HasRisen (I.faults input.old) (I.faults input.new))) }
    ensures head_end { IfErr result IsHeadEnd }
    ensures within { length pieces.new ≤ PIECE }
    ensures never_falls { I.faults input.old ≤ I.faults input.new }
{
    let text = read_settings(alloc, pieces, input)?;
    let mut line = ArrayVec::new();
    read_head_line(pieces, input, text.lines, &mut line)?;
    let timing = safe_timing(line.as_slice(), text.lines + 1)?;
    Ok(Head {
        settings: text.settings,
        timing,
        lines: text.lines + 1,
    })
}

/// The times that the line of this number gives, where they are safe.
#[tactic(auto, unfolding(qn_sched::specs::Head::safe_timing_in))]
fn safe_timing(line: &[u8], number: u64) -> Result<Timing, ReplayEnd>
    ensures timing { result ≡ safe_timing_in number line.now }
    ensures safe { IfOk result (λ timing. is_safe timing ≡ true) }
    ensures fault { IfErr result IsHeadEnd }
{
    let timing = match read_timing(line) {
        Ok(timing) => timing,
        Err(fault) => {
            return Err(ReplayEnd::BadSchedule {
                line: number,
                fault,
            });
        }
    };
    if !timing_safe(&timing) {
        return Err(ReplayEnd::UnsafeTiming(timing));
    }
    Ok(timing)
}
