//! Reads the settings text at the beginning of an input, up to the line `----`.
ghost use Rattle.std.specs.Prelude.{◌≡◌, ◌≤◌, ◌++◌, [], length, codes, IfOk, IfErr};
ghost use Rattle.std.specs.Io.KnownBytes.{IsAtEnd, prepend_known};
ghost use Rattle.qn_io.specs.Outside.{HasRisen};
ghost use Rattle.qn_model.specs.Settings.{IsValid};
ghost use Rattle.qn_playback.specs.Faults.{end_of};
ghost use Rattle.qn_playback.specs.Heads.{settings_part};
ghost use Rattle.qn_playback.specs.Parts.{Gives, Leads, Refuses};
ghost use Rattle.qn_playback.specs.Texts.{HasText, whole_text};

use crate::head_fault::HeadFault;
use crate::part_text::{PartText, Taken};
use qn_conf::ConfFault;
use qn_io::{Next, PIECE, Pieces, Source};
use qn_model::{LineFault, Settings};
use qn_settings::settings_of_text;
use std::alloc::Global;

/// The settings at the beginning of an input, and how many lines their text and the line `----` are.
#[derive(Drop)]
pub struct SettingsHead {
    pub settings: Settings,
    pub lines: u64,
}

/// Reads the settings text, up to the line `----`, at the beginning of the input, and judges it.
pub fn read_settings<I: Source>(
    alloc: Global,
    pieces: &mut Pieces,
    input: &mut I,
) -> Result<SettingsHead, HeadFault>
    ensures settings { IfOk result (λ head. Gives settings_part head
        (prepend_known pieces.old (I.left input.old))
        (prepend_known pieces.new (I.left input.new))) }
    ensures text { IfOk result (λ head. HasText head.settings
        (prepend_known pieces.old (I.left input.old))
        (prepend_known pieces.new (I.left input.new))) }
    ensures valid { IfOk result (λ head. IsValid head.settings) }
    ensures few_lines { IfOk result (λ head. head.lines ≤ 1048577) }
    ensures fault { IfErr result (λ fault. Refuses settings_part
        (prepend_known pieces.old (I.left input.old)) (prepend_known pieces.new (I.left input.new))
        ((pieces.new ≡ []) × IsAtEnd (I.left input.new))
        ((pieces.new ≡ []) × HasRisen (I.faults input.old) (I.faults input.new)) (end_of fault)) }
    ensures cause { IfErr result (λ fault. fault ≡ HeadFault.ReadFault
        → HasRisen (I.faults input.old) (I.faults input.new)) }
    ensures within { length pieces.new ≤ PIECE }
    ensures never_falls { I.faults input.old ≤ I.faults input.new }
{
    let text = read_text(alloc, pieces, input)?;
    let settings = settings_of_text(alloc, text.whole())?;
    Ok(SettingsHead {
        settings,
        lines: text.next_line(),
    })
}

/// Reads the settings text, up to the line `----`, at the beginning of the input.
fn read_text<I: Source>(
    alloc: Global,
    pieces: &mut Pieces,
    input: &mut I,
) -> Result<PartText, HeadFault>
    ensures text { IfOk result (λ text. Leads settings_part (whole_text text.whole text.lines)
        (prepend_known pieces.old (I.left input.old))
        (prepend_known pieces.new (I.left input.new))) }
    ensures taken { IfOk result (λ text. prepend_known pieces.old (I.left input.old)
        ≡ prepend_known (text.whole ++ codes "----\n")
        (prepend_known pieces.new (I.left input.new))) }
    ensures few_lines { IfOk result (λ text. text.lines ≤ 1048576) }
    ensures fault { IfErr result (λ fault. Refuses settings_part
        (prepend_known pieces.old (I.left input.old)) (prepend_known pieces.new (I.left input.new))
        ((pieces.new ≡ []) × IsAtEnd (I.left input.new))
        ((pieces.new ≡ []) × HasRisen (I.faults input.old) (I.faults input.new)) (end_of fault)) }
    ensures cause { IfErr result (λ fault. fault ≡ HeadFault.ReadFault
        → HasRisen (I.faults input.old) (I.faults input.new)) }
    ensures within { length pieces.new ≤ PIECE }
    ensures never_falls { I.faults input.old ≤ I.faults input.new }
{
    let mut text = PartText::new(alloc);
    'bytes: loop {
        let byte = match pieces.next(input) {
            Next::Byte(byte) => byte,
            Next::End => return Err(unended(text.next_line())),
            Next::Failed => return Err(HeadFault::ReadFault),
        };
        match text.take(byte) {
            Taken::More => {}
            Taken::Whole => return Ok(text),
            Taken::TooLong => return Err(HeadFault::BadConf(ConfFault::TooLong)),
            Taken::NoMemory => return Err(HeadFault::NoMemory),
        }
    }
}

fn unended(line: u64) -> HeadFault
    ensures { result ≡ HeadFault.BadSchedule line LineFault.Unended }
{
    HeadFault::BadSchedule {
        line,
        fault: LineFault::Unended,
    }
}
