//! The settings text that a command reads first, whole, from its input.
ghost use Rattle.std.specs.Prelude.{◌≡◌, ◌≤◌, ◌⊎◌, Err, IfOk, IfErr};
ghost use Rattle.qn_io.specs.Outside.{HasRisen};
ghost use Rattle.qn_model.specs.Settings.{IsValid};
ghost use Rattle.qn_commands.specs.Faults.{status_of};
ghost use Rattle.qn_commands.specs.InputSettings.{IsWanted, Judges, ReadsText, ReadsWhole, input_settings, input_text, settings_in};
ghost use Rattle.qn_commands.specs.Seen.{source};

use crate::fault::Fault;
use qn_conf::{ConfFault, MOST_TEXT_BYTES};
use qn_io::{PIECE, Source};
use qn_model::Settings;
use qn_settings::settings_of_text;
use std::alloc::Global;
use std::marker::Model;

/// A settings text that was read whole.
#[derive(Drop)]
pub struct SettingsText {
    bytes: Vec<u8>,
}

impl Model for SettingsText {
    ghost use Rattle.std.specs.Prelude.{ℕ, List};

    ghost Value = { List ℕ };

    ghost view = { λ t. t.bytes.items };
}

impl SettingsText {
    /// The bytes of the text.
    pub fn as_slice(&self) -> &[u8]
        ensures { result.now ≡ self.now }
    {
        self.bytes.as_slice()
    }
}

/// A settings text that was read whole and has no fault, and its settings.
#[derive(Drop)]
pub struct GoodText {
    pub text: SettingsText,
    pub settings: Settings,
}

/// Reads the whole input as a settings text (corosync.conf(5)) and judges it. More than 1,048,576 bytes are
/// too long as soon as they were read.
pub fn read_settings<I: Source>(alloc: Global, input: &mut I) -> Result<Settings, Fault>
    ensures judges { Judges input_settings (source I.left I.faults input.old)
        (source I.left I.faults input.new) result }
    ensures valid { IfOk result IsValid }
    ensures read_fault { IfErr result (λ fault.
        status_of fault ≡ 6 → HasRisen (I.faults input.old) (I.faults input.new)) }
    ensures status { IfErr result (λ fault.
        (status_of fault ≡ 3) ⊎ ((status_of fault ≡ 6) ⊎ (status_of fault ≡ 11))) }
    ensures source_faults { I.faults input.old ≤ I.faults input.new }
{
    match read_good_text(alloc, input) {
        Ok(good) => Ok(good.settings),
        Err(fault) => Err(fault),
    }
}

/// Reads the whole input as `read_settings` does, and gives its bytes beside the settings.
pub fn read_good_text<I: Source>(alloc: Global, input: &mut I) -> Result<GoodText, Fault>
    ensures good { IfOk result (λ good. ReadsText (source I.left I.faults input.old)
        (source I.left I.faults input.new) good.text good.settings) }
    ensures bad { IfErr result (λ fault. Judges input_settings (source I.left I.faults input.old)
        (source I.left I.faults input.new) (Err fault)) }
    ensures valid { IfOk result (λ good. IsValid good.settings) }
    ensures read_fault { IfErr result (λ fault.
        status_of fault ≡ 6 → HasRisen (I.faults input.old) (I.faults input.new)) }
    ensures status { IfErr result (λ fault.
        (status_of fault ≡ 3) ⊎ ((status_of fault ≡ 6) ⊎ (status_of fault ≡ 11))) }
    ensures source_faults { I.faults input.old ≤ I.faults input.new }
{
    let text = match read_text(alloc, input) {
        Ok(text) => text,
        Err(fault) => return Err(fault),
    };
    match settings_in(alloc, text.as_slice()) {
        Ok(settings) => Ok(GoodText { text, settings }),
        Err(fault) => Err(fault),
    }
}

/// The settings that a text gives, or its first fault.
#[tactic(auto, unfolding(crate::specs::InputSettings::settings_in))]
fn settings_in(alloc: Global, text: &[u8]) -> Result<Settings, Fault>
    ensures settings { IsWanted result ⊎ (settings_in text.now ≡ result) }
    ensures valid { IfOk result IsValid }
    ensures status { IfErr result (λ fault. (status_of fault ≡ 3) ⊎ (status_of fault ≡ 11)) }
{
    settings_of_text(alloc, text).map_err(Fault::of_text)
}

/// Reads the whole input, up to the most bytes that a settings text may have.
fn read_text<I: Source>(alloc: Global, input: &mut I) -> Result<SettingsText, Fault>
    ensures judges { Judges input_text (source I.left I.faults input.old)
        (source I.left I.faults input.new) result }
    ensures whole { IfOk result (λ text. ReadsWhole (source I.left I.faults input.old)
        (source I.left I.faults input.new) text) }
    ensures read_fault { IfErr result (λ fault.
        status_of fault ≡ 6 → HasRisen (I.faults input.old) (I.faults input.new)) }
    ensures status { IfErr result (λ fault.
        (status_of fault ≡ 3) ⊎ ((status_of fault ≡ 6) ⊎ (status_of fault ≡ 11))) }
    ensures source_faults { I.faults input.old ≤ I.faults input.new }
{
    let mut bytes = Vec::new(alloc);
    let mut piece = [0; PIECE];
    'pieces: loop {
        let Ok(count) = input.read(&mut piece) else {
            return Err(Fault::ReadFault);
        };
        if count == 0 {
            return Ok(SettingsText { bytes });
        }
        let Ok(()) = bytes.extend_from_slice(piece.split_at(count).0) else {
            return Err(Fault::NoMemory);
        };
        if bytes.as_slice().len() > MOST_TEXT_BYTES {
            return Err(Fault::BadConf(ConfFault::TooLong));
        }
    }
}
