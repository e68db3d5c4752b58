//! The settings that a whole text gives, or its first fault.
ghost use Rattle.std.specs.Prelude.{◌≡◌, ◌⊎◌, Err, IfOk};
ghost use Rattle.qn_conf.specs.declared.faults.ConfFault.TheVariants.{NoMemory};
ghost use Rattle.qn_model.specs.Settings.{IsValid};
ghost use Rattle.qn_settings.specs.Text.{settings_of_text};
ghost use Rattle.qn_settings.specs.declared.faults.TextFault.{TextFault};

use crate::faults::TextFault;
use crate::reading::settings;
use qn_conf::read_tree;
use qn_model::Settings;
use std::alloc::Global;

/// The settings that a whole text gives (corosync.conf(5), votequorum(5)), or its first fault: those of the
/// text come before those of the tree. `Conf(NoMemory)` comes only where it ran out of memory.
#[tactic(auto, unfolding(crate::specs::Text::settings_of_text))]
pub fn settings_of_text(alloc: Global, text: &[u8]) -> Result<Settings, TextFault>
    ensures answer { (result ≡ settings_of_text text.now)
        ⊎ (result ≡ Err (TextFault.Conf NoMemory)) }
    ensures valid { IfOk result IsValid }
{
    match read_tree(alloc, text) {
        Ok(tree) => settings(&tree).map_err(TextFault::Settings),
        Err(fault) => Err(TextFault::Conf(fault)),
    }
}
