//! What a node takes from its settings text: the settings, and within which limit it polls its arbiter.
ghost use Rattle.std.specs.Prelude.{◌≡◌, ◌≤◌, ◌⊎◌, Err, IfOk, IfErr};
ghost use Rattle.qn_io.specs.Outside.{HasRisen};
ghost use Rattle.qn_model.specs.Settings.{IsValid};
ghost use Rattle.qn_commands.specs.Faults.{status_of};
ghost use Rattle.qn_commands.specs.InputSettings.{Judges, input_settings};
ghost use Rattle.qn_commands.specs.Seen.{source};
ghost use Rattle.qn_running.specs.Polls.{PollsBy, ReadsNode};

use qn_commands::{Fault, read_good_text};
use qn_conf::{ConfFault, read_tree};
use qn_io::Source;
use qn_links::device_of;
use qn_model::Settings;
use qn_polls::least_lease;
use std::alloc::{AllocError, Global};

/// What the settings text of a node says.
#[derive(Drop)]
pub(crate) struct NodeText {
    pub(crate) settings: Settings,
    /// The limit, in milliseconds, within which the node takes a reply of its arbiter, where the text names one.
    pub(crate) polls: Option<u64>,
}

/// Reads the whole input as the settings text of a node and judges it, as `read_settings` does. Memory is taken for it alone.
pub(crate) fn read_node_text<I: Source>(alloc: Global, input: &mut I) -> Result<NodeText, Fault>
    ensures good { IfOk result (λ text. ReadsNode (source I.left I.faults input.old)
        (source I.left I.faults input.new) text.settings text.polls) }
    ensures bad { IfErr result (λ fault. Judges input_settings (source I.left I.faults input.old)
        (source I.left I.faults input.new) (Err fault)) }
    ensures valid { IfOk result (λ text. IsValid text.settings) }
    ensures read_fault { IfErr result (λ fault.
        status_of fault ≡ 6 → HasRisen (I.faults input.old) (I.faults input.new)) }
    ensures status { IfErr result (λ fault.
        (status_of fault ≡ 3) ⊎ ((status_of fault ≡ 6) ⊎ (status_of fault ≡ 11))) }
    ensures source_faults { I.faults input.old ≤ I.faults input.new }
{
    let good = match read_good_text(alloc, input) {
        Ok(good) => good,
        Err(fault) => return Err(fault),
    };
    match polls_of(alloc, good.text.as_slice(), &good.settings) {
        Ok(polls) => Ok(NodeText {
            settings: good.settings,
            polls,
        }),
        Err(AllocError) => Err(Fault::NoMemory),
    }
}

/// The limit within which a node of these settings, which that text gives, takes a reply of its arbiter, where the text names one.
fn polls_of(alloc: Global, text: &[u8], settings: &Settings) -> Result<Option<u64>, AllocError>
    requires { IsValid settings.now }
    ensures { IfOk result (PollsBy text.now settings.now) }
{
    let Some(device) = settings.device else {
        return Ok(None);
    };
    let tree = match read_tree(alloc, text) {
        Ok(tree) => tree,
        Err(ConfFault::NoMemory) => return Err(AllocError),
        Err(_) => return Ok(None),
    };
    if device_of(&tree).names_arbiter() {
        Ok(Some(least_lease(device).limit))
    } else {
        Ok(None)
    }
}
