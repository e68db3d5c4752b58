//! A node of which nothing comes any more.
use crate::resource::Resource;
use qn_model::{Phase, What};

/// A node of which nothing comes any more: it is dying or gone, or its boot never began.
#[derive(Clone, Copy)]
pub struct Rest {
    pub phase: Phase,
    pub claims: Option<u64>,
    pub resource: Resource,
}

impl Rest {
    ghost use Rattle.std.specs.Prelude.{◌≡◌, ℕ, List, None};
    ghost use Rattle.qn_model.specs.declared.configuration.Settings.{Settings};
    ghost use Rattle.qn_model.specs.Log.{Line};
    ghost use Rattle.qn_model.specs.Fitting.{read_as};
    ghost use Rattle.qn_model.specs.NodeOutputs.{with_read};
    ghost use Rattle.qn_node.specs.Rest.{RestFor};

    /// After an entry at this tick: the answer of a Stop still counts.
    pub fn step(self, tick: u64, what: What) -> Self
        ensures { (s : Settings) (me : ℕ) (log : List Line)
            → RestFor self s log
            → RestFor result s (with_read s me log tick (read_as s me log what)) }
    {
        Rest {
            phase: self.phase,
            claims: self.claims,
            resource: self.resource.after_entry(tick, what),
        }
    }
}
