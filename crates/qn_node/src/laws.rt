//! The law that a node's operations are about no member of its view.
ghost use Rattle.std.specs.Prelude.{ℕ, List};
ghost use Rattle.qn_model.specs.declared.configuration.Settings.{Settings};
ghost use Rattle.qn_model.specs.Log.{Line};
ghost use Rattle.qn_model.specs.Wanted.{wanted_with_delay};
ghost use Rattle.qn_fence.specs.Fence.{IsOutside};

/// The operations of a node that takes part are about no member of its view.
pub fn law_outside()
    ensures { (s : Settings) (me : ℕ) (log : List Line)
        → IsOutside log (wanted_with_delay s me log) }
{
    qn_fence::law_outside();
}
