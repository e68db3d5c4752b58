//! The law of a boot that waits.
ghost use Rattle.std.specs.Prelude.{ℕ, List};
ghost use Rattle.qn_model.specs.declared.configuration.Settings.{Settings};
ghost use Rattle.qn_model.specs.declared.entries.What.{What};
ghost use Rattle.qn_model.specs.Log.{Line};
ghost use Rattle.qn_model.specs.NodeOutputs.{with_read};
ghost use Rattle.qn_boot.specs.declared.steps.WantHeader.{WantHeader};
ghost use Rattle.qn_boot.specs.declared.steps.WantSlot.{WantSlot};
ghost use Rattle.qn_boot.specs.declared.steps.WantCheck.{WantCheck};
ghost use Rattle.qn_boot.specs.declared.steps.WantClaim.{WantClaim};
ghost use Rattle.qn_boot.specs.declared.steps.WantClear.{WantClear};
ghost use Rattle.qn_boot.specs.Boot.{WantCheckFor, WantClaimFor, WantClearFor, WantHeaderFor, WantSlotFor};

/// An entry that is read as a Tick, as every entry that does not fit is, leaves what a boot stands for.
pub fn law_boot_waits()
    ensures header { (s : Settings) (me tick : ℕ) (want : WantHeader) (log : List Line)
        → WantHeaderFor s want log
        → WantHeaderFor s want (with_read s me log tick What.Tick) }
    ensures slot { (s : Settings) (me tick : ℕ) (want : WantSlot) (log : List Line)
        → WantSlotFor s me want log
        → WantSlotFor s me want (with_read s me log tick What.Tick) }
    ensures check { (s : Settings) (me tick : ℕ) (want : WantCheck) (log : List Line)
        → WantCheckFor s want log
        → WantCheckFor s want (with_read s me log tick What.Tick) }
    ensures claim { (s : Settings) (me tick : ℕ) (want : WantClaim) (log : List Line)
        → WantClaimFor s want log
        → WantClaimFor s want (with_read s me log tick What.Tick) }
    ensures clear { (s : Settings) (me tick : ℕ) (want : WantClear) (log : List Line)
        → WantClearFor s want log
        → WantClearFor s want (with_read s me log tick What.Tick) }
{}
