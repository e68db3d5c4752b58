//! The laws of whom running nodes reset.
ghost use Rattle.qn_model.specs.declared.configuration.Settings.{Settings};
ghost use Rattle.qn_model.specs.declared.times.Timing.{Timing};
ghost use Rattle.qn_service.specs.Unheard.{NobodyIsReset, ResetIsMet, ResetsTheUnheard};

/// Law: a reset is asked for only of a node that the maker of the present view left out, whoever that was, where each announcement of a
/// view with its sender was sent by that. Nothing is asked of the image, of the times and of other packets.
pub fn law_resets_the_unheard()
    ensures { (s : Settings) (t : Timing) → ResetsTheUnheard s t }
{}

/// Law: while each look of a node that leads finds every other node in company, or a member of which a Hello came and that was out of
/// company for less than three loops, nobody asks for a reset.
pub fn law_nobody_is_reset()
    ensures { (s : Settings) (t : Timing) → NobodyIsReset s t }
{}

/// The premises are met: in some joined run a node asks for a reset of another one, whose slot is dirty, and which it did not hear.
pub fn law_reset_is_met()
    ensures { ResetIsMet }
{}
