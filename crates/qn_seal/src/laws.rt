//! The laws of the window.
ghost use Rattle.qn_seal.specs.Windows.{RefusedOnly, TakenOnce};

/// Law: of a boot of a sender each number is taken once, in whatever order they come; and what is refused was taken, or is 64 numbers or more
/// behind the greatest. It holds while the sender is not silent for ten seconds.
pub fn law_taken_once()
    ensures once { TakenOnce }
    ensures only { RefusedOnly }
{}
