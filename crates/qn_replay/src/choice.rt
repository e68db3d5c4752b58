//! What a draw of a soak chooses.

/// What a draw chooses.
#[derive(Clone, Copy, PartialEq, Eq)]
pub(crate) enum Choice {
    /// The next step of a node.
    Step,
    /// Time passes.
    Pass,
    /// A view.
    View,
    /// One of the last packets reaches its receiver.
    Delivery,
    /// The device answers.
    Device,
    /// A crash, a leave, a leftover that lands, or a failure.
    Incident,
}

impl Choice {
    ghost use Rattle.std.specs.Prelude.{◌≡◌};
    ghost use Rattle.qn_replay.specs.Generator.{choice_of};

    /// What a number below 16 chooses.
    pub(crate) fn of(number: u64) -> Choice
        ensures { result ≡ choice_of number }
    {
        if number < 10 {
            Choice::Step
        } else if number < 12 {
            Choice::Pass
        } else if number == 12 {
            Choice::View
        } else if number == 13 {
            Choice::Delivery
        } else if number == 14 {
            Choice::Device
        } else {
            Choice::Incident
        }
    }
}
