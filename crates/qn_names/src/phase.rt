//! The words of phases.
ghost use Rattle.std.specs.Prelude.{◌≡◌, ◌≤◌, length};
ghost use Rattle.qn_names.specs.PhaseNames.{phase_name};

use qn_model::Phase;

/// The word of a phase, as a status and the line of a running node print it.
pub fn phase_name(phase: Phase) -> &'static str
    ensures text { result.now ≡ phase_name phase }
    ensures len { length result.now ≤ 7 }
{
    match phase {
        Phase::Booting => "booting",
        Phase::Up => "up",
        Phase::Leaving => "leaving",
        Phase::Dying => "dying",
        Phase::Gone => "off",
    }
}
