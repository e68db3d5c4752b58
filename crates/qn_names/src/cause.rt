//! The numbers of the causes for which a boot halts.
ghost use Rattle.std.specs.Prelude.{◌≡◌};
ghost use Rattle.qn_names.specs.CauseNumbers.{cause_number};

use qn_model::BootCause;

/// The number of a cause, 1 to 7.
pub fn cause_number(cause: BootCause) -> u64
    ensures { result ≡ cause_number cause }
{
    match cause {
        BootCause::ReadFailed => 1,
        BootCause::NotImage => 2,
        BootCause::UnsafeTiming => 3,
        BootCause::ClaimFailed => 4,
        BootCause::ClearFailed => 5,
        BootCause::IncarnationSpent => 6,
        BootCause::NotClean => 7,
    }
}
