//! Says on standard error why a real call failed.
ghost use Rattle.std.specs.Prelude.{◌≡◌, ◌↔◌, IfOk, IsErr};

use qn_base::Failed;
use std::io;

/// What a real call came to. Where it failed, a line on standard error says of which file or stream, and why
/// in the system's own words: `quorumd: disk: Permission denied (os error 13)`. That the line cannot be
/// written is no fault.
pub(crate) fn reported<E: Eprint, T: Drop>(
    errors: &E,
    name: &str,
    done: io::Result<T>,
) -> Result<T, Failed>
    ensures same { IfOk result (λ value. done ≡ Ok value) }
    ensures failed { IsErr result ↔ IsErr done }
{
    match done {
        Ok(value) => Ok(value),
        Err(error) => {
            let _ = eprintln!(errors; "quorumd: {name}: {error}");
            Err(Failed)
        }
    }
}
