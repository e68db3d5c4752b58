//! What a disk operation is: a claim, a read of the own mailbox.
ghost use Rattle.std.specs.Prelude.{◌≡◌};
ghost use Rattle.qn_model.specs.Log.{claim_of};
ghost use Rattle.qn_model.specs.Wanted.{asks_mail};

use qn_model::DiskOp;

/// The incarnation that a disk operation claims.
pub fn claim_of(op: Option<DiskOp>) -> Option<u64>
    ensures { result ≡ claim_of op }
{
    match op {
        Some(DiskOp::WriteClaim(number)) => Some(number),
        _ => None,
    }
}

/// Whether a disk operation asks for the own mailbox.
pub fn asks_mail(op: Option<DiskOp>) -> bool
    ensures { result ≡ asks_mail op }
{
    matches!(op, Some(DiskOp::ReadMail))
}
