//! Why a call on an image did not do its work.
use qn_base::Failed;
use qn_model::Message;

/// Why a call on an image did not do its work.
#[derive(Clone, Copy, PartialEq, Eq)]
pub enum ImageFault {
    /// A read or a write of the disk failed; only where the outside's count of faults rose.
    Disk,
    /// Sector 0 is no header.
    NotImage,
    /// The times are not safe; nothing was written.
    UnsafeTiming,
    /// A test or an exit was to replace this deadly message; nothing was written.
    DeadlyThere(Message),
    /// A slot or mailbox that was read is no spelling; nothing was written.
    DamagedSector { sector: u32 },
    /// Every slot was read, and none has the id.
    UnknownNode,
}

impl From<Failed> for ImageFault {
    ghost use Rattle.std.specs.Prelude.{◌≡◌};
    ghost use Rattle.qn_image.specs.declared.fault.ImageFault.TheVariants.{Disk};

    ghost from_gives = { λ _ fault. fault ≡ Disk };

    fn from(_failed: Failed) -> Self {
        ImageFault::Disk
    }
}
