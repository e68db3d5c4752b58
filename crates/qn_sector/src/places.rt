//! The sectors of a rank's slot and mailbox.
ghost use Rattle.std.specs.Prelude.{◌≡◌, ◌<◌};
ghost use Rattle.qn_model.specs.Sectors.{slot_place, mail_place, mail_place_1};

use qn_base::Rank;

/// The sector of a rank's slot, in an image of either version.
pub fn slot_sector(rank: Rank) -> u32
    requires { rank.0 < 32 }
    ensures sector { result ≡ slot_place rank.0 }
    ensures within { result < 64 }
{
    1 + 2 * u32::from(rank.0)
}

/// The sector of a rank's mailbox in an image of version 2.
pub fn mail_sector(rank: Rank) -> u32
    requires { rank.0 < 32 }
    ensures sector { result ≡ mail_place rank.0 }
    ensures within { result < 544 }
{
    512 + u32::from(rank.0)
}

/// The sector of a rank's mailbox in an image of version 1.
pub fn mail_sector_1(rank: Rank) -> u32
    requires { rank.0 < 32 }
    ensures sector { result ≡ mail_place_1 rank.0 }
    ensures within { result < 65 }
{
    2 + 2 * u32::from(rank.0)
}
