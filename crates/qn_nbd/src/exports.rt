//! What a server tells of an export, and whether an image can lie there.
use byteorder::{BigEndian, ByteOrder};

/// NBD_INFO_EXPORT: size and flags.
const SIZE_AND_FLAGS: u16 = 0;

/// NBD_INFO_BLOCK_SIZE: the least block, the preferred one and the greatest.
const BLOCKS: u16 = 3;

/// What is known of an export: its size in bytes, its transmission flags and its least block in bytes, each 0 until it is told.
#[derive(Clone, Copy, PartialEq, Eq, Default)]
pub struct Export {
    pub size: u64,
    pub flags: u16,
    pub least_block: u32,
}

/// Why no image can lie on an export.
#[derive(Clone, Copy, PartialEq, Eq)]
pub enum Unfit {
    /// A write cannot be asked to last when it is answered.
    NotLasting,
    /// It has fewer bytes than the image.
    Short,
    /// Its least block is longer than the place of a sector.
    LongBlocks,
}

impl Export {
    ghost use Rattle.std.specs.Prelude.{◌≡◌};
    ghost use Rattle.qn_nbd.specs.Exports.{is_lasting, is_read_only, told, unfit};

    /// Takes what a reply tells: size and flags, or block sizes. Anything else is passed over.
    #[tactic(auto, unfolding(crate::specs::Exports::told))]
    pub fn take(&mut self, bytes: &[u8])
        ensures { self.new ≡ told self.old bytes.now }
    {
        if bytes.len() < 2 {
            return;
        }
        let kind = BigEndian::read_u16(bytes);
        let rest = bytes.split_at(2).1;
        if kind == SIZE_AND_FLAGS && rest.len() == 10 {
            self.size = BigEndian::read_u64(rest);
            self.flags = BigEndian::read_u16(rest.split_at(8).1);
        } else if kind == BLOCKS && rest.len() == 12 {
            self.least_block = BigEndian::read_u32(rest);
        }
    }

    /// Whether it can only be read (NBD_FLAG_READ_ONLY).
    pub fn is_read_only(&self) -> bool
        ensures { result ≡ is_read_only self.now }
    {
        self.flags / 2 % 2 == 1
    }

    /// Whether a write can be asked to last when it is answered (NBD_FLAG_SEND_FUA).
    pub fn is_lasting(&self) -> bool
        ensures { result ≡ is_lasting self.now }
    {
        self.flags / 8 % 2 == 1
    }

    /// Whether an image can lie there whose sectors have places of so many bytes, and which has so many bytes in all. One that can
    /// only be read need not promise that writes last.
    #[tactic(auto, unfolding(crate::specs::Exports::unfit))]
    pub fn unfit(&self, place: u32, all: u64) -> Option<Unfit>
        ensures { result ≡ unfit self.now place all }
    {
        if self.size < all {
            Some(Unfit::Short)
        } else if self.least_block > place {
            Some(Unfit::LongBlocks)
        } else if !self.is_lasting() && !self.is_read_only() {
            Some(Unfit::NotLasting)
        } else {
            None
        }
    }
}
