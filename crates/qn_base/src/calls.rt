//! Calls on the outside of a node as values, with their arguments and answers, so that contracts can list them.
ghost use Rattle.std.specs.Prelude.{◌≡◌, ◌≤◌, [], length};

use crate::ids::Rank;
use arrayvec::ArrayVec;
use std::marker::Model;

/// A list of at most 512 bytes, without memory of its own: a sector, a packet or a path.
#[derive(Drop, PartialEq, Eq)]
pub struct Bytes {
    bytes: ArrayVec<u8, 512>,
}

impl Model for Bytes {
    ghost use Rattle.std.specs.Prelude.{ℕ, List};

    ghost Value = { List ℕ };

    ghost view = { λ b. b.bytes.items };

    ghost inverse = { λ bytes. record { bytes = record { items = bytes } } };
}

impl Bytes {
    /// No bytes.
    pub fn empty() -> Self
        ensures { result ≡ [] }
    {
        Bytes {
            bytes: ArrayVec::new(),
        }
    }

    /// A copy of these bytes.
    pub fn new(from: &[u8]) -> Self
        requires { length from.now ≤ 512 }
        ensures { result ≡ from.now }
    {
        let mut bytes = ArrayVec::new();
        let _ = bytes.try_extend_from_slice(from);
        Bytes { bytes }
    }

    pub fn as_slice(&self) -> &[u8]
        ensures value { result.now ≡ self.now }
        ensures fits { length result.now ≤ 512 }
    {
        self.bytes.as_slice()
    }
}

/// What one `receive` gave.
#[derive(Drop, PartialEq, Eq)]
pub enum Received {
    Packet(Bytes),
    Nothing,
    Failed,
}

/// One call on the outside of a node, with its arguments and its answer. `ok` is false exactly where
/// the call answered `Failed`; a read that failed has no bytes.
#[derive(Drop, PartialEq, Eq)]
pub enum Call {
    OpenImage {
        path: Bytes,
        ok: bool,
    },
    /// `images` is the number of images that `image` names.
    OpenNode {
        images: u8,
        image: Bytes,
        watchdog: Bytes,
        resource: Bytes,
        port: u16,
        rank: Rank,
        ok: bool,
    },
    Now {
        tick: u64,
    },
    Receive {
        got: Received,
    },
    Read {
        sector: u32,
        bytes: Bytes,
        ok: bool,
    },
    Write {
        sector: u32,
        bytes: Bytes,
        ok: bool,
    },
    Feed {
        ok: bool,
    },
    Start {
        ok: bool,
    },
    Stop {
        ok: bool,
    },
    Send {
        to: Rank,
        bytes: Bytes,
        ok: bool,
    },
    Disarm {
        ok: bool,
    },
    Halt {
        code: u8,
    },
}
