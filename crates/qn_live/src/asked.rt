//! What a running node asks of its outside, and what it is given.
use arrayvec::ArrayVec;
use qn_base::Rank;
use qn_io::{Got, PACKET, SECTOR, SENT_PACKET};

/// The call that comes next. What a write and a send carry stands in the [`Room`].
#[derive(Clone, Copy)]
pub enum Asked {
    Receive,
    Now,
    Read { sector: u32 },
    /// Write `Room::sector`.
    Write { sector: u32 },
    Feed,
    Start,
    Stop,
    /// Send `Room::sent`.
    Send { to: Rank },
    Disarm,
    Halt { code: u8 },
}

/// The answer of a call: the time for `Now`, else 0; what came for `Receive`, else Nothing; and whether the call
/// succeeded. The bytes of a packet and of a sector stand in the [`Room`].
#[derive(Clone, Copy)]
pub struct Given {
    pub tick: u64,
    pub got: Got,
    pub ok: bool,
}

/// The bytes of a call: the sector that was read or is to be written, the packet that came, and the one to send.
#[derive(Drop)]
pub struct Room {
    pub sector: [u8; SECTOR],
    pub packet: [u8; PACKET],
    pub sent: ArrayVec<u8, SENT_PACKET>,
}

impl Room {
    /// Room for the bytes of a call.
    pub fn new() -> Self {
        Room {
            sector: [0; SECTOR],
            packet: [0; PACKET],
            sent: ArrayVec::new(),
        }
    }
}

impl Given {
    ghost use Rattle.std.specs.Prelude.{◌≡◌};

    /// The answer of a call that gives nothing but whether it succeeded.
    pub fn done(ok: bool) -> Given
        ensures { result ≡ record { tick = 0; got = Got.Nothing; ok = ok } }
    {
        Given {
            tick: 0,
            got: Got::Nothing,
            ok,
        }
    }
}
