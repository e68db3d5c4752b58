//! A packet as it is sent.
ghost use Rattle.std.specs.Prelude.{◌≡◌, ◌≤◌, length};

use crate::guard::Guarding;
use crate::sealing::Sealing;
use arrayvec::ArrayVec;
use qn_base::Rank;
use qn_io::SENT_PACKET;
use std::io::{self, ErrorKind};
use std::marker::Model;
use std::time::Clock;

/// A packet as it is sent, of at most 128 bytes. Nothing but `Dispatch` makes one.
#[derive(Drop)]
pub struct Outgoing {
    bytes: ArrayVec<u8, SENT_PACKET>,
}

impl Model for Outgoing {
    ghost use Rattle.std.specs.Prelude.{ℕ, List};

    ghost Value = { List ℕ };

    ghost view = { λ packet. packet.bytes.items };
}

impl Outgoing {
    ghost use Rattle.std.specs.Prelude.{◌≡◌, ◌<◌, ◌≤◌, IfOk, OnOk, OnErr, length};

    /// These bytes as they are. It fails for more than 128.
    fn plain(bytes: &[u8]) -> io::Result<Outgoing>
        ensures same { IfOk result (λ packet. packet ≡ bytes.now) }
        ensures fits { OnOk result (length bytes.now ≤ 128) }
        ensures unfit { OnErr result (128 < length bytes.now) }
    {
        let mut kept = ArrayVec::new();
        match kept.try_extend_from_slice(bytes) {
            Ok(()) => Ok(Outgoing { bytes: kept }),
            Err(_) => Err(io::Error::new(ErrorKind::InvalidInput, "too long for a packet")),
        }
    }

    /// Its bytes.
    pub fn as_slice(&self) -> &[u8]
        ensures { result.now ≡ self.now }
    {
        self.bytes.as_slice()
    }
}

/// By what the packets of a node are sent: under a seal where there is a key, else as they are.
#[derive(Drop)]
pub struct Dispatch {
    sealing: Option<Sealing>,
}

impl Dispatch {
    ghost use Rattle.std.specs.Prelude.{◌≡◌, ◌≢◌, None, IfOk, OnOk, OnErr};
    ghost use Rattle.qn_peers.specs.Guards.{SendsBy, keys_of};
    ghost use Rattle.qn_peers.specs.Sending.{CanBeSent, sealing_after, sent_as};

    /// For the node of that rank, or for the arbiter as rank 32, which opens its port now. It fails where the clock cannot be read and there is a key.
    pub fn new<C: Clock>(clock: &C, own: Rank, guarding: &Guarding) -> io::Result<Dispatch>
        ensures seals { IfOk result (λ dispatch.
            SendsBy own guarding.now (keys_of guarding.now.guard) dispatch.sealing) }
        ensures keyed { OnErr result (keys_of guarding.now.guard ≢ None) }
    {
        let sealing = match guarding.keys() {
            None => None,
            Some(keys) => Some(Sealing::new(clock, keys.first, guarding.texts.first, own)?),
        };
        Ok(Dispatch { sealing })
    }

    /// The packet as it is sent to that seat. It fails for more than 128 bytes, or with a key for more than 74 or a seat above 32.
    pub fn packet(&mut self, to: Rank, bytes: &[u8]) -> io::Result<Outgoing>
        ensures form { IfOk result (λ packet. packet ≡ sent_as self.old.sealing to.0 bytes.now) }
        ensures next { OnOk result (self.new.sealing ≡ sealing_after self.old.sealing to.0) }
        ensures fits { OnOk result (CanBeSent self.old.sealing to.0 bytes.now) }
        ensures unfit { OnErr result (CanBeSent self.old.sealing to.0 bytes.now → ⊥) }
        ensures same { OnErr result (self.new ≡ self.old) }
    {
        match &mut self.sealing {
            None => Outgoing::plain(bytes),
            Some(sealing) => match sealing.seal(to, bytes) {
                Ok(bytes) => Ok(Outgoing { bytes }),
                Err(error) => Err(error),
            },
        }
    }
}
