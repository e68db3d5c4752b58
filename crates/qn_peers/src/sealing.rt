//! The seal of the packets that a node sends.
ghost use Rattle.std.specs.Prelude.{◌≡◌, ◌<◌, ◌≤◌, ◌⊎◌, IfOk, OnOk, OnErr, length, replicate};
ghost use Rattle.qn_peers.specs.Sending.{sealed_by, sealed_once};

use arrayvec::ArrayVec;
use qn_base::Rank;
use qn_seal::{INNER, Key, Seal, put_sealed};
use std::io::{self, ErrorKind};
use std::time::{Clock, SystemTime, UNIX_EPOCH};

/// How many receivers there are: 32 ranks and the arbiter.
const SEATS: usize = 33;

/// What the packets of a node are sealed with: the key, the text, the node's rank, its boot, and how many packets it has sealed for each
/// receiver, of which the arbiter is seat 32.
#[derive(Drop)]
pub(crate) struct Sealing {
    key: Key,
    text: [u8; 32],
    from: Rank,
    boot: u64,
    sent: [u64; SEATS],
}

impl Sealing {
    /// Seals for a node that opens its port now.
    pub(crate) fn new<C: Clock>(
        clock: &C,
        key: Key,
        text: [u8; 32],
        from: Rank,
    ) -> io::Result<Sealing>
        ensures secrets { IfOk result (λ sealing. (sealing.key ≡ key) × (sealing.text ≡ text)) }
        ensures unused { IfOk result (λ sealing. (sealing.from ≡ from) × (sealing.sent ≡ replicate 33 0)) }
    {
        let time = SystemTime::now(clock)?.duration_since(UNIX_EPOCH);
        let boot = match time {
            Ok(time) => u64::try_from(time.as_millis()).unwrap_or(u64::MAX),
            Err(_) => 0,
        };
        Ok(Sealing {
            key,
            text,
            from,
            boot,
            sent: [0; SEATS],
        })
    }

    /// The packet under the next seal to that seat. It fails for more than 74 bytes, or for a seat above 32, and then seals nothing.
    pub(crate) fn seal(&mut self, to: Rank, packet: &[u8]) -> io::Result<ArrayVec<u8, 128>>
        ensures sealed { IfOk result (λ bytes.
            bytes.items ≡ sealed_by self.old to.0 packet.now) }
        ensures next { OnOk result (self.new ≡ sealed_once self.old to.0) }
        ensures fits { OnOk result ((to.0 < 33) × (length packet.now ≤ 74)) }
        ensures unfit { OnErr result ((33 ≤ to.0) ⊎ (74 < length packet.now)) }
        ensures same { OnErr result (self.new ≡ self.old) }
    {
        if packet.len() > INNER {
            return Err(io::Error::new(ErrorKind::InvalidInput, "too long for a seal"));
        }
        let seat = usize::from(to.0);
        if seat >= SEATS {
            return Err(io::Error::new(ErrorKind::InvalidInput, "no such receiver"));
        }
        self.sent[seat] = self.sent[seat].saturating_add(1);
        let seal = Seal {
            from: self.from.0,
            to: to.0,
            boot: self.boot,
            number: self.sent[seat],
        };
        let mut sealed = ArrayVec::new();
        put_sealed(&self.key, &self.text, &seal, packet, &mut sealed);
        Ok(sealed)
    }
}
