//! A packet that is handed to a node.
ghost use Rattle.std.specs.Prelude.{◌≡◌, ◌+◌, ◌++◌, ◌≤◌, length};
ghost use Rattle.arrayvec.specs.ArrayVec.{array_vec_len};

use crate::admission::{is_request, is_word};
use arrayvec::ArrayVec;
use qn_io::PACKET;
use std::marker::Model;

/// A packet that is handed to a node, of at most 129 bytes. Nothing makes one but `Admission`, of a datagram, and `Admitted::of_host`, of what the
/// node's own host says to it.
#[derive(Drop)]
pub struct Admitted {
    bytes: ArrayVec<u8, PACKET>,
}

impl Model for Admitted {
    ghost use Rattle.std.specs.Prelude.{ℕ, List};

    ghost Value = { List ℕ };

    ghost view = { λ packet. packet.bytes.items };
}

impl Admitted {
    ghost use Rattle.std.specs.Prelude.{◌≡◌, ◌≤◌, ◌||◌, IfSome, is_some, length, take};
    ghost use Rattle.qn_peers.specs.Admission.{front_of, is_request, is_word};

    /// The first 129 of these bytes.
    pub(crate) fn of(bytes: &[u8]) -> Admitted
        ensures { result ≡ front_of bytes.now }
    {
        let count = PACKET.min(bytes.len());
        let mut kept = ArrayVec::new();
        add(&mut kept, &bytes[..count]);
        Admitted { bytes: kept }
    }

    /// These bytes, where they are what this host says to its own node: a request that it is to leave, or a word of it.
    pub fn of_host(bytes: &[u8]) -> Option<Admitted>
        ensures its { IfSome result (λ packet. packet ≡ front_of bytes.now) }
        ensures only { is_some result ≡ (is_request bytes.now || is_word bytes.now) }
    {
        if is_request(bytes) || is_word(bytes) {
            Some(Admitted::of(bytes))
        } else {
            None
        }
    }

    /// Its bytes.
    pub fn as_slice(&self) -> &[u8]
        ensures value { result.now ≡ self.now }
        ensures fits { length result.now ≤ 129 }
    {
        self.bytes.as_slice()
    }

    /// Puts it at the beginning of the buffer, and gives how many bytes it has.
    pub fn put(&self, packet: &mut [u8; PACKET]) -> usize
        ensures within { result ≤ 129 }
        ensures length { result ≡ length self.now }
        ensures put { take result packet.new ≡ self.now }
    {
        let bytes = self.as_slice();
        packet[..bytes.len()].copy_from_slice(bytes);
        bytes.len()
    }
}

/// Adds bytes at the end.
fn add(kept: &mut ArrayVec<u8, PACKET>, bytes: &[u8])
    requires { array_vec_len kept.old + length bytes.now ≤ 129 }
    ensures { kept.new.items ≡ kept.old.items ++ bytes.now }
{
    let _ = kept.try_extend_from_slice(bytes);
}
