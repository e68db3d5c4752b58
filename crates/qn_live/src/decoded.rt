//! What the bytes of an answer are, decoded once: for the node, and for whoever is told of its calls.
ghost use Rattle.std.specs.Prelude.{◌≡◌};
ghost use Rattle.qn_io.specs.Receives.{FitsPacket, received};
ghost use Rattle.qn_live.specs.Decoding.{came_in};

use crate::choosing::{is_request, packet_in, reply_in};
use crate::words::word_in;
use qn_base::Standing;
use qn_io::{Got, PACKET};
use qn_model::{Mail, Packet};
use qn_safety::Reply;

/// What came where a packet is received: at most one of the four is there, and none of them where nothing came, or bytes that are nothing
/// of these.
#[derive(Clone, Copy)]
pub struct Came {
    /// The packet of a node, or the vote of the quorum device.
    pub packet: Option<Packet>,
    /// The reply of an arbiter.
    pub reply: Option<Reply>,
    /// Whether the host of the node asks it to leave.
    pub is_request: bool,
    /// What the host of the node says of it.
    pub word: Option<Standing>,
}

/// What the bytes of an answer are.
#[derive(Clone, Copy)]
pub enum Decoded {
    /// The call failed, or gave no bytes, or those of a slot.
    Nothing,
    /// What was received.
    Came(Came),
    /// The first sector of an image was read: whether it is a header.
    Header { is_one: bool },
    /// The mailbox of the node was read: what it holds, where it is one.
    Mailbox(Option<Mail>),
}

/// What came.
pub fn came_in(got: Got, packet: &[u8; PACKET]) -> Came
    requires { FitsPacket got }
    ensures { result ≡ came_in (received got packet.now) }
{
    Came {
        packet: packet_in(got, packet),
        reply: reply_in(got, packet),
        is_request: is_request(got, packet),
        word: word_in(got, packet),
    }
}
