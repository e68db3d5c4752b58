//! What the outputs of a node are to the cluster: packets that are sent, and its end.
ghost use Rattle.std.specs.Prelude.{◌≡◌, ◌+◌, ◌++◌, ◌↔◌, [], ℕ, IsFalse, length, option_to_list};
ghost use Rattle.qn_model.specs.Moments.{is_gone, packets_of};
ghost use Rattle.qn_cluster.specs.Outputs.{packet_in};
ghost use Rattle.qn_cluster.specs.Packets.{HasRoomFor, sents};

use crate::packets::Packets;
use qn_model::{Out, Phase, Sent};

/// The most outputs of one entry, and so the most packets that one sends.
pub(crate) const MOST_OUTPUTS: usize = 40;

/// Adds the packets among the outputs, in order, to a list that has room for them.
pub(crate) fn send_all(packets: &mut Packets, outs: &[Out])
    requires { HasRoomFor (length outs.now) packets.old }
    ensures { sents packets.new ≡ sents packets.old ++ packets_of outs.now }
{
    for out in outs {
        send(packets, *out);
    }
}

/// Adds the packet that an output sends, if it sends one, to a list that has room for it.
fn send(packets: &mut Packets, out: Out)
    requires { HasRoomFor 1 packets.old }
    ensures items { sents packets.new ≡ sents packets.old ++ option_to_list (packet_in out) }
    ensures room { (n : ℕ) → HasRoomFor (n + 1) packets.old → HasRoomFor n packets.new }
{
    if let Some(sent) = packet_in(out) {
        packets.push_reserved(sent);
    }
}

/// Whether a packet is among the outputs.
pub(crate) fn sends(outs: &[Out]) -> bool
    ensures { IsFalse result ↔ (packets_of outs.now ≡ []) }
{
    for out in outs {
        if packet_in(*out).is_some() {
            return true;
        }
    }
    false
}

/// Whether a node has ended.
pub(crate) fn is_gone(phase: Phase) -> bool
    ensures { result ≡ is_gone phase }
{
    matches!(phase, Phase::Gone)
}

fn packet_in(out: Out) -> Option<Sent>
    ensures { result ≡ packet_in out }
{
    match out {
        Out::Send(to, packet) => Some(Sent { to, packet }),
        _ => None,
    }
}
