//! The entry that a packet is to its receiver.
ghost use Rattle.std.specs.Prelude.{◌≡◌};
ghost use Rattle.qn_model.specs.Steps.{entry_of};

use qn_model::{Packet, What};

/// The entry that a packet is to its receiver.
pub fn entry_of(packet: Packet) -> What
    ensures { result ≡ entry_of packet }
{
    match packet {
        Packet::Ask(ask) => What::Ask(ask),
        Packet::Tell(tell) => What::Tell(tell),
        Packet::Hello { .. } | Packet::Announce { .. } | Packet::Heard { .. } => What::Tick,
        Packet::Vote { yes } => What::Device(yes),
    }
}
