//! The trait of a node's outside: disk, network, clock, watchdog and resource.
ghost use Rattle.std.specs.Prelude.{◌≡◌, ℕ, ◌<◌, ◌≤◌, [], ◌∷◌, List, Option, true, false, OnOk, OnErr, is_ok, length};
ghost use Rattle.qn_base.specs.declared.calls.Call.{Call};
ghost use Rattle.qn_base.specs.declared.calls.Call.TheVariants.{OpenImage, Now, Receive, Read, Write, Feed, Start, Stop, Send, Disarm, Halt};
ghost use Rattle.qn_base.specs.Plans.{Made};
ghost use Rattle.qn_io.specs.Receives.{FitsPacket, received};

use qn_base::{Bytes, Failed, Rank, Received};

/// The bytes of one sector of an image.
pub const SECTOR: usize = 512;

/// How many sectors an image may have.
pub const SECTORS: u32 = 3072;

/// The most bytes that are taken of one packet.
pub const PACKET: usize = 129;

/// The most bytes of a packet that is sent.
pub const SENT_PACKET: usize = 128;

/// What a running node opens: how many images it has, 1 or 3, the path of its image, or those of its three
/// images with a comma between each two, the paths of its watchdog and of its resource, and the first port of
/// the cluster with its own rank, which together give the port that it listens at.
#[derive(Clone, Copy)]
pub struct Opening<'a> {
    pub images: u8,
    pub image: &'a str,
    pub watchdog: &'a str,
    pub resource: &'a str,
    pub port: u16,
    pub rank: Rank,
}

/// What [`Env::receive`] gave.
#[derive(Clone, Copy, PartialEq, Eq)]
pub enum Got {
    /// A packet of that many bytes, 0 to 129, at the beginning of the buffer.
    Packet(usize),
    /// No packet came.
    Nothing,
    /// The call failed.
    Failed,
}

impl Got {
    ghost use Rattle.std.specs.Prelude.{◌≡◌};
    ghost use Rattle.qn_io.specs.Receives.{FitsPacket, received};

    /// What was received, as it is told: the bytes of a packet are at the beginning of the buffer.
    pub fn told(self, packet: &[u8; PACKET]) -> Received
        requires { FitsPacket self }
        ensures { result ≡ received self packet.now }
    {
        match self {
            Got::Packet(length) => Received::Packet(Bytes::new(&packet[..length])),
            Got::Nothing => Received::Nothing,
            Got::Failed => Received::Failed,
        }
    }
}

/// The outside of a node: its image, its watchdog, its resource, the network and a clock.
///
/// `faults` is the number of failures so far, which never falls and stops at the greatest u64. `calls`
/// is the list of all calls so far with their answers, of an outside that tells it. A call answers
/// `Failed` only where the count of faults rose.
pub trait Env {
    ghost use Rattle.qn_io.specs.Openings.{node_opening};

    ghost faults: { Self → ℕ };

    ghost calls: { Self → Option (List Call) };

    /// What more of an outside a call shows, by the outside before it and after it: nothing, where an outside says no more.
    ghost shows: { Self → Self → Call → Type 0 } = { λ _ _ _. Unit {0} };

    /// Opens an image for reading and writing.
    fn open_image(&mut self, path: &str) -> Result<(), Failed>
        ensures { Made (faults self.old) (faults self.new) (calls self.old) (calls self.new)
            (OpenImage path.now (is_ok result) ∷ []) };

    /// Opens all that a running node uses.
    fn open_node(&mut self, opening: &Opening<'_>) -> Result<(), Failed>
        ensures { Made (faults self.old) (faults self.new) (calls self.old) (calls self.new)
            (node_opening opening.now (is_ok result) ∷ []) };

    /// The time in milliseconds, from any start.
    fn now(&mut self) -> u64
        ensures made { Made (faults self.old) (faults self.new) (calls self.old) (calls self.new)
            (Now result ∷ []) }
        ensures shows { shows self.old self.new (Now result) };

    /// Takes a packet that came, if one does within a short while, and puts it at the beginning of
    /// `packet`. Of a longer packet the first 129 bytes are taken.
    fn receive(&mut self, packet: &mut [u8; PACKET]) -> Got
        ensures within { FitsPacket result }
        ensures made { Made (faults self.old) (faults self.new) (calls self.old) (calls self.new)
            (Receive (received result packet.new) ∷ []) }
        ensures shows { shows self.old self.new (Receive (received result packet.new)) };

    /// Reads a sector of the image.
    fn read(&mut self, sector: u32, into: &mut [u8; SECTOR]) -> Result<(), Failed>
        requires { sector < 3072 }
        ensures ok { OnOk result
            (Made (faults self.old) (faults self.new) (calls self.old) (calls self.new)
            (Read sector into.new true ∷ [])) }
        ensures failed { OnErr result
            (Made (faults self.old) (faults self.new) (calls self.old) (calls self.new)
            (Read sector [] false ∷ [])) }
        ensures shows_bytes { OnOk result (shows self.old self.new (Read sector into.new true)) }
        ensures shows_failed { OnErr result (shows self.old self.new (Read sector [] false)) };

    /// Writes a sector of the image. At `Ok` the bytes last.
    fn write(&mut self, sector: u32, from: &[u8; SECTOR]) -> Result<(), Failed>
        requires { sector < 3072 }
        ensures made { Made (faults self.old) (faults self.new) (calls self.old) (calls self.new)
            (Write sector from.now (is_ok result) ∷ []) }
        ensures shows { shows self.old self.new (Write sector from.now (is_ok result)) };

    /// Feeds the watchdog.
    fn feed(&mut self) -> Result<(), Failed>
        ensures made { Made (faults self.old) (faults self.new) (calls self.old) (calls self.new)
            (Feed (is_ok result) ∷ []) }
        ensures shows { shows self.old self.new (Feed (is_ok result)) };

    /// Starts the resource.
    fn start(&mut self) -> Result<(), Failed>
        ensures made { Made (faults self.old) (faults self.new) (calls self.old) (calls self.new)
            (Start (is_ok result) ∷ []) }
        ensures shows { shows self.old self.new (Start (is_ok result)) };

    /// Stops the resource.
    fn stop(&mut self) -> Result<(), Failed>
        ensures made { Made (faults self.old) (faults self.new) (calls self.old) (calls self.new)
            (Stop (is_ok result) ∷ []) }
        ensures shows { shows self.old self.new (Stop (is_ok result)) };

    /// Sends a packet to the node of that rank.
    fn send(&mut self, to: Rank, bytes: &[u8]) -> Result<(), Failed>
        requires { length bytes.now ≤ 128 }
        ensures made { Made (faults self.old) (faults self.new) (calls self.old) (calls self.new)
            (Send to bytes.now (is_ok result) ∷ []) }
        ensures shows { shows self.old self.new (Send to bytes.now (is_ok result)) };

    /// Disarms the watchdog.
    fn disarm(&mut self) -> Result<(), Failed>
        ensures made { Made (faults self.old) (faults self.new) (calls self.old) (calls self.new)
            (Disarm (is_ok result) ∷ []) }
        ensures shows { shows self.old self.new (Disarm (is_ok result)) };

    /// Ends the node with that code.
    fn halt(&mut self, code: u8)
        ensures made { Made (faults self.old) (faults self.new) (calls self.old) (calls self.new)
            (Halt code ∷ []) }
        ensures shows { shows self.old self.new (Halt code) };
}
