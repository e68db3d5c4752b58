//! What a running node says of itself: the words of its own host, and whether it holds.
ghost use Rattle.std.specs.Prelude.{◌≡◌};
ghost use Rattle.qn_io.specs.Receives.{FitsPacket, received};
ghost use Rattle.qn_live.specs.Words.{asks_to_hold, goes_on_pulling, word_in, word_of};

use qn_base::Standing;
use qn_io::{Got, PACKET};

/// The kind of a word of the node's own host, of which no packet of a network is.
const WORD: u8 = 13;

/// For how many loops a node asks for the resource at most.
const LOOPS: u64 = 60;

/// What the host of a node says of it. At first it says nothing: no flags, and weight 0.
#[derive(Clone, Copy)]
pub struct Words {
    /// The last word: flags (1 barred, 2 unfit, 4 asks for the resource) and weight, 0 to 255.
    pub said: Standing,
    /// The tick since which the node asks for the resource, in milliseconds, while it does.
    pub pulls_since: Option<u64>,
}

/// What a node says of itself at a look of its view maker.
#[derive(Clone, Copy)]
pub struct Own {
    /// By the words of its host.
    pub said: Standing,
    /// Whether it holds the resource.
    pub holds: bool,
}

/// The word of the node's own host that came, if one did: `QN`, its kind, flags below 8, and a weight.
pub fn word_in(got: Got, packet: &[u8; PACKET]) -> Option<Standing>
    requires { FitsPacket got }
    ensures { result ≡ word_in (received got packet.now) }
{
    match got {
        Got::Packet(length) => word_of(&packet[..length]),
        Got::Nothing | Got::Failed => None,
    }
}

fn word_of(bytes: &[u8]) -> Option<Standing>
    ensures { result ≡ word_of bytes.now }
{
    match bytes {
        [b'Q', b'N', WORD, flags, weight] if *flags < 8 => Some(Standing {
            flags: *flags,
            weight: *weight,
        }),
        _ => None,
    }
}

/// Whether a word asks for the resource.
fn asks_to_hold(said: Standing) -> bool
    ensures { result ≡ asks_to_hold said }
{
    said.flags >> 2 & 1 == 1
}

impl Words {
    ghost use Rattle.std.specs.Prelude.{◌≡◌, option_and_then};
    ghost use Rattle.qn_base.specs.declared.calls.Received.{Received};
    ghost use Rattle.qn_live.specs.Words.{no_words, own_by, pulls_after, standing_by, word_in, words_after, words_at};

    /// Those of a host that has said nothing.
    pub fn none() -> Self
        ensures { result ≡ no_words }
    {
        Words {
            said: Standing {
                flags: 0,
                weight: 0,
            },
            pulls_since: None,
        }
    }

    /// The words after this word came at a tick, or none.
    pub fn after(self, tick: u64, word: Option<Standing>) -> Self
        ensures { (got : Received) → word ≡ word_in got → result ≡ words_after tick got self }
    {
        match word {
            Some(said) => Words {
                said,
                pulls_since: self.pulls_after(tick, said),
            },
            None => self,
        }
    }

    fn pulls_after(self, tick: u64, said: Standing) -> Option<u64>
        ensures { result ≡ pulls_after tick self said }
    {
        if !asks_to_hold(said) {
            None
        } else if asks_to_hold(self.said) {
            self.pulls_since
        } else {
            Some(tick)
        }
    }

    /// The words at a tick: the node asks for the resource until it holds, and for sixty loops at most.
    pub fn at(self, tick: u64, loop_ms: u64, holds: bool) -> Self
        ensures { result ≡ words_at tick loop_ms holds self }
    {
        Words {
            said: self.said,
            pulls_since: self.pulls_at(tick, loop_ms, holds),
        }
    }

    fn pulls_at(self, tick: u64, loop_ms: u64, holds: bool) -> Option<u64>
        ensures { result ≡ option_and_then (goes_on_pulling tick loop_ms holds) self.pulls_since }
    {
        let since = self.pulls_since?;
        if holds || tick >= since && (tick - since) / LOOPS >= loop_ms {
            None
        } else {
            Some(since)
        }
    }

    /// What the node says by these words.
    fn standing(self) -> Standing
        ensures { result ≡ standing_by self }
    {
        let pulls = if self.pulls_since.is_some() { 4 } else { 0 };
        Standing {
            flags: self.said.flags % 4 + pulls,
            weight: self.said.weight,
        }
    }

    /// What the node says of itself, by whether it holds.
    pub fn own(self, holds: bool) -> Own
        ensures { result ≡ own_by self holds }
    {
        Own {
            said: self.standing(),
            holds,
        }
    }
}
