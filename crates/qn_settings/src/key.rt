//! The keys that are read, and the range of each number.
ghost use Rattle.std.specs.Prelude.{◌≡◌, ◌≤◌, IfSome, is_some};
ghost use Rattle.qn_settings.specs.Keys.{key_name, number_in, range_of};

use qn_base::{LONGEST_PERIOD, read_decimal};
use std::fmt;

/// The keys that are read, in the order of their sections `nodelist.node`, `quorum` and `quorum.device`
/// (corosync.conf(5)).
#[derive(Clone, Copy, PartialEq, Eq, Debug)]
pub enum Key {
    NodeId,
    QuorumVotes,
    FenceDelay,
    Provider,
    ExpectedVotes,
    TwoNode,
    WaitForAll,
    LastManStanding,
    LastManStandingWindow,
    AutoTieBreaker,
    AutoTieBreakerNode,
    AllowDownscale,
    Model,
    Votes,
    Timeout,
}

impl Key {
    /// The name of the key in the settings text.
    pub fn name(self) -> &'static str
        ensures { result.now ≡ key_name self }
    {
        match self {
            Key::NodeId => "nodeid",
            Key::QuorumVotes => "quorum_votes",
            Key::FenceDelay => "fence_delay",
            Key::Provider => "provider",
            Key::ExpectedVotes => "expected_votes",
            Key::TwoNode => "two_node",
            Key::WaitForAll => "wait_for_all",
            Key::LastManStanding => "last_man_standing",
            Key::LastManStandingWindow => "last_man_standing_window",
            Key::AutoTieBreaker => "auto_tie_breaker",
            Key::AutoTieBreakerNode => "auto_tie_breaker_node",
            Key::AllowDownscale => "allow_downscale",
            Key::Model => "model",
            Key::Votes => "votes",
            Key::Timeout => "timeout",
        }
    }

    /// The least and the greatest number that the key may have, where it has a number.
    fn range(self) -> Option<(u64, u64)>
        ensures { result ≡ range_of self }
    {
        match self {
            Key::NodeId => Some((1, 4_294_967_295)),
            Key::QuorumVotes | Key::Votes => Some((0, 65_535)),
            Key::FenceDelay => Some((0, LONGEST_PERIOD)),
            Key::ExpectedVotes => Some((0, 1_000_000)),
            Key::TwoNode | Key::WaitForAll | Key::LastManStanding | Key::AutoTieBreaker => {
                Some((0, 1))
            }
            Key::LastManStandingWindow | Key::Timeout => Some((1, LONGEST_PERIOD)),
            Key::Provider | Key::AutoTieBreakerNode | Key::AllowDownscale | Key::Model => None,
        }
    }

    /// The number that the text spells, where it is in the range of the key.
    #[tactic(auto, unfolding(crate::specs::Keys::number_in))]
    pub(crate) fn number(self, text: &[u8]) -> Option<u64>
        ensures value { result ≡ number_in self text.now }
        ensures fits { IfSome result (λ number. number ≤ 4294967295) }
    {
        let (least, greatest) = self.range()?;
        let number = read_decimal(text)?;
        if number < least || number > greatest {
            return None;
        }
        Some(number)
    }

    /// Whether the key has a number in a range.
    pub(crate) fn has_range(self) -> bool
        ensures { result ≡ is_some (range_of self) }
    {
        self.range().is_some()
    }
}

impl fmt::Display for Key {
    fn fmt<W: fmt::Write>(&self, f: &mut fmt::Formatter<W>) -> fmt::Result {
        f.write_str(self.name())
    }
}
