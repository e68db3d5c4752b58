//! What is legal in a corosync.conf, and risky.
ghost use Rattle.std.specs.Prelude.{◌≡◌, ◌&&◌, not};

use crate::pairs::{Pair, Place};
use qn_model::Settings;
use std::alloc::{AllocError, Global};
use std::fmt;

/// What is risky in settings that are taken.
#[derive(Clone, Copy, Drop)]
pub enum Concern<'text> {
    /// last_man_standing without wait_for_all: votequorum(5) wants both.
    LastManWithoutWait,
    /// two_node without wait_for_all: after a boot of both each can start alone, and reset the other one.
    TwoNodeWithoutWait,
    /// two_node, and no node's reset waits longer than the other one's: cut apart, each resets the other one at once.
    TwoNodeAlike,
    /// Fewer votes are expected than there are: two parts of the cluster can be quorate.
    ExpectedBelow { expected: u64, votes: u64 },
    /// More votes are expected than there are.
    ExpectedAbove { expected: u64, votes: u64 },
    /// An even number of votes, and nothing that decides where the cluster falls into halves.
    EvenWithoutDecider { votes: u64 },
    /// A key of `quorum`, its device, `nodelist` or `node` that corosync.conf(5) and votequorum(5) do not have, which is passed over.
    UnknownKey { key: &'text str },
}

impl fmt::Display for Concern<'_> {
    fn fmt<W: fmt::Write>(&self, f: &mut fmt::Formatter<W>) -> fmt::Result {
        match self {
            Concern::LastManWithoutWait => f.write_str("last_man_standing without wait_for_all"),
            Concern::TwoNodeWithoutWait => f.write_str("two_node without wait_for_all"),
            Concern::TwoNodeAlike => f.write_str(
                "two nodes with equal fence_delays reset each other where the network is cut",
            ),
            Concern::ExpectedBelow { expected, votes } => of_votes(f, *expected, "below", *votes),
            Concern::ExpectedAbove { expected, votes } => of_votes(f, *expected, "above", *votes),
            Concern::EvenWithoutDecider { votes } => {
                write!(
                    f,
                    "{votes} votes can fall into halves: there is neither a device nor a tie breaker"
                )
            }
            Concern::UnknownKey { key } => write!(f, "the key {key:?} is not known"),
        }
    }
}

/// Writes that the expected votes are above or below those that there are.
fn of_votes<W: fmt::Write>(
    f: &mut fmt::Formatter<W>,
    expected: u64,
    side: &str,
    votes: u64,
) -> fmt::Result {
    write!(
        f,
        "expected_votes {expected} is {side} the {votes} votes that there are"
    )
}

/// The keys of a node that are known (corosync.conf(5), nodelist), and fence_delay, standby and location_score of this project's profile.
const NODE_KEYS: &[&str] = &[
    "nodeid",
    "name",
    "quorum_votes",
    "fence_delay",
    "standby",
    "location_score",
    "ring0_addr",
    "ring1_addr",
    "ring2_addr",
    "ring3_addr",
    "ring4_addr",
    "ring5_addr",
    "ring6_addr",
    "ring7_addr",
];

/// The keys of `quorum` that are known (votequorum(5)).
const QUORUM_KEYS: &[&str] = &[
    "provider",
    "expected_votes",
    "two_node",
    "wait_for_all",
    "last_man_standing",
    "last_man_standing_window",
    "auto_tie_breaker",
    "auto_tie_breaker_node",
    "allow_downscale",
    "expected_votes_tracking",
];

/// The keys of a device that are known (corosync-qdevice(8)).
const DEVICE_KEYS: &[&str] = &["model", "timeout", "sync_timeout", "votes"];

/// What is risky in these settings, and in the pairs of their text.
pub fn concerns_of<'text>(
    alloc: Global,
    settings: &Settings,
    pairs: &[Pair<'text>],
) -> Result<Vec<Concern<'text>>, AllocError> {
    let mut concerns = Vec::new(alloc);
    add_concerns(&mut concerns, settings, pairs)?;
    Ok(concerns)
}

fn add_concerns<'text>(
    concerns: &mut Vec<Concern<'text>>,
    settings: &Settings,
    pairs: &[Pair<'text>],
) -> Result<(), AllocError> {
    if has_last_man_without_wait(settings) {
        concerns.push(Concern::LastManWithoutWait)?;
    }
    if has_two_node_without_wait(settings) {
        concerns.push(Concern::TwoNodeWithoutWait)?;
    }
    if has_two_node_alike(settings) {
        concerns.push(Concern::TwoNodeAlike)?;
    }
    if let Some(concern) = of_expected(settings) {
        concerns.push(concern)?;
    }
    if let Some(concern) = of_halves(settings) {
        concerns.push(concern)?;
    }
    for pair in pairs {
        if !is_known(pair.place, pair.key) {
            concerns.push(Concern::UnknownKey { key: pair.key })?;
        }
    }
    Ok(())
}

/// What is risky in the expected votes: they are not those that there are.
fn of_expected<'text>(settings: &Settings) -> Option<Concern<'text>> {
    let expected = settings.expected;
    let votes = node_votes(settings).saturating_add(device_votes(settings));
    if expected < votes {
        Some(Concern::ExpectedBelow { expected, votes })
    } else if expected > votes {
        Some(Concern::ExpectedAbove { expected, votes })
    } else {
        None
    }
}

/// What is risky in the votes of the nodes: they can fall into halves.
fn of_halves<'text>(settings: &Settings) -> Option<Concern<'text>> {
    let votes = node_votes(settings);
    if votes % 2 == 0 && has_no_decider(settings) {
        Some(Concern::EvenWithoutDecider { votes })
    } else {
        None
    }
}

fn has_last_man_without_wait(settings: &Settings) -> bool
    ensures { result ≡ (settings.now.last_man_standing && not settings.now.wait_for_all) }
{
    settings.last_man_standing && !settings.wait_for_all
}

fn has_two_node_without_wait(settings: &Settings) -> bool
    ensures { result ≡ (settings.now.two_node && not settings.now.wait_for_all) }
{
    settings.two_node && !settings.wait_for_all
}

/// Whether two nodes are each quorate alone, and neither one's reset waits for longer than the other one's.
fn has_two_node_alike(settings: &Settings) -> bool {
    match settings.nodes.as_slice() {
        [first, second] => settings.two_node && first.fence_delay == second.fence_delay,
        _ => false,
    }
}

/// Whether nothing decides between halves of equal votes.
fn has_no_decider(settings: &Settings) -> bool {
    !settings.two_node && settings.device.is_none() && settings.tie.is_none()
}

/// The votes of all nodes.
pub(crate) fn node_votes(settings: &Settings) -> u64 {
    let mut votes = 0u64;
    for node in settings.nodes.as_slice() {
        votes = votes.saturating_add(u64::from(node.votes));
    }
    votes
}

/// The votes of the device that count: with last_man_standing it counts for nothing.
pub(crate) fn device_votes(settings: &Settings) -> u64 {
    match settings.device {
        Some(device) if !settings.last_man_standing => u64::from(device.votes),
        _ => 0,
    }
}

/// Whether a key is known where it stands.
fn is_known(place: Place, key: &str) -> bool {
    match place {
        Place::NodeList => false,
        Place::Node(_) => NODE_KEYS.iter().any(|known| *known == key),
        Place::Quorum => QUORUM_KEYS.iter().any(|known| *known == key),
        Place::Device => DEVICE_KEYS.iter().any(|known| *known == key),
        Place::Net | Place::Elsewhere => true,
    }
}
