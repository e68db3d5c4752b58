//! The public call: the settings of a tree, or its first fault.
ghost use Rattle.std.specs.Prelude.{◌≡◌, ◌↔◌, ◌≤◌, None, Some, Err, All, IfOk, IsOk, length, find, not, option_map};
ghost use Rattle.std.specs.List.{list_all};
ghost use Rattle.qn_model.specs.Settings.{IsValid};
ghost use Rattle.qn_settings.specs.Answer.{answer_of, bad_tie_node, device_of, device_votes, expected_zero, fault_of, filled, has_one_vote, last_man_votes, settings_of, tie_device, tie_two_node, two_node_count, two_node_device, two_node_votes, value_faults, vote_faults, wait_for_all_of};
ghost use Rattle.qn_settings.specs.Entries.{entries_of};
ghost use Rattle.qn_settings.specs.Values.{first_some};
ghost use Rattle.qn_settings.specs.declared.faults.SettingsFault.{SettingsFault};

use crate::faults::SettingsFault;
use crate::key::Key;
use crate::nodes::{all_votes, read_nodes};
use crate::tie_order::tie_order;
use crate::values::{bad_number, flag, has_device, number, unsupported, wrong_provider};
use qn_conf::Tree;
use qn_model::{Device, NodeEntry, Nodes, Settings};

/// The window of last man standing in milliseconds, where none is written.
const DEFAULT_WINDOW: u64 = 10_000;

/// The timeout of the device in milliseconds, where none is written.
const DEFAULT_TIMEOUT: u64 = 10_000;

/// The settings that a tree gives, or its first fault in the order of `SettingsFault`. Each key counts as the last
/// pair of its path, and what is absent is filled in (corosync.conf(5), votequorum(5)). It takes no memory.
pub fn settings(tree: &Tree) -> Result<Settings, SettingsFault>
    ensures ok { IsOk result ↔ (fault_of tree.now ≡ None) }
    ensures settings { IfOk result (λ settings. settings ≡ settings_of tree.now) }
    ensures valid { IfOk result IsValid }
    ensures fault { (fault : SettingsFault)
        → (result ≡ Err fault) ↔ (fault_of tree.now ≡ Some fault) }
    ensures answer { result ≡ answer_of tree.now }
{
    if let Some(fault) = value_fault(tree) {
        return Err(fault);
    }
    let nodes = read_nodes(tree)?;
    let settings = fill(tree, nodes);
    match vote_fault(tree, &settings) {
        Some(fault) => Err(fault),
        None => Ok(settings),
    }
}

/// The first fault of the words and numbers.
fn value_fault(tree: &Tree) -> Option<SettingsFault>
    ensures { result ≡ first_some (value_faults (entries_of tree.now)) }
{
    first_some(&[
        wrong_provider(tree),
        unsupported(tree, Key::AllowDownscale),
        bad_number(tree),
    ])
}

/// The first fault that is there.
fn first_some(faults: &[Option<SettingsFault>]) -> Option<SettingsFault>
    ensures { result ≡ first_some faults.now }
{
    let mut rest = faults;
    while let [fault, others @ ..] = rest {
        if fault.is_some() {
            return *fault;
        }
        rest = others;
    }
    None
}

/// The settings with these nodes.
fn fill(tree: &Tree, nodes: Nodes) -> Settings
    requires few { length nodes ≤ 32 }
    requires votes { All (λ n. n.votes ≤ 65535) nodes }
    ensures { result ≡ filled nodes (entries_of tree.now) }
{
    let node_votes = all_votes(nodes.as_slice());
    let last_man_standing = flag(tree, Key::LastManStanding);
    let device = device(tree, node_votes);
    let device_votes = device_votes(last_man_standing, device);
    let tie = tie_order(tree, &nodes);
    Settings {
        nodes,
        two_node: flag(tree, Key::TwoNode),
        wait_for_all: wait_for_all(tree),
        last_man_standing,
        window: number(tree, Key::LastManStandingWindow).unwrap_or(DEFAULT_WINDOW),
        device,
        expected: number(tree, Key::ExpectedVotes).unwrap_or(node_votes + device_votes),
        tie,
    }
}

/// As written, and else on with two_node (votequorum(5), `wait_for_all`).
fn wait_for_all(tree: &Tree) -> bool
    ensures { result ≡ wait_for_all_of (entries_of tree.now) }
{
    match number(tree, Key::WaitForAll) {
        Some(value) => value == 1,
        None => flag(tree, Key::TwoNode),
    }
}

/// The device beside nodes that have so many votes together.
fn device(tree: &Tree, node_votes: u64) -> Option<Device>
    requires { node_votes ≤ 2097120 }
    ensures { result ≡ device_of node_votes (entries_of tree.now) }
{
    if !has_device(tree) {
        return None;
    }
    Some(Device {
        votes: number(tree, Key::Votes).unwrap_or(node_votes.saturating_sub(1)) as u32,
        timeout: number(tree, Key::Timeout).unwrap_or(DEFAULT_TIMEOUT),
    })
}

/// The votes of the device that count at the start: none with last man standing (this project's profile).
fn device_votes(last_man_standing: bool, device: Option<Device>) -> u64
    ensures value { result ≡ device_votes last_man_standing device }
    ensures fits { result ≤ 4294967295 }
{
    match device {
        Some(device) if !last_man_standing => u64::from(device.votes),
        _ => 0,
    }
}

/// The first fault of settings as a whole.
fn vote_fault(tree: &Tree, settings: &Settings) -> Option<SettingsFault>
    ensures { result ≡ first_some (vote_faults settings.now (entries_of tree.now)) }
{
    first_some(&[
        expected_zero(tree),
        two_node_count(settings),
        two_node_votes(settings),
        two_node_device(settings),
        last_man_votes(settings),
        tie_device(tree, settings),
        tie_two_node(tree, settings),
        bad_tie_node(tree, settings),
    ])
}

fn expected_zero(tree: &Tree) -> Option<SettingsFault>
    ensures { result ≡ expected_zero (entries_of tree.now) }
{
    let expected = number(tree, Key::ExpectedVotes)?;
    if expected != 0 {
        return None;
    }
    Some(SettingsFault::ExpectedZero)
}

/// two_node stands only with exactly two nodes (votequorum(5), `two_node`).
fn two_node_count(settings: &Settings) -> Option<SettingsFault>
    ensures { result ≡ two_node_count settings.now }
{
    (settings.two_node && settings.nodes.len() != 2).then_some(SettingsFault::TwoNodeCount)
}

/// two_node stands only with one vote a node (votequorum(5), `two_node`).
fn two_node_votes(settings: &Settings) -> Option<SettingsFault>
    ensures { result ≡ two_node_votes settings.now }
{
    (settings.two_node && !all_have_one_vote(settings.nodes.as_slice())).then_some(
        SettingsFault::TwoNodeVotes,
    )
}

/// two_node stands only without a device (this project's profile).
fn two_node_device(settings: &Settings) -> Option<SettingsFault>
    ensures { result ≡ two_node_device settings.now }
{
    (settings.two_node && settings.device.is_some()).then_some(SettingsFault::TwoNodeDevice)
}

/// last_man_standing stands only with one vote a node (votequorum(5), `last_man_standing`).
fn last_man_votes(settings: &Settings) -> Option<SettingsFault>
    ensures { result ≡ last_man_votes settings.now }
{
    if !settings.last_man_standing {
        return None;
    }
    let node = first_without_one_vote(settings.nodes.as_slice())?;
    Some(SettingsFault::LmsVotes { id: node.id })
}

/// The breaker stands only without a device (this project's profile).
fn tie_device(tree: &Tree, settings: &Settings) -> Option<SettingsFault>
    ensures { result ≡ tie_device settings.now (entries_of tree.now) }
{
    (flag(tree, Key::AutoTieBreaker) && settings.device.is_some()).then_some(
        SettingsFault::TieDevice,
    )
}

/// The breaker stands only without two_node (this project's profile).
fn tie_two_node(tree: &Tree, settings: &Settings) -> Option<SettingsFault>
    ensures { result ≡ tie_two_node settings.now (entries_of tree.now) }
{
    (flag(tree, Key::AutoTieBreaker) && settings.two_node).then_some(SettingsFault::TieTwoNode)
}

/// The breaker stands only with an order of preference (votequorum(5), `auto_tie_breaker_node`).
fn bad_tie_node(tree: &Tree, settings: &Settings) -> Option<SettingsFault>
    ensures { result ≡ bad_tie_node settings.now (entries_of tree.now) }
{
    (flag(tree, Key::AutoTieBreaker) && settings.tie.is_none()).then_some(SettingsFault::BadTieNode)
}

fn all_have_one_vote(nodes: &[NodeEntry]) -> bool
    ensures { result ≡ list_all has_one_vote nodes.now }
{
    nodes.iter().all(|node| node.votes == 1)
}

fn first_without_one_vote(nodes: &[NodeEntry]) -> Option<NodeEntry>
    ensures { result ≡ find (λ node. not (has_one_vote node)) nodes.now }
{
    nodes.iter().copied().find(|node| node.votes != 1)
}
