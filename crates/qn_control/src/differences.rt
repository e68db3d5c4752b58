//! What Corosync does otherwise with settings that are taken here. COROSYNC.md has each difference in a table.
use crate::concerns::{device_votes, node_votes};
use crate::flags::is_written;
use crate::pairs::{Pair, Place};
use qn_model::Settings;
use std::alloc::{AllocError, Global};
use std::fmt;

/// What Corosync does otherwise with settings that are taken here.
#[derive(Clone, Copy)]
pub enum Difference {
    /// No `provider`: Corosync then counts no votes.
    NoProvider,
    /// A quorum above 255, of which Corosync keeps 8 bits.
    LargeQuorum,
    /// Corosync arms wait_for_all again at each loss of quorum; here a release lasts until the next boot.
    WaitAgain,
    /// Corosync releases where the votes are those expected; here a view of all nodes releases.
    WaitForVotes,
    /// Corosync counts the device's votes for a release; here they do not matter to it.
    WaitForDevice,
    /// Half of the nodes that boot alone: by the lowest or highest id Corosync's breaker needs a majority before.
    TieAtBoot,
    /// Corosync's breaker halves odd expected votes downwards; here no view has half of them.
    TieOfOdd,
    /// Corosync's breaker is off where the nodes' votes are odd and nothing waits for all nodes.
    TieOff,
    /// Corosync does not start with the same and last_man_standing.
    TieRefused,
    /// Corosync tries a list of tie nodes over the members before the last change; here over the last view of a majority.
    TieList,
    /// With the breaker Corosync's expected votes can go from two to one.
    TieAndLastMan,
    /// Corosync counts the window from a loss of nodes; here it begins at each view.
    LastManWindow,
    /// Corosync's node that joins takes over the expected votes of those that are quorate.
    LastManJoins,
    /// Corosync does not start: last_man_standing beside a device, which here counts for nothing then.
    LastManAndDevice,
    /// Corosync does not start: no votes of the device are written, where the nodes' differ or expected votes are written.
    DeviceWithoutVotes,
    /// Corosync's node that boots alone does not expect the device's votes, where they are written.
    DeviceNotExpected,
    /// `expected_votes_tracking`, which is passed over here.
    Tracking,
}

impl fmt::Display for Difference {
    fn fmt<W: fmt::Write>(&self, f: &mut fmt::Formatter<W>) -> fmt::Result {
        f.write_str(self.said())
    }
}

impl Difference {
    /// What is said of it.
    fn said(&self) -> &'static str {
        match self {
            Difference::NoProvider => "without a provider Corosync counts no votes",
            Difference::LargeQuorum => "Corosync keeps a quorum above 255 in 8 bits",
            Difference::WaitAgain => "Corosync arms wait_for_all again at each loss of quorum",
            Difference::WaitForVotes =>
                "Corosync's wait_for_all waits for the expected votes, and not for all nodes",
            Difference::WaitForDevice => "Corosync's wait_for_all waits for the device's votes too",
            Difference::TieAtBoot =>
                "Corosync's tie breaker is of no use to half of the nodes that boot alone",
            Difference::TieOfOdd => "Corosync's tie breaker halves odd expected votes downwards",
            Difference::TieOff =>
                "Corosync turns the tie breaker off: the votes are odd, and there is no wait_for_all",
            Difference::TieRefused =>
                "Corosync refuses the tie breaker with last_man_standing: the votes are odd, and there is no wait_for_all",
            Difference::TieList =>
                "Corosync tries a list of tie nodes over the members before the last change",
            Difference::TieAndLastMan =>
                "Corosync with a tie breaker lowers expected votes from 2 to 1",
            Difference::LastManWindow =>
                "Corosync's last_man_standing_window begins where nodes are lost, and not at each view",
            Difference::LastManJoins =>
                "Corosync gives a node that joins the expected votes of those that are quorate",
            Difference::LastManAndDevice => "Corosync refuses last_man_standing beside a device",
            Difference::DeviceWithoutVotes =>
                "Corosync refuses a device without votes, where the nodes' differ or beside expected_votes",
            Difference::DeviceNotExpected =>
                "Corosync's node that boots alone does not expect a device's written votes",
            Difference::Tracking => "expected_votes_tracking has no effect here",
        }
    }
}

/// What Corosync does otherwise with these settings, and with the pairs of their text.
pub fn differences_of(
    alloc: Global,
    settings: &Settings,
    pairs: &[Pair<'_>],
) -> Result<Vec<Difference>, AllocError> {
    let mut found = Vec::new(alloc);
    add_of_votes(&mut found, settings, pairs)?;
    add_of_waiting(&mut found, settings)?;
    add_of_tie(&mut found, settings, pairs)?;
    add_of_last_man(&mut found, settings)?;
    add_of_device(&mut found, settings, pairs)?;
    Ok(found)
}

fn add_of_votes(
    found: &mut Vec<Difference>,
    settings: &Settings,
    pairs: &[Pair<'_>],
) -> Result<(), AllocError> {
    if !is_written(pairs, "provider") {
        found.push(Difference::NoProvider)?;
    }
    if settings.quorum(settings.expected) > MOST_QUORUM {
        found.push(Difference::LargeQuorum)?;
    }
    if is_written(pairs, "expected_votes_tracking") {
        found.push(Difference::Tracking)?;
    }
    Ok(())
}

/// The greatest quorum that Corosync keeps whole.
const MOST_QUORUM: u64 = 255;

fn add_of_waiting(found: &mut Vec<Difference>, settings: &Settings) -> Result<(), AllocError> {
    if !settings.wait_for_all {
        return Ok(());
    }
    // with two_node a node alone has quorum, which so is never lost
    if !settings.two_node {
        found.push(Difference::WaitAgain)?;
    }
    if !waits_for_all_by_votes(settings) {
        found.push(Difference::WaitForVotes)?;
    }
    if settings.device.is_some() {
        found.push(Difference::WaitForDevice)?;
    }
    Ok(())
}

/// Whether the votes of a view are those expected exactly where it has all nodes.
fn waits_for_all_by_votes(settings: &Settings) -> bool {
    let nodes = settings.nodes.as_slice();
    let added = settings.expected.saturating_sub(device_votes(settings));
    node_votes(settings) == added && nodes.iter().all(|node| node.votes > 0)
}

fn add_of_tie(
    found: &mut Vec<Difference>,
    settings: &Settings,
    pairs: &[Pair<'_>],
) -> Result<(), AllocError> {
    if settings.tie.is_none() {
        return Ok(());
    }
    if is_tie_off(settings) {
        return Ok(found.push(if settings.last_man_standing {
            Difference::TieRefused
        } else {
            Difference::TieOff
        })?);
    }
    if has_tie_list(pairs) {
        found.push(Difference::TieList)?;
    } else if !settings.wait_for_all {
        found.push(Difference::TieAtBoot)?;
    }
    if settings.expected % 2 == 1 {
        found.push(Difference::TieOfOdd)?;
    }
    if settings.last_man_standing {
        found.push(Difference::TieAndLastMan)?;
    }
    Ok(())
}

/// Whether Corosync takes no tie breaker: the nodes' votes are odd, and nothing waits for all nodes.
fn is_tie_off(settings: &Settings) -> bool {
    node_votes(settings) % 2 == 1 && !settings.wait_for_all
}

/// Whether the tie nodes are a list of ids.
fn has_tie_list(pairs: &[Pair<'_>]) -> bool {
    match value_in_quorum(pairs, "auto_tie_breaker_node") {
        Some(value) => value != "lowest" && value != "highest",
        None => false,
    }
}

fn add_of_last_man(found: &mut Vec<Difference>, settings: &Settings) -> Result<(), AllocError> {
    if !settings.last_man_standing {
        return Ok(());
    }
    found.push(Difference::LastManWindow)?;
    found.push(Difference::LastManJoins)?;
    if settings.device.is_some() {
        found.push(Difference::LastManAndDevice)?;
    }
    Ok(())
}

fn add_of_device(
    found: &mut Vec<Difference>,
    settings: &Settings,
    pairs: &[Pair<'_>],
) -> Result<(), AllocError> {
    if settings.device.is_none() || settings.last_man_standing {
        return Ok(());
    }
    let is_expected = is_written(pairs, "expected_votes");
    if has_device_votes(pairs) {
        if !is_expected {
            found.push(Difference::DeviceNotExpected)?;
        }
    } else if is_expected || !are_votes_one(settings) {
        found.push(Difference::DeviceWithoutVotes)?;
    }
    Ok(())
}

/// Whether each node has one vote.
fn are_votes_one(settings: &Settings) -> bool {
    settings.nodes.as_slice().iter().all(|node| node.votes == 1)
}

/// Whether the device has a key `votes`.
fn has_device_votes(pairs: &[Pair<'_>]) -> bool {
    pairs
        .iter()
        .any(|pair| pair.place == Place::Device && pair.key == "votes")
}

/// The value of a key of `quorum` that counts: the last one.
fn value_in_quorum<'text>(pairs: &[Pair<'text>], key: &str) -> Option<&'text str> {
    pairs
        .iter()
        .filter(|pair| pair.place == Place::Quorum && pair.key == key)
        .last()
        .map(|pair| pair.value)
}
