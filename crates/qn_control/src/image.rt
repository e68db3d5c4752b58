//! An image, looked at sector by sector.
ghost use Rattle.std.specs.Prelude.{◌<◌};

use crate::findings::{Finding, LONGEST_ELECTION};
use crate::times::{slowest_disk, unbounded_on};
use qn_base::{NodeId, Rank};
use qn_exchange::ShortFeedDelay;
use qn_model::{Mail, Settings, Slot, Timing, timing_safe};
use qn_sector::{
    get_header, get_header_1, get_mail, get_mail_1, get_slot, mail_sector, mail_sector_1,
    slot_sector,
};
use std::alloc::{AllocError, Global};

/// The sectors of an image.
pub trait Sectors {
    /// The bytes of the sector, where it can be read; zeros behind the end.
    fn sector(&mut self, number: u32) -> Option<[u8; 512]>;

    /// How many bytes stand behind so many sectors.
    fn bytes_behind(&self, sectors: u64) -> u64;

    /// Whether they lie in a cluster of which nobody reads while its members elect a leader.
    fn have_elections(&self) -> bool;
}

/// What an image says of a node, as far as its sectors can be read and are what they should be.
#[derive(Clone, Copy, Drop)]
pub struct NodeSeen {
    pub slot: Option<(NodeId, Slot)>,
    pub mail: Option<Mail>,
}

/// What an image says, and what is wrong with it.
#[derive(Drop)]
pub struct ImageSeen {
    /// The version, 1 or 2, the number of nodes and the times, where sector 0 is a header.
    pub header: Option<(u16, u32, Timing)>,
    pub nodes: Vec<NodeSeen>,
    pub findings: Vec<Finding>,
}

/// Reads each sector of an image, also behind one that is bad, and compares it with the settings where there are any.
pub fn look_at_image<S: Sectors>(
    alloc: Global,
    sectors: &mut S,
    settings: Option<&Settings>,
) -> Result<ImageSeen, AllocError> {
    let mut seen = ImageSeen {
        header: None,
        nodes: Vec::new(alloc),
        findings: Vec::new(alloc),
    };
    look_at_header(sectors, &mut seen)?;
    if let Some((version, nodes, _)) = seen.header {
        look_at_nodes(sectors, version, nodes, &mut seen)?;
        if let Some(settings) = settings {
            compare(settings, nodes, &mut seen)?;
        }
    }
    Ok(seen)
}

fn look_at_header<S: Sectors>(sectors: &mut S, seen: &mut ImageSeen) -> Result<(), AllocError> {
    let Some(sector) = sectors.sector(0) else {
        seen.findings.push(Finding::Unreadable { sector: 0 })?;
        return Ok(());
    };
    if let Some((nodes, timing)) = get_header(&sector) {
        seen.header = Some((2, nodes, timing));
    } else if let Some((nodes, timing)) = get_header_1(&sector) {
        seen.header = Some((1, nodes, timing));
        seen.findings.push(Finding::OldVersion)?;
    } else {
        seen.findings.push(Finding::NotImage)?;
    }
    if let Some((_, _, timing)) = seen.header {
        look_at_times(&timing, seen)?;
        if sectors.have_elections() && timing.watchdog < LONGEST_ELECTION {
            let watchdog = timing.watchdog;
            seen.findings.push(Finding::BelowElection { watchdog })?;
        }
    }
    Ok(())
}

/// The times are safe, on some disk a take-over has a bound with them, and the feed delay is ample.
fn look_at_times(timing: &Timing, seen: &mut ImageSeen) -> Result<(), AllocError> {
    if !timing_safe(timing) {
        seen.findings.push(Finding::UnsafeTimes)?;
    } else if slowest_disk(timing).is_none() {
        if let Some(reason) = unbounded_on(timing, 1) {
            seen.findings.push(Finding::NoBound { reason })?;
        }
    }
    if let Some(short) = ShortFeedDelay::of(timing.feed_delay) {
        seen.findings.push(Finding::ShortFeedDelay { short })?;
    }
    Ok(())
}

/// Reads the slots and the mailboxes of all ranks, and what stands behind them.
fn look_at_nodes<S: Sectors>(
    sectors: &mut S,
    version: u16,
    nodes: u32,
    seen: &mut ImageSeen,
) -> Result<(), AllocError> {
    for rank in 0..nodes.min(32) {
        look_at_node(sectors, version, Rank(rank as u8), seen)?;
    }
    look_at_ids(seen)?;
    look_at_end(sectors, version, nodes, seen)
}

/// Reads the slot and the mailbox of a rank.
fn look_at_node<S: Sectors>(
    sectors: &mut S,
    version: u16,
    rank: Rank,
    seen: &mut ImageSeen,
) -> Result<(), AllocError>
    requires { rank.0 < 32 }
{
    let place = slot_sector(rank);
    let slot = match sectors.sector(place) {
        Some(bytes) => {
            let slot = get_slot(&bytes);
            if slot.is_none() {
                seen.findings.push(Finding::NotSlot { sector: place })?;
            }
            slot
        }
        None => {
            seen.findings.push(Finding::Unreadable { sector: place })?;
            None
        }
    };
    let mail = look_at_mail(sectors, version, rank, seen)?;
    seen.nodes.push(NodeSeen { slot, mail })?;
    Ok(())
}

/// Reads the mailbox of a rank.
fn look_at_mail<S: Sectors>(
    sectors: &mut S,
    version: u16,
    rank: Rank,
    seen: &mut ImageSeen,
) -> Result<Option<Mail>, AllocError>
    requires { rank.0 < 32 }
{
    let place = if version == 1 {
        mail_sector_1(rank)
    } else {
        mail_sector(rank)
    };
    let Some(bytes) = sectors.sector(place) else {
        seen.findings.push(Finding::Unreadable { sector: place })?;
        return Ok(None);
    };
    let mail = if version == 1 {
        get_mail_1(&bytes).map(Mail::anonymous)
    } else {
        get_mail(&bytes)
    };
    if mail.is_none() {
        seen.findings.push(Finding::NotMailbox { sector: place })?;
    }
    Ok(mail)
}

/// Ids ascend from slot to slot.
fn look_at_ids(seen: &mut ImageSeen) -> Result<(), AllocError> {
    let mut last = NodeId(0);
    let mut sector = 1u32;
    for node in seen.nodes.as_slice() {
        if let Some((id, _)) = node.slot {
            if id.0 <= last.0 {
                seen.findings.push(Finding::NotAscending { sector, id })?;
            }
            last = id;
        }
        sector = sector.saturating_add(2);
    }
    Ok(())
}

/// Behind the last mailbox nothing stands but the room of further ones.
fn look_at_end<S: Sectors>(
    sectors: &S,
    version: u16,
    nodes: u32,
    seen: &mut ImageSeen,
) -> Result<(), AllocError> {
    let count = if version == 1 {
        u64::from(nodes).saturating_mul(2).saturating_add(1)
    } else {
        u64::from(nodes).saturating_add(512)
    };
    let bytes = sectors.bytes_behind(count);
    if bytes > 0 {
        seen.findings.push(Finding::Tail { bytes })?;
    }
    Ok(())
}

/// The nodes of the settings are those of the image.
fn compare(settings: &Settings, nodes: u32, seen: &mut ImageSeen) -> Result<(), AllocError> {
    let count = settings.nodes.as_slice().len() as u32;
    if count != nodes {
        seen.findings.push(Finding::OtherCount {
            image: nodes,
            settings: count,
        })?;
    }
    let mut sector = 1u32;
    for (node, entry) in seen.nodes.as_slice().iter().zip(settings.nodes.as_slice()) {
        if let Some((id, _)) = node.slot {
            if id != entry.id {
                seen.findings.push(Finding::OtherId {
                    sector,
                    image: id,
                    settings: entry.id,
                })?;
            }
        }
        sector = sector.saturating_add(2);
    }
    Ok(())
}
