//! The two networks of a settings text that has two.
use crate::text::Text;
use qn_conf::Tree;
use qn_links::{Links, networks_of, sections_of};
use qn_model::Settings;
use std::alloc::{AllocError, Global};

/// What a settings text says of two networks.
#[derive(Drop)]
pub enum NetworksSeen {
    /// It has one network.
    One,
    /// Where the nodes are on each of two.
    Two { first: Links, second: Links },
    /// Why it does not say where they are.
    Unknown { reason: String },
}

/// What a text of these settings says of two networks.
pub fn look_at_networks(
    alloc: Global,
    settings: &Settings,
    tree: &Tree<'_>,
) -> Result<NetworksSeen, AllocError> {
    let sections = sections_of(alloc, tree)?;
    if sections.iter().all(|section| section.second.is_none()) {
        return Ok(NetworksSeen::One);
    }
    match networks_of(sections.as_slice(), settings.nodes.as_slice()) {
        Ok(networks) => {
            let first = networks.first;
            Ok(match networks.second {
                Some(second) => NetworksSeen::Two { first, second },
                None => NetworksSeen::One,
            })
        }
        Err(fault) => {
            let mut reason = Text::new(alloc);
            reason.add_value(&fault);
            Ok(NetworksSeen::Unknown {
                reason: reason.finish()?,
            })
        }
    }
}

/// A line for each of two networks, with the addresses of the nodes, or the warning why they are not known; nothing of a text that has one.
pub fn network_lines(alloc: Global, seen: &NetworksSeen) -> Result<String, AllocError> {
    let mut text = Text::new(alloc);
    match seen {
        NetworksSeen::One => {}
        NetworksSeen::Two { first, second } => {
            add_network(&mut text, "network 0", first);
            add_network(&mut text, "network 1", second);
        }
        NetworksSeen::Unknown { reason } => {
            text.add("warning: ");
            text.add(reason.as_str());
            text.add("\n");
        }
    }
    text.finish()
}

/// Adds the line of a network.
fn add_network(text: &mut Text, name: &str, links: &Links) {
    text.add(name);
    for link in links {
        if let Some(address) = link {
            text.add(" ");
            text.add_value(address);
        }
    }
    text.add("\n");
}
