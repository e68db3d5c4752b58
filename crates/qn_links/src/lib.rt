//! Where the nodes of a cluster are, and its arbiter: the `ring0_addr` of each node section (corosync.conf(5)), by the rank of its node, and the
//! `ring1_addr` of each where there is a second network. Addresses are literals of IPv4 or IPv6, those of one network all of one family; a host's
//! name is refused, since nothing looks names up while a cluster fails.
//!
//! The arbiter is at the `host` of the section `net` of the device (corosync-qdevice(8)), which is an address too.
//!
//! Promises: `links_of` gives, at the place of each rank and at no other, the address that the first section of the node of that rank writes;
//! these are addresses of one machine each, no two are one, and all are of one family. Where that is not so, it names the first fault. `networks_of` does so on
//! each network, whose addresses are apart from those of the other one. `arbiter_of`
//! gives the address that is written as the host and the port that is written, or names the first fault. `meaning_of` writes what a settings text
//! says, in bytes that are equal exactly where it is (`law_one_meaning`). `name_of` gives a name that the node's section writes, or that it cannot be
//! shown. `standing_of` gives whether a node is a standby, and its score, as its section writes them, or names the first fault.
#![tactic(auto)]

mod arbiter;
mod device;
mod fault;
mod laws;
mod links;
mod meaning;
mod names;
mod networks;
mod sections;
mod standing;

pub use arbiter::{ArbiterFault, ArbiterPlace, arbiter_of};
pub use device::{DeviceNet, device_of};
pub use fault::LinksFault;
pub use laws::law_one_meaning;
pub use links::{Links, links_of};
pub use meaning::{MEANING, Meaning, meaning_of};
pub use names::{MOST_NAME, NameFault, name_of};
pub use networks::{Networks, NetworksFault, networks_of};
pub use sections::{NodeSection, Ring, sections_of};
pub use standing::{StandingFault, TextStanding, standing_of};
