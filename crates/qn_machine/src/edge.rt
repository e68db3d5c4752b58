//! What of the outside is said before the command: where the nodes are, what guards their packets, what is told of a halt, what asks a node to
//! leave, and what its host says of it.
use crate::named_file::Absent;
use crate::standing_text::NOTHING;
use qn_links::{ArbiterPlace, Networks};
use qn_peers::{Guard, Guarding};
use qn_seal::{Texts, text_of};
use qn_shown::HostStanding;

/// What `create` writes over.
#[derive(Clone, Copy, PartialEq, Eq)]
pub enum Overwrites {
    /// A plain file, whatever stands in it; where a block server keeps the image, only what is blank.
    Files,
    /// Only what is blank or absent.
    Nothing,
    /// Whatever is there.
    Anything,
}

/// What of the outside is said before the command.
#[derive(Drop)]
pub struct Edge {
    /// The addresses of each rank; None: all of them on 127.0.0.1.
    pub networks: Option<Networks>,
    /// Where the arbiter of the nodes with these addresses is, which they poll; None: nowhere, or on 127.0.0.1 where they are there. Without a
    /// port it is at the one that belongs to its seat, 32 above the first port of the cluster.
    pub arbiter: Option<ArbiterPlace>,
    pub guard: Guard,
    /// What stands for the settings text in a tag.
    pub texts: Texts,
    /// The path of a file that is told of a halt.
    pub halt: Option<String>,
    /// The path of a file with which this host asks its node to leave.
    pub leave: Option<String>,
    /// The path of a file in which this host says whether its node may hold the resource.
    pub standing_file: Option<String>,
    /// What this host says of its node by the settings text, where that file is silent.
    pub standing: HostStanding,
    pub overwrites: Overwrites,
}

impl Edge {
    /// Nothing said: all nodes on 127.0.0.1, no seal, no text, no file for a halt, for a leave or of the host's words, and plain files are
    /// written over.
    pub fn local() -> Edge {
        Edge {
            networks: None,
            arbiter: None,
            guard: Guard::Unsaid,
            texts: Texts {
                first: text_of(&[]),
                second: None,
            },
            halt: None,
            leave: None,
            standing_file: None,
            standing: NOTHING,
            overwrites: Overwrites::Files,
        }
    }

    /// What guards the packets of a node.
    pub(crate) fn guarding(&self) -> Guarding {
        Guarding {
            guard: self.guard,
            texts: self.texts,
            is_one_host: self.networks.is_none(),
        }
    }

    /// How many nodes the settings text has, where one was given.
    pub(crate) fn nodes(&self) -> Option<u32> {
        let networks = self.networks.as_ref()?;
        let count = networks
            .first
            .iter()
            .filter(|address| address.is_some())
            .count();
        u32::try_from(count).ok()
    }

    /// What becomes of an opening of a node where something is absent: with any word of a machine nothing is made, since a path that
    /// is wrong is no other node's.
    pub(crate) fn absent(&self) -> Absent {
        if self.networks.is_some() || self.halt.is_some() {
            return Absent::Refused;
        }
        match self.guard {
            Guard::Unsaid => Absent::Made,
            Guard::ClosedNetwork | Guard::Sealed(_) => Absent::Refused,
        }
    }
}
