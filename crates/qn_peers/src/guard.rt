//! What guards the packets of a node.
ghost use Rattle.std.specs.Prelude.{◌≡◌};
ghost use Rattle.qn_peers.specs.Guards.{keys_of, takes_votes};

use qn_seal::{Keys, Texts};

/// What guards the packets between nodes.
#[derive(Clone, Copy)]
pub enum Guard {
    /// Nothing was said of it: packets carry no seal, which the opening of a node says in a line.
    Unsaid,
    /// Packets carry no seal, since the network is closed to others.
    ClosedNetwork,
    /// Each packet is sealed under the first of the keys, and opened by each.
    Sealed(Keys),
}

/// What guards the packets of a node, and what its seals are over.
#[derive(Clone, Copy)]
pub struct Guarding {
    pub guard: Guard,
    /// What stands for the settings text in a tag.
    pub texts: Texts,
    /// Whether nothing was said of where the nodes are, so that all of them are on this host.
    pub is_one_host: bool,
}

impl Guarding {
    ghost use Rattle.std.specs.Prelude.{◌≡◌};

    /// The keys, where packets are sealed.
    pub(crate) fn keys(&self) -> Option<Keys>
        ensures { result ≡ keys_of self.now.guard }
    {
        match self.guard {
            Guard::Unsaid | Guard::ClosedNetwork => None,
            Guard::Sealed(keys) => Some(keys),
        }
    }

    /// Whether votes of a quorum device of this host are taken: only where nothing was said of the network, since any user of the host can
    /// send one.
    pub(crate) fn takes_votes(&self) -> bool
        ensures { result ≡ takes_votes self.now }
    {
        self.is_one_host && matches!(self.guard, Guard::Unsaid)
    }
}
