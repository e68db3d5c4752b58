//! The sections that are read, and the keys of each.
ghost use Rattle.std.specs.Prelude.{◌≡◌, ◌<◌, ◌-◌, ◌^◌, ◌∷◌, length, drop};
ghost use Rattle.qn_settings.specs.Sections.{innermost, inside, key_in, keys_of};

use crate::key::Key;
use std::marker::Model;

/// A section of the settings text, as the table of keys knows it (corosync.conf(5)).
#[derive(Clone, Copy, PartialEq, Eq)]
pub(crate) enum Section {
    /// Outside every section.
    Outside,
    NodeList,
    Node,
    Quorum,
    Device,
    /// A section that is passed over.
    Other,
}

const NODE_KEYS: [Key; 3] = [Key::NodeId, Key::QuorumVotes, Key::FenceDelay];

const QUORUM_KEYS: [Key; 9] = [
    Key::Provider,
    Key::ExpectedVotes,
    Key::TwoNode,
    Key::WaitForAll,
    Key::LastManStanding,
    Key::LastManStandingWindow,
    Key::AutoTieBreaker,
    Key::AutoTieBreakerNode,
    Key::AllowDownscale,
];

const DEVICE_KEYS: [Key; 3] = [Key::Model, Key::Votes, Key::Timeout];

impl Section {
    /// The section of this name inside this one.
    fn inside(self, name: &[u8]) -> Section
        ensures { result ≡ inside self name.now }
    {
        match self {
            Section::Outside if name == b"nodelist".as_slice() => Section::NodeList,
            Section::Outside if name == b"quorum".as_slice() => Section::Quorum,
            Section::NodeList if name == b"node".as_slice() => Section::Node,
            Section::Quorum if name == b"device".as_slice() => Section::Device,
            _ => Section::Other,
        }
    }

    /// The keys that are read in this section.
    fn keys(self) -> &'static [Key]
        ensures { result.now ≡ keys_of self }
    {
        match self {
            Section::Node => &NODE_KEYS,
            Section::Quorum => &QUORUM_KEYS,
            Section::Device => &DEVICE_KEYS,
            Section::Outside | Section::NodeList | Section::Other => &[],
        }
    }

    /// The key of this name in this section.
    #[tactic(auto, unfolding(crate::specs::Sections::key_in))]
    pub(crate) fn key(self, name: &[u8]) -> Option<Key>
        ensures { result ≡ key_in self name.now }
    {
        self.keys()
            .iter()
            .copied()
            .find(|key| key.name().as_bytes() == name)
    }
}

/// The sections that stand open, innermost first: those of the table, and how many others inside them.
#[derive(Drop)]
pub(crate) struct OpenSections {
    known: Section,
    others: usize,
}

impl Model for OpenSections {
    ghost use Rattle.std.specs.Prelude.{List, ◌++◌, replicate};
    ghost use Rattle.qn_settings.specs.declared.section.Section.{Section};
    ghost use Rattle.qn_settings.specs.declared.section.Section.TheVariants.{Other};
    ghost use Rattle.qn_settings.specs.Sections.{chain};

    ghost Value = { List Section };

    ghost view = { λ s. replicate s.others Other ++ chain s.known };
}

impl OpenSections {
    ghost use Rattle.std.specs.Prelude.{◌≡◌, ◌<◌, ◌-◌, ◌^◌, [], ◌∷◌, length, drop};
    ghost use Rattle.qn_settings.specs.Sections.{innermost, inside};

    pub(crate) fn new() -> Self
        ensures { result ≡ [] }
    {
        OpenSections {
            known: Section::Outside,
            others: 0,
        }
    }

    /// Equal open sections.
    pub(crate) fn copy(&self) -> Self
        ensures { result ≡ self.now }
    {
        OpenSections {
            known: self.known,
            others: self.others,
        }
    }

    pub(crate) fn innermost(&self) -> Section
        ensures { result ≡ innermost self.now }
    {
        if self.others > 0 {
            Section::Other
        } else {
            self.known
        }
    }

    /// Begins the section of this name, and answers it.
    pub(crate) fn enter(&mut self, name: &[u8]) -> Section
        requires { length self.old < 2 ^ 64 - 1 }
        ensures section { result ≡ inside (innermost self.old) name.now }
        ensures open { self.new ≡ result ∷ self.old }
    {
        let section = self.innermost().inside(name);
        match section {
            Section::Other => self.others += 1,
            _ => self.known = section,
        }
        section
    }

    /// Ends the innermost section, if one stands open.
    pub(crate) fn exit(&mut self)
        ensures { self.new ≡ drop 1 self.old }
    {
        if self.others > 0 {
            self.others -= 1;
        } else {
            self.known = match self.known {
                Section::Node => Section::NodeList,
                Section::Device => Section::Quorum,
                _ => Section::Outside,
            };
        }
    }
}
