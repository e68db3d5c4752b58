//! The sections of a settings text that say where its nodes are, by which name, and whether they may hold.
use qn_base::{NodeId, read_decimal};
use qn_conf::{Item, Tree};
use std::alloc::{AllocError, Global};

/// What a node section says of where its node is, how it is called and whether it may hold: the last value of each key.
#[derive(Clone, Copy)]
pub struct NodeSection<'text> {
    /// `nodeid`; 0 where none is written.
    pub id: NodeId,
    /// `ring0_addr`
    pub first: Option<&'text [u8]>,
    /// `ring1_addr`
    pub second: Option<&'text [u8]>,
    /// `name`
    pub name: Option<&'text [u8]>,
    /// `standby`
    pub standby: Option<&'text [u8]>,
    /// `location_score`
    pub score: Option<&'text [u8]>,
}

/// One of the two networks between the nodes, by the key that gives a node's address on it.
#[derive(Clone, Copy, PartialEq, Eq)]
pub enum Ring {
    /// `ring0_addr`: the network that every text has.
    First,
    /// `ring1_addr`
    Second,
}

impl<'text> NodeSection<'text> {
    ghost use Rattle.std.specs.Prelude.{◌≡◌, option_map};
    ghost use Rattle.qn_links.specs.Links.{written_in};

    /// What it writes as the address of its node on that network.
    pub(crate) fn address_on(&self, ring: Ring) -> Option<&'text [u8]>
        ensures { option_map (λ written. written.now) result ≡ written_in ring self.now }
    {
        match ring {
            Ring::First => self.first,
            Ring::Second => self.second,
        }
    }

    /// Takes a pair of the section.
    fn take(&mut self, key: &[u8], value: &'text [u8]) {
        if key == b"nodeid".as_slice() {
            let id = read_decimal(value).and_then(|id| u32::try_from(id).ok());
            self.id = NodeId(id.unwrap_or(0));
        } else if key == b"ring0_addr".as_slice() {
            self.first = Some(value);
        } else if key == b"name".as_slice() {
            self.name = Some(value);
        } else if key == b"ring1_addr".as_slice() {
            self.second = Some(value);
        } else if key == b"standby".as_slice() {
            self.standby = Some(value);
        } else if key == b"location_score".as_slice() {
            self.score = Some(value);
        }
    }
}

impl Ring {
    ghost use Rattle.std.specs.Prelude.{◌≡◌};
    ghost use Rattle.qn_links.specs.Networks.{other_ring, ring_number};

    /// Its number, as that of a link of corosync: 0 or 1.
    pub fn number(self) -> u64
        ensures { result ≡ ring_number self }
    {
        match self {
            Ring::First => 0,
            Ring::Second => 1,
        }
    }

    /// The other one.
    pub fn other(self) -> Ring
        ensures { result ≡ other_ring self }
    {
        match self {
            Ring::First => Ring::Second,
            Ring::Second => Ring::First,
        }
    }
}

/// The names of the sections that stand open, outermost first, and what the node sections said so far.
#[derive(Drop)]
struct Walk<'text> {
    open: Vec<&'text [u8]>,
    sections: Vec<NodeSection<'text>>,
}

impl<'text> Walk<'text> {
    /// Whether the innermost section that stands open is a node section.
    fn is_in_node(&self) -> bool {
        matches!(self.open.as_slice(), [list, node]
            if *list == b"nodelist".as_slice() && *node == b"node".as_slice())
    }

    /// Takes the next item of the text.
    fn take(&mut self, item: &Item<'text>) -> Result<(), AllocError> {
        match item {
            Item::Enter(name) => {
                self.open.push(name.bytes())?;
                if self.is_in_node() {
                    self.sections.push(NodeSection {
                        id: NodeId(0),
                        first: None,
                        second: None,
                        name: None,
                        standby: None,
                        score: None,
                    })?;
                }
            }
            Item::Exit => {
                let _ = self.open.pop();
            }
            Item::Pair(key, value) => {
                if self.is_in_node()
                    && let Some(section) = self.sections.last_mut()
                {
                    section.take(key.bytes(), value.bytes());
                }
            }
        }
        Ok(())
    }
}

/// The node sections of a tree, in text order.
pub fn sections_of<'text>(
    alloc: Global,
    tree: &Tree<'text>,
) -> Result<Vec<NodeSection<'text>>, AllocError> {
    let mut walk = Walk {
        open: Vec::new(alloc),
        sections: Vec::new(alloc),
    };
    for item in tree.items() {
        walk.take(item)?;
    }
    Ok(walk.sections)
}
