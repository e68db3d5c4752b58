//! The keys and the sections of a settings text, in text order, each with where it stands.
use qn_conf::{Item, Tree, Word};
use std::alloc::{AllocError, Global};
use std::str::from_utf8;

/// Where a key stands.
#[derive(Clone, Copy, PartialEq, Eq)]
pub enum Place {
    /// In `nodelist`.
    NodeList,
    /// In the node section of this number, from 1, inside `nodelist`.
    Node(u64),
    /// In `quorum`.
    Quorum,
    /// In `device` inside `quorum`.
    Device,
    /// In `net` inside that.
    Net,
    /// In another section, or in none.
    Elsewhere,
}

/// A key with its value.
#[derive(Clone, Copy)]
pub struct Pair<'text> {
    pub place: Place,
    pub key: &'text str,
    pub value: &'text str,
}

/// A section, and where it stands: None in no other one.
#[derive(Clone, Copy)]
pub(crate) struct Section<'text> {
    pub(crate) outer: Option<Place>,
    pub(crate) name: &'text str,
}

/// The sections that are open, and how many node sections there were.
#[derive(Drop)]
struct Path {
    open: Vec<Place>,
    nodes: u64,
}

impl Path {
    fn new(alloc: Global) -> Path {
        Path {
            open: Vec::new(alloc),
            nodes: 0,
        }
    }

    /// The innermost section that is open.
    fn innermost(&self) -> Option<Place> {
        self.open.last().copied()
    }

    /// A section of this name begins.
    fn enter(&mut self, name: &str) -> Result<(), AllocError> {
        let place = place_inside(self.innermost(), name, self.nodes.saturating_add(1));
        if let Place::Node(number) = place {
            self.nodes = number;
        }
        self.open.push(place)?;
        Ok(())
    }

    /// The innermost section ends.
    fn exit(&mut self) {
        let _ = self.open.pop();
    }
}

/// The pairs of a tree.
pub fn pairs_of<'text>(alloc: Global, tree: &Tree<'text>) -> Result<Vec<Pair<'text>>, AllocError> {
    let mut pairs = Vec::new(alloc);
    let mut path = Path::new(alloc);
    for item in tree.items() {
        match item {
            Item::Enter(name) => path.enter(text_of(name))?,
            Item::Exit => path.exit(),
            Item::Pair(key, value) => pairs.push(Pair {
                place: path.innermost().unwrap_or(Place::Elsewhere),
                key: text_of(key),
                value: text_of(value),
            })?,
        }
    }
    Ok(pairs)
}

/// The sections of a tree, in text order.
pub(crate) fn sections_of<'text>(
    alloc: Global,
    tree: &Tree<'text>,
) -> Result<Vec<Section<'text>>, AllocError> {
    let mut sections = Vec::new(alloc);
    let mut path = Path::new(alloc);
    for item in tree.items() {
        match item {
            Item::Enter(name) => {
                let name = text_of(name);
                sections.push(Section {
                    outer: path.innermost(),
                    name,
                })?;
                path.enter(name)?;
            }
            Item::Exit => path.exit(),
            Item::Pair(..) => {}
        }
    }
    Ok(sections)
}

/// The place of a section of this name; `number` is that of the next node section.
fn place_inside(outer: Option<Place>, name: &str, number: u64) -> Place {
    match outer {
        None if name == "nodelist" => Place::NodeList,
        None if name == "quorum" => Place::Quorum,
        Some(Place::NodeList) if name == "node" => Place::Node(number),
        Some(Place::Quorum) if name == "device" => Place::Device,
        Some(Place::Device) if name == "net" => Place::Net,
        _ => Place::Elsewhere,
    }
}

/// A word as text. Words of a tree are parts of a text that is UTF-8.
fn text_of<'text>(word: &Word<'text>) -> &'text str {
    from_utf8(word.bytes()).unwrap_or("")
}
