//! What of a settings text is passed over without a word, or read otherwise by Corosync: sections, lines and a byte order mark.
use crate::pairs::{Pair, Place, Section, sections_of};
use qn_conf::Tree;
use std::alloc::{AllocError, Global};
use std::fmt;

/// What of a settings text is passed over, or read otherwise by Corosync.
#[derive(Clone, Copy, Drop)]
pub enum TextConcern<'text> {
    /// The text begins with a byte order mark, so its first word is another one; Corosync refuses it.
    ByteOrderMark,
    /// The line of this number, from 1, has more than 511 bytes: Corosync refuses it.
    LongLine { line: u64 },
    /// A section that corosync.conf(5) does not have where it stands. It is passed over, with all that is in it.
    UnknownSection { name: &'text str },
    /// A second `nodelist`: here its nodes are added to those of the first, and Corosync writes them over those.
    SecondNodeList,
    /// A value with a `{`, at which Corosync begins a section.
    BraceInValue { key: &'text str },
}

impl fmt::Display for TextConcern<'_> {
    fn fmt<W: fmt::Write>(&self, f: &mut fmt::Formatter<W>) -> fmt::Result {
        match self {
            TextConcern::ByteOrderMark => f.write_str(
                "the text begins with a byte order mark, which is a part of its first word",
            ),
            TextConcern::LongLine { line } => {
                write!(
                    f,
                    "line {line} has more than 511 bytes: Corosync refuses it"
                )
            }
            TextConcern::UnknownSection { name } => {
                write!(
                    f,
                    "the section {name:?} is not known: all in it is passed over"
                )
            }
            TextConcern::SecondNodeList => f.write_str(
                "Corosync writes the nodes of a second nodelist over those of the first",
            ),
            TextConcern::BraceInValue { key } => {
                write!(
                    f,
                    "Corosync begins a section at the `{{` in the value of {key:?}"
                )
            }
        }
    }
}

/// The sections of corosync.conf(5) that stand in no other one, and two that its reader takes besides.
const TOP_SECTIONS: &[&str] = &[
    "totem",
    "logging",
    "quorum",
    "nodelist",
    "system",
    "resources",
    "nozzle",
    "uidgid",
    "qb",
];

/// The most bytes of a line that Corosync reads.
const MOST_LINE_BYTES: usize = 511;

/// What of a text is passed over, or read otherwise by Corosync, by its tree and its pairs.
pub fn text_concerns_of<'text>(
    alloc: Global,
    text: &[u8],
    tree: &Tree<'text>,
    pairs: &[Pair<'text>],
) -> Result<Vec<TextConcern<'text>>, AllocError> {
    let mut found = Vec::new(alloc);
    if has_byte_order_mark(text) {
        found.push(TextConcern::ByteOrderMark)?;
    }
    add_long_lines(&mut found, text)?;
    let sections = sections_of(alloc, tree)?;
    add_sections(&mut found, sections.as_slice())?;
    for pair in pairs {
        if pair.value.contains('{') {
            found.push(TextConcern::BraceInValue { key: pair.key })?;
        }
    }
    Ok(found)
}

/// Whether a text begins with a byte order mark, as UTF-8 has it.
pub fn has_byte_order_mark(text: &[u8]) -> bool {
    matches!(text, [0xef, 0xbb, 0xbf, ..])
}

fn add_long_lines(found: &mut Vec<TextConcern<'_>>, text: &[u8]) -> Result<(), AllocError> {
    let mut number = 0u64;
    for line in text.split(|byte| *byte == b'\n') {
        number = number.saturating_add(1);
        if line.len() > MOST_LINE_BYTES {
            found.push(TextConcern::LongLine { line: number })?;
        }
    }
    Ok(())
}

fn add_sections<'text>(
    found: &mut Vec<TextConcern<'text>>,
    sections: &[Section<'text>],
) -> Result<(), AllocError> {
    let mut lists = 0u64;
    for section in sections {
        if !is_known(section) {
            found.push(TextConcern::UnknownSection { name: section.name })?;
        }
        if section.outer.is_none() && section.name == "nodelist" {
            lists = lists.saturating_add(1);
        }
    }
    if lists > 1 {
        found.push(TextConcern::SecondNodeList)?;
    }
    Ok(())
}

/// Whether corosync.conf(5) or corosync-qdevice(8) has a section of this name where it stands.
fn is_known(section: &Section<'_>) -> bool {
    let name = section.name;
    match section.outer {
        None => TOP_SECTIONS.iter().any(|known| *known == name),
        Some(Place::NodeList) => name == "node",
        Some(Place::Node(_)) => false,
        Some(Place::Quorum) => name == "device",
        Some(Place::Device) => name == "net" || name == "heuristics",
        Some(Place::Net | Place::Elsewhere) => true,
    }
}
