//! By which word a node is shown.
ghost use Rattle.std.specs.Prelude.{◌≡◌, ◌≤◌, Some, IfOk, IfSome, length, option_map};
ghost use Rattle.qn_links.specs.Names.{name_text};

use crate::sections::NodeSection;
use qn_base::NodeId;
use std::fmt;
use std::fmt::Display;
use std::str::from_utf8;

/// The most bytes of a name that is shown, as those of a label of the domain name system (RFC 1035).
pub const MOST_NAME: usize = 63;

/// Why a node is shown by its id, though its section writes a name: the first reason, in this order.
#[derive(Clone, Copy)]
pub enum NameFault {
    /// The name has no byte, or more than 63.
    Length,
    /// The name is that of another node too.
    Twice,
    /// The name is no text, or has a control character.
    Unprintable,
}

impl Display for NameFault {
    fn fmt<W: fmt::Write>(&self, f: &mut fmt::Formatter<W>) -> fmt::Result {
        f.write_str(match self {
            NameFault::Length => "has not 1 to 63 bytes",
            NameFault::Twice => "is that of another node too",
            NameFault::Unprintable => "cannot be printed",
        })
    }
}

/// The name by which a node is shown: that of its first section. None where that writes none.
pub fn name_of<'text>(
    sections: &[NodeSection<'text>],
    id: NodeId,
) -> Result<Option<&'text str>, NameFault>
    ensures written { IfOk result (λ shown. IfSome shown (λ name.
        name_text sections.now id ≡ Some name.now)) }
    ensures short { IfOk result (λ shown. IfSome shown (λ name. length name.now ≤ 63)) }
{
    let Some(name) = name_text(sections, id) else {
        return Ok(None);
    };
    if name.is_empty() || name.len() > MOST_NAME {
        return Err(NameFault::Length);
    }
    if is_of_another(sections, id, name) {
        return Err(NameFault::Twice);
    }
    let Ok(text) = from_utf8(name) else {
        return Err(NameFault::Unprintable);
    };
    if has_control(name) {
        return Err(NameFault::Unprintable);
    }
    Ok(Some(text))
}

/// What the first section of that node writes as its name.
fn name_text<'text>(sections: &[NodeSection<'text>], id: NodeId) -> Option<&'text [u8]>
    ensures { option_map (λ written. written.now) result ≡ name_text sections.now id }
{
    for section in sections {
        if section.id.0 == id.0 {
            return section.name;
        }
    }
    None
}

/// Whether a section of another node writes the same name.
fn is_of_another(sections: &[NodeSection<'_>], id: NodeId, name: &[u8]) -> bool {
    for section in sections {
        if section.id.0 != id.0 && section.name.is_some_and(|other| other == name) {
            return true;
        }
    }
    false
}

/// Whether a text has a control character of ASCII.
fn has_control(text: &[u8]) -> bool {
    text.iter().any(|byte| byte.is_ascii_control())
}
