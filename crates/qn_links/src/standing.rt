//! What a settings text says of whether a node may hold the resource, and how gladly it is to.
ghost use Rattle.std.specs.Prelude.{◌≡◌, Some, IfOk, IfErr, option_map};
ghost use Rattle.qn_links.specs.Standings.{IsMisread, score_in, score_of, section_of, standby_in, standby_of};

use crate::sections::NodeSection;
use qn_base::{NodeId, read_decimal};
use std::fmt;
use std::fmt::Display;

/// The greatest `location_score`.
const MOST_SCORE: u64 = 254;

/// What the first section of a node says of it.
#[derive(Clone, Copy)]
pub struct TextStanding {
    /// `standby: yes`: it votes and never holds the resource. Without the key it may hold.
    pub is_standby: bool,
    /// `location_score`, 0 to 254 and 0 without the key: of several nodes that may hold, one of the greatest is to.
    pub score: u8,
}

/// What is wrong with it: the first fault, in this order.
#[derive(Clone, Copy)]
pub enum StandingFault {
    /// `standby` is neither `yes` nor `no`.
    Standby,
    /// `location_score` is no number from 0 to 254.
    LocationScore,
}

impl Display for StandingFault {
    fn fmt<W: fmt::Write>(&self, f: &mut fmt::Formatter<W>) -> fmt::Result {
        f.write_str(match self {
            StandingFault::Standby => "BadConf BadNumber key standby",
            StandingFault::LocationScore => "BadConf BadNumber key location_score",
        })
    }
}

/// What the first section of that node says of it; a key that it does not write, and a node without a section, are as the default.
pub fn standing_of(sections: &[NodeSection<'_>], id: NodeId) -> Result<TextStanding, StandingFault>
    ensures standby { IfOk result (λ said.
        standby_of sections.now id ≡ Some said.is_standby) }
    ensures score { IfOk result (λ said. score_of sections.now id ≡ Some said.score) }
    ensures fault { IfErr result (λ fault. IsMisread sections.now id fault) }
{
    let section = section_of(sections, id);
    let Some(is_standby) = standby_in(section.and_then(|section| section.standby)) else {
        return Err(StandingFault::Standby);
    };
    match score_in(section.and_then(|section| section.score)) {
        Some(score) => Ok(TextStanding { is_standby, score }),
        None => Err(StandingFault::LocationScore),
    }
}

/// The first section of that node.
fn section_of<'text>(sections: &[NodeSection<'text>], id: NodeId) -> Option<NodeSection<'text>>
    ensures { result ≡ section_of sections.now id }
{
    for section in sections {
        if section.id.0 == id.0 {
            return Some(*section);
        }
    }
    None
}

/// Whether a node is a standby by what is written as `standby`.
fn standby_in(text: Option<&[u8]>) -> Option<bool>
    ensures { result ≡ standby_in (option_map (λ written. written.now) text.entry) }
{
    let Some(text) = text else {
        return Some(false);
    };
    if text == b"yes".as_slice() {
        Some(true)
    } else if text == b"no".as_slice() {
        Some(false)
    } else {
        None
    }
}

/// The score of a node by what is written as `location_score`.
fn score_in(text: Option<&[u8]>) -> Option<u8>
    ensures { result ≡ score_in (option_map (λ written. written.now) text.entry) }
{
    let Some(text) = text else {
        return Some(0);
    };
    let score = read_decimal(text)?;
    if score <= MOST_SCORE {
        Some(score as u8)
    } else {
        None
    }
}
