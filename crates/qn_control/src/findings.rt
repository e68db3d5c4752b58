//! What is wrong with an image.
use crate::unbounded::Unbounded;
use qn_base::NodeId;
use qn_exchange::ShortFeedDelay;
use std::fmt;

/// For how many milliseconds nobody may read an image in an etcd cluster whose leader is lost (IMAGE.md): the longest that was seen is 8.7 s.
pub const LONGEST_ELECTION: u64 = 9000;

/// What is wrong with an image, or does not fit a corosync.conf.
#[derive(Clone, Copy, Drop)]
pub enum Finding {
    /// The sector cannot be read.
    Unreadable {
        sector: u32,
    },
    /// Sector 0 is no header, so the file is no image.
    NotImage,
    /// The image is of version 1, which no node takes.
    OldVersion,
    /// The times of the header are not safe.
    UnsafeTimes,
    /// With the times of the header a take-over has no bound on any disk.
    NoBound {
        reason: Unbounded,
    },
    /// The feed delay of the header is so short that a node which stalls for less than 500 milliseconds is not fed.
    ShortFeedDelay {
        short: ShortFeedDelay,
    },
    /// A loss of the leader of its cluster may last longer than the watchdog's time, in milliseconds, so that each node is reset.
    BelowElection {
        watchdog: u64,
    },
    /// The sector is no slot.
    NotSlot {
        sector: u32,
    },
    /// The sector is no mailbox.
    NotMailbox {
        sector: u32,
    },
    /// The slot of this sector has an id that is not above the one before.
    NotAscending {
        sector: u32,
        id: NodeId,
    },
    /// So many bytes of the file stand behind the last sector of the image.
    Tail {
        bytes: u64,
    },
    /// The settings have another number of nodes.
    OtherCount {
        image: u32,
        settings: u32,
    },
    /// The slot of this sector has another id than the node of the settings.
    OtherId {
        sector: u32,
        image: NodeId,
        settings: NodeId,
    },
}

impl fmt::Display for Finding {
    fn fmt<W: fmt::Write>(&self, f: &mut fmt::Formatter<W>) -> fmt::Result {
        match self {
            Finding::Unreadable { sector } => of_sector(f, *sector, " cannot be read"),
            Finding::NotImage => f.write_str("sector 0 is no header: the file is no image"),
            Finding::OldVersion => f.write_str("the image is of version 1: quorumd migrate"),
            Finding::UnsafeTimes => f.write_str("the times are not safe"),
            Finding::NoBound { reason } => {
                let reason = reason.of_times();
                write!(f, "a take-over has no bound: {reason}")
            }
            Finding::ShortFeedDelay { short } => write!(f, "{short}"),
            Finding::BelowElection { watchdog } => below_election(f, *watchdog),
            Finding::NotSlot { sector } => of_sector(f, *sector, " is no slot"),
            Finding::NotMailbox { sector } => of_sector(f, *sector, " is no mailbox"),
            Finding::NotAscending { sector, id } => {
                of_sector(f, *sector, " has the id ")?;
                number(f, "", id.0, ", which is not above the one before")
            }
            Finding::Tail { bytes } => write!(f, "{bytes} bytes stand behind the image"),
            Finding::OtherCount { image, settings } => {
                number(f, "the image is for ", *image, " nodes, and the settings")?;
                number(f, " have ", *settings, "")
            }
            Finding::OtherId {
                sector,
                image,
                settings,
            } => {
                of_sector(f, *sector, " has the id ")?;
                number(f, "", image.0, ", and the settings have ")?;
                number(f, "", settings.0, " there")
            }
        }
    }
}

/// Says that a watchdog's time is shorter than an election, and what to do.
fn below_election<W: fmt::Write>(f: &mut fmt::Formatter<W>, watchdog: u64) -> fmt::Result {
    write!(
        f,
        "an election of etcd may take {LONGEST_ELECTION} ms, and the watchdog's time is {watchdog} ms: each node is reset then. "
    )?;
    f.write_str("Give each member --pre-vote, or the image longer times")
}

/// Writes the number of a sector, and what is said of it.
fn of_sector<W: fmt::Write>(f: &mut fmt::Formatter<W>, sector: u32, said: &str) -> fmt::Result {
    number(f, "sector ", sector, said)
}

/// Writes a number between two texts.
fn number<W: fmt::Write>(
    f: &mut fmt::Formatter<W>,
    before: &str,
    number: u32,
    after: &str,
) -> fmt::Result {
    write!(f, "{before}{number}{after}")
}
