//! What is kept of a packet that was sent: what the packets of one entry have in common stands once.
ghost use Rattle.std.specs.Prelude.{◌≡◌};
ghost use Rattle.qn_cluster.specs.Kept.{addressee_of};

use qn_base::{Mask, Rank, Said, Standing, View};
use qn_model::{Ask, Packet, Tell};

/// What the packets that a node sends at one entry have in common: the node, and the incarnation, the install number
/// and the view that they name.
#[derive(Clone, Copy, PartialEq, Eq)]
pub(crate) struct Heading {
    from: Rank,
    incarnation: u64,
    install: u64,
    view: View,
}

/// What a packet is, beside its heading and the node that it names as its receiver.
#[derive(Clone, Copy)]
pub(crate) enum Kind {
    Ask,
    Tell { holds: bool, released: bool },
    Hello,
    Announce,
    Vote { yes: bool },
    Heard { said: Said, standing: Standing },
}

/// A packet that was sent: the place of its heading, its receiver, the node that it names as its receiver, and its
/// kind.
#[derive(Clone, Copy)]
pub(crate) struct Kept {
    pub(crate) heading: usize,
    pub(crate) to: Rank,
    pub(crate) addressee: Rank,
    pub(crate) kind: Kind,
}

impl Heading {
    ghost use Rattle.std.specs.Prelude.{◌≡◌};
    ghost use Rattle.qn_cluster.specs.Kept.{heading_of, packet_of};

    /// The heading of a packet, with 0 for what the packet does not name.
    pub(crate) fn of(packet: Packet) -> Heading
        ensures { result ≡ heading_of packet }
    {
        let nowhere = View {
            id: 0,
            members: Mask(0),
        };
        match packet {
            Packet::Ask(ask) => Heading::new(ask.from, ask.incarnation, ask.install, ask.view),
            Packet::Tell(tell) => {
                Heading::new(tell.from, tell.incarnation, tell.install, tell.view)
            }
            Packet::Hello { from } | Packet::Heard { from, .. } => {
                Heading::new(from, 0, 0, nowhere)
            }
            Packet::Announce { from, view } => Heading::new(from, 0, 0, view),
            Packet::Vote { .. } => Heading::new(Rank(0), 0, 0, nowhere),
        }
    }

    fn new(from: Rank, incarnation: u64, install: u64, view: View) -> Heading
        ensures { result ≡ record {
          from = from;
          incarnation = incarnation;
          install = install;
          view = view;
        } }
    {
        Heading {
            from,
            incarnation,
            install,
            view,
        }
    }

    /// The packet of this heading, of that kind, which names that receiver.
    pub(crate) fn packet(self, to: Rank, kind: Kind) -> Packet
        ensures { result ≡ packet_of self to kind }
    {
        let Heading {
            from,
            incarnation,
            install,
            view,
        } = self;
        match kind {
            Kind::Ask => Packet::Ask(Ask {
                from,
                to,
                incarnation,
                install,
                view,
            }),
            Kind::Tell { holds, released } => Packet::Tell(Tell {
                from,
                to,
                incarnation,
                install,
                view,
                holds,
                released,
            }),
            Kind::Hello => Packet::Hello { from },
            Kind::Announce => Packet::Announce { from, view },
            Kind::Vote { yes } => Packet::Vote { yes },
            Kind::Heard { said, standing } => Packet::Heard {
                from,
                said,
                standing,
            },
        }
    }
}

impl Kind {
    ghost use Rattle.std.specs.Prelude.{◌≡◌};
    ghost use Rattle.qn_cluster.specs.Kept.{kind_of};

    /// The kind of a packet.
    pub(crate) fn of(packet: Packet) -> Kind
        ensures { result ≡ kind_of packet }
    {
        match packet {
            Packet::Ask(_) => Kind::Ask,
            Packet::Tell(tell) => Kind::Tell {
                holds: tell.holds,
                released: tell.released,
            },
            Packet::Hello { .. } => Kind::Hello,
            Packet::Announce { .. } => Kind::Announce,
            Packet::Vote { yes } => Kind::Vote { yes },
            Packet::Heard { said, standing, .. } => Kind::Heard { said, standing },
        }
    }
}

/// The node that a packet names as its receiver, 0 where it names none.
pub(crate) fn addressee_of(packet: Packet) -> Rank
    ensures { result ≡ addressee_of packet }
{
    match packet {
        Packet::Ask(ask) => ask.to,
        Packet::Tell(tell) => tell.to,
        Packet::Hello { .. }
        | Packet::Announce { .. }
        | Packet::Vote { .. }
        | Packet::Heard { .. } => Rank(0),
    }
}
