//! What the nodes of a cluster tell one another of themselves, and what is known of the places that packets come from. No node decides by it:
//! it is for whoever asks how the cluster is.
use qn_base::Rank;
use qn_links::Ring;
use qn_peers::Arrivals;
use qn_shown::{Heard, HostStanding, Told};
use std::cell::Cell;
use std::net::SocketAddr;

/// The most ranks.
const RANKS: usize = 32;

/// How many loops packets come over one network alone before the other one is lost.
const LOOPS: u64 = 3;

/// How many seats there are: those of the ranks and that of the arbiter.
const SEATS: usize = 33;

/// What is to be told, and how many nodes there are that it is told to.
#[derive(Clone, Copy)]
pub(crate) struct Telling {
    pub(crate) told: Told,
    pub(crate) nodes: u8,
}

/// What a node tells, what it was told, where its arbiter is, and how many packets of each no key opened.
#[derive(Drop)]
pub struct Voices {
    /// What is to be told at the next turn, or before the next packet.
    due: Cell<Option<Telling>>,
    heard: Cell<[Heard; RANKS]>,
    /// How many packets came from the address of each seat that no key opened.
    refused: Cell<[u64; SEATS]>,
    /// Over which of two networks the packets of each rank come.
    arrivals: Cell<[Arrivals; RANKS]>,
    /// For how many milliseconds packets come over one network alone before the other one is lost.
    limit: Cell<u64>,
    /// Where the arbiter is that the node polls.
    arbiter: Cell<Option<SocketAddr>>,
    /// What the node was handed last of what its host says of it.
    standing: Cell<Option<HostStanding>>,
    /// The place of the one of three images that was opened since that was asked for.
    opened: Cell<Option<u8>>,
}

impl Voices {
    /// Nothing told, and nothing heard.
    pub(crate) fn new() -> Voices {
        Voices {
            due: Cell::new(None),
            heard: Cell::new([Heard::Nothing; RANKS]),
            refused: Cell::new([0; SEATS]),
            arrivals: Cell::new([Arrivals::Nothing; RANKS]),
            limit: Cell::new(u64::MAX),
            arbiter: Cell::new(None),
            standing: Cell::new(None),
            opened: Cell::new(None),
        }
    }

    /// Has the node tell this at its next turn, or before its next packet, to the others of so many nodes.
    pub fn tell(&self, told: Told, nodes: u8) {
        self.due.set(Some(Telling { told, nodes }));
    }

    /// What is to be told now, once.
    pub(crate) fn take_due(&self) -> Option<Telling> {
        self.due.replace(None)
    }

    /// The node of that rank told this, at that tick of this host's clock in milliseconds.
    pub(crate) fn hear(&self, from: Rank, told: Told, tick: u64) {
        let mut heard = self.heard.get();
        if let Some(place) = heard.get_mut(usize::from(from.0)) {
            *place = Heard::Said(told, tick);
            self.heard.set(heard);
        }
    }

    /// What the node of that rank told last.
    pub fn heard(&self, rank: usize) -> Heard {
        let heard = self.heard.get();
        heard.get(rank).copied().unwrap_or(Heard::Nothing)
    }

    /// A packet came from the address of that seat, which of the arbiter is 32, that no key opened.
    pub(crate) fn refuse(&self, seat: u8) {
        let mut refused = self.refused.get();
        if let Some(count) = refused.get_mut(usize::from(seat)) {
            *count = count.saturating_add(1);
            self.refused.set(refused);
        }
    }

    /// How many of these packets came.
    pub fn refused(&self, seat: usize) -> u64 {
        let refused = self.refused.get();
        refused.get(seat).copied().unwrap_or(0)
    }

    /// A loop takes so many milliseconds: before this was said no network is lost.
    pub fn set_loop(&self, loop_ms: u64) {
        self.limit.set(loop_ms.saturating_mul(LOOPS));
    }

    /// A packet of the node of that rank came over that one of two networks, at that tick of this host's clock in milliseconds.
    pub(crate) fn arrive(&self, rank: u8, ring: Ring, tick: u64) {
        let mut arrivals = self.arrivals.get();
        if let Some(place) = arrivals.get_mut(usize::from(rank)) {
            *place = place.after(ring, tick, self.limit.get());
            self.arrivals.set(arrivals);
        }
    }

    /// The number of the one of two networks that is lost to the node of that rank, where one is: for three loops nothing came over it while
    /// something came over the other one.
    pub fn lost_network(&self, rank: usize) -> Option<u64> {
        let arrivals = self.arrivals.get();
        let lost = arrivals.get(rank)?.lost()?;
        Some(lost.number())
    }

    /// The arbiter that the node polls is there.
    pub(crate) fn set_arbiter(&self, arbiter: Option<SocketAddr>) {
        self.arbiter.set(arbiter);
    }

    /// Where the arbiter is that the node polls, where it has one.
    pub fn arbiter(&self) -> Option<SocketAddr> {
        self.arbiter.get()
    }

    /// The image at that place, of three, was opened late, and has the header of the cluster.
    pub(crate) fn note_opened(&self, place: u8) {
        self.opened.set(Some(place));
    }

    /// The place of the image that was opened late, once.
    pub fn take_opened(&self) -> Option<u8> {
        self.opened.replace(None)
    }

    /// The node is handed that its host says this of it; None: nothing.
    pub(crate) fn stand(&self, standing: Option<HostStanding>) {
        self.standing.set(standing);
    }

    /// What the node was handed last of what its host says of it, where that is anything.
    pub fn standing(&self) -> Option<HostStanding> {
        self.standing.get()
    }
}
