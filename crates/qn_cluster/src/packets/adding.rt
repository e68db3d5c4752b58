//! Makes room for packets, adds them, and gives them back.
use super::Packets;
use crate::kept::{Heading, Kept, Kind, addressee_of};
use qn_base::NoMemory;
use qn_model::Sent;
use std::alloc::Global;

impl Packets {
    ghost use Rattle.std.specs.Prelude.{◌≡◌, ◌<◌, ◌≤◌, ◌+◌, ◌++◌, ◌∷◌, [], ℕ, IfSome, OnOk, Some, length, slice_get, vec_capacity, vec_len};
    ghost use Rattle.qn_cluster.specs.Packets.{HasRoomFor, sents};

    /// No packet was sent.
    pub(crate) fn new(alloc: Global) -> Self
        ensures { sents result ≡ [] }
    {
        Packets {
            headings: Vec::new(alloc),
            kept: Vec::new(alloc),
        }
    }

    /// How many packets were sent.
    pub(crate) fn len(&self) -> usize
        ensures { result ≡ length (sents self.now) }
    {
        self.kept.len()
    }

    /// The packet of that number, from 0.
    pub(crate) fn get(&self, number: usize) -> Option<Sent>
        ensures { result ≡ slice_get (sents self.now) number }
    {
        let kept = self.kept.get(number).copied()?;
        let heading = self.headings[kept.heading];
        Some(Sent {
            to: kept.to,
            packet: heading.packet(kept.addressee, kept.kind),
        })
    }

    /// Makes room for so many packets more.
    pub(crate) fn reserve(&mut self, count: usize) -> Result<(), NoMemory>
        ensures same { sents self.new ≡ sents self.old }
        ensures room { OnOk result (HasRoomFor count self.new) }
    {
        if self.headings.reserve(count).is_err() || self.kept.reserve(count).is_err() {
            return Err(NoMemory);
        }
        Ok(())
    }

    /// Adds a packet, for which there is room.
    pub(crate) fn push_reserved(&mut self, sent: Sent)
        requires { HasRoomFor 1 self.old }
        ensures sent { sents self.new ≡ sents self.old ++ sent ∷ [] }
        ensures room { (n : ℕ) → HasRoomFor (n + 1) self.old → HasRoomFor n self.new }
    {
        let heading = self.place_of(Heading::of(sent.packet));
        self.kept.push_reserved(Kept {
            heading,
            to: sent.to,
            addressee: addressee_of(sent.packet),
            kind: Kind::of(sent.packet),
        });
    }

    /// The place of a heading: of the last one where that is the same, else of a further one.
    fn place_of(&mut self, heading: Heading) -> usize
        requires { vec_len self.old.headings < vec_capacity self.old.headings }
        ensures place { slice_get self.new.headings.items result ≡ Some heading }
        ensures kept { self.new.kept ≡ self.old.kept }
        ensures same { sents self.new ≡ sents self.old }
        ensures len { vec_len self.new.headings ≤ vec_len self.old.headings + 1 }
        ensures capacity { vec_capacity self.new.headings ≡ vec_capacity self.old.headings }
    {
        if let Some(place) = self.last_place(heading) {
            return place;
        }
        let place = self.headings.len();
        self.headings.push_reserved(heading);
        place
    }

    /// The place of the last heading, where that is this one.
    fn last_place(&self, heading: Heading) -> Option<usize>
        ensures { IfSome result
            (λ place. slice_get self.now.headings.items place ≡ Some heading) }
    {
        let last = self.headings.len().checked_sub(1)?;
        if self.headings[last] == heading {
            Some(last)
        } else {
            None
        }
    }
}
