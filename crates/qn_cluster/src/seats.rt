//! The seats of a cluster by rank, and which of them hold the resource.
ghost use Rattle.std.specs.Prelude.{◌≡◌, ◌<◌, ◌≤◌, length};
ghost use Rattle.qn_cluster.specs.Holders.{holders_among, holds_at};

use crate::clocks::advance_all;
use crate::seat::Seat;
use qn_base::{Mask, Rank};
use qn_model::{Clocks, Outs, Settings, What};
use std::marker::Model;

/// A seat for each configured node by rank, at most 32; and the ranks whose seats hold the resource, which are looked for
/// anew only where a seat begins or ceases to hold it.
#[derive(Drop)]
pub(crate) struct Seats {
    places: Vec<Seat>,
    holders: Mask,
}

impl Model for Seats {
    ghost use Rattle.std.specs.Prelude.{List, ◌≡◌, ◌≤◌, length};
    ghost use Rattle.qn_cluster.specs.declared.seat.Seat.{Seat};
    ghost use Rattle.qn_cluster.specs.Holders.{holders_among};

    ghost Value = { List Seat };

    ghost view = { λ s. s.places.items };

    ghost invariant = { λ s. (length s.places.items ≤ 32) × (s.holders ≡ holders_among s.places.items) };
}

impl Seats {
    ghost use Rattle.std.specs.Prelude.{◌≡◌, ◌<◌, ◌+◌, ◌^◌, ◌≤◌, ℕ, true, false, Some, length, slice_get, slice_set};
    ghost use Rattle.std.specs.Option.{option_map};
    ghost use Rattle.qn_model.specs.Moments.{advance_of};
    ghost use Rattle.qn_node.specs.Node.{steps_of};
    ghost use Rattle.qn_cluster.specs.declared.seat.Seat.{Seat};
    ghost use Rattle.qn_cluster.specs.Holders.{holders_among};
    ghost use Rattle.qn_cluster.specs.Seats.{BootedSeat, HandedSeat, advanced_seat};

    /// These seats.
    pub(crate) fn of(places: Vec<Seat>) -> Seats
        requires { length places.items ≤ 32 }
        ensures { result ≡ places.items }
    {
        let holders = holders_of(places.as_slice());
        Seats { places, holders }
    }

    /// How many seats there are.
    pub(crate) fn len(&self) -> usize
        ensures { result ≡ length self.now }
    {
        self.places.len()
    }

    /// The seat of a rank.
    pub(crate) fn get(&self, i: Rank) -> &Seat
        requires { i.0 < length self.now }
        ensures { slice_get self.now i.0 ≡ Some result.now }
    {
        &self.places[usize::from(i.0)]
    }

    /// The ranks whose seats hold the resource.
    pub(crate) fn holders(&self) -> Mask
        ensures { result ≡ holders_among self.now }
    {
        self.holders
    }

    /// Another seat in place of that of a rank.
    pub(crate) fn set(&mut self, i: Rank, seat: Seat)
        requires { i.0 < length self.old }
        ensures { self.new ≡ slice_set self.old i.0 seat }
    {
        let place = &mut self.places[usize::from(i.0)];
        let held = place.holds();
        *place = seat;
        self.holders = holders_after(self.holders, held, self.places.as_slice(), i);
    }

    /// The seat of a rank is off.
    pub(crate) fn switch_off(&mut self, i: Rank)
        requires { i.0 < length self.old }
        ensures { (seat : Seat) → slice_get self.old i.0 ≡ Some seat
            → self.new ≡ slice_set self.old i.0 (record seat { on = false }) }
    {
        let seat = &mut self.places[usize::from(i.0)];
        let held = seat.holds();
        seat.on = false;
        self.holders = holders_after(self.holders, held, self.places.as_slice(), i);
    }

    /// The last feed of a rank that was decided takes effect.
    pub(crate) fn feed(&mut self, i: Rank, time: u64)
        requires { i.0 < length self.old }
        ensures { (seat : Seat) → slice_get self.old i.0 ≡ Some seat
            → self.new ≡ slice_set self.old i.0 (record seat { fed = time }) }
    {
        let seat = &mut self.places[usize::from(i.0)];
        seat.fed = time;
    }

    /// The seat of a running node is handed an entry.
    pub(crate) fn hand(&mut self, i: Rank, time: u64, what: What, outs: &mut Outs)
        requires within { i.0 < length self.old }
        requires room { (seat : Seat) → slice_get self.old i.0 ≡ Some seat → 0 < steps_of seat.node }
        ensures { (old : Seat) → slice_get self.old i.0 ≡ Some old
            → (new : Seat)
            × (self.new ≡ slice_set self.old i.0 new)
            × HandedSeat old new time what outs.new }
    {
        let seat = &mut self.places[usize::from(i.0)];
        let held = seat.holds();
        seat.hand(time, what, outs);
        self.holders = holders_after(self.holders, held, self.places.as_slice(), i);
    }

    /// The seat of a node boots, as a clean start or not.
    pub(crate) fn boot(
        &mut self,
        settings: &Settings,
        i: Rank,
        time: u64,
        base: u64,
        clean: bool,
        outs: &mut Outs,
    )
        requires within { i.0 < length self.old }
        requires configured { i.0 < length settings.now.nodes }
        ensures { (new : Seat)
            × (self.new ≡ slice_set self.old i.0 new)
            × BootedSeat new settings.now i.0 time base clean outs.new }
    {
        let seat = &mut self.places[usize::from(i.0)];
        let held = seat.holds();
        seat.boot(settings, i, time, base, clean, outs);
        self.holders = holders_after(self.holders, held, self.places.as_slice(), i);
    }

    /// Each running node's clock advances.
    pub(crate) fn advance(&mut self, dt: u64, clocks: &Clocks)
        requires short { dt ≤ 1000000000 }
        requires fits { (rank : ℕ) (seat : Seat) → slice_get self.old rank ≡ Some seat
            → seat.on ≡ true
            → seat.clock + advance_of dt clocks.now rank < 2 ^ 64 }
        ensures count { length self.new ≡ length self.old }
        ensures seats { (rank : ℕ)
            → slice_get self.new rank
            ≡ option_map (advanced_seat (advance_of dt clocks.now rank)) (slice_get self.old rank) }
    {
        advance_all(self.places.as_mut_slice(), dt, clocks);
    }
}

/// The ranks whose seats hold, after that of one rank changed, where it is known whether it held before.
fn holders_after(holders: Mask, held: bool, seats: &[Seat], i: Rank) -> Mask
    requires few { length seats.now ≤ 32 }
    requires within { i.0 < length seats.now }
    requires before { held ≡ holds_at seats.now i.0 → holders ≡ holders_among seats.now }
    ensures { result ≡ holders_among seats.now }
{
    let holds = seats[usize::from(i.0)].holds();
    if holds == held {
        holders
    } else {
        holders_of(seats)
    }
}

/// The ranks whose seats hold, looked for one by one.
fn holders_of(seats: &[Seat]) -> Mask
    requires { length seats.now ≤ 32 }
    ensures { result ≡ holders_among seats.now }
{
    let mut holders = 0u32;
    for rank in 0..seats.len() {
        let seat = &seats[rank];
        if seat.holds() {
            holders |= 1 << rank;
        }
    }
    Mask(holders)
}
