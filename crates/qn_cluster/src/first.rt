//! The first cluster.
ghost use Rattle.std.specs.Prelude.{◌≡◌, ◌≤◌, ℕ, Some, IfOk, length, slice_get};
ghost use Rattle.qn_cluster.specs.declared.seat.Seat.{Seat};
ghost use Rattle.qn_cluster.specs.Seats.{IsFresh};

use crate::cluster::Cluster;
use crate::packets::Packets;
use crate::seat::Seat;
use crate::seats::Seats;
use qn_base::{NoMemory, Rank};
use qn_model::Settings;
use std::alloc::Global;

/// A seat for each configured node; all nodes are off.
fn seats_of(alloc: Global, settings: &Settings) -> Result<Vec<Seat>, NoMemory>
    requires { length settings.now.nodes ≤ 32 }
    ensures count { IfOk result (λ seats. length seats.items ≡ length settings.now.nodes) }
    ensures fresh { IfOk result
        (λ seats. (rank : ℕ) (seat : Seat) → slice_get seats.items rank ≡ Some seat
        → IsFresh seat) }
{
    let mut seats = Vec::new(alloc);
    for rank in 0..settings.nodes.len() {
        match seats.push(Seat::off(settings, Rank(rank as u8))) {
            Ok(()) => {}
            Err(_) => return Err(NoMemory),
        }
    }
    Ok(seats)
}

impl Cluster {
    ghost use Rattle.std.specs.Prelude.{◌≡◌, [], IfOk};
    ghost use Rattle.qn_model.specs.Settings.{IsValid};
    ghost use Rattle.qn_cluster.specs.Standing.{ClusterFor};

    /// The first cluster: all nodes are off, and no packet was sent.
    pub fn new(alloc: Global, settings: Settings) -> Result<Cluster, NoMemory>
        requires { IsValid settings }
        ensures stands { IfOk result (λ c. ClusterFor c []) }
        ensures settings { IfOk result (λ c. c.settings ≡ settings) }
        ensures time { IfOk result (λ c. c.time ≡ 0) }
        ensures steps { IfOk result (λ c. c.steps ≡ u64.MAX) }
    {
        let seats = seats_of(alloc, &settings)?;
        Ok(Cluster {
            settings,
            time: 0,
            seats: Seats::of(seats),
            packets: Packets::new(alloc),
            steps: u64::MAX,
        })
    }
}
