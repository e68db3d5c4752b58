//! How far clocks advance as time passes.
ghost use Rattle.std.specs.Prelude.{◌≡◌, ◌<◌, ◌≤◌, ◌+◌, ◌^◌, ℕ, true, Some, length, slice_get};
ghost use Rattle.std.specs.Option.{option_map};
ghost use Rattle.qn_model.specs.Moments.{advance_of};
ghost use Rattle.qn_cluster.specs.declared.seat.Seat.{Seat};
ghost use Rattle.qn_cluster.specs.Seats.{advanced_seat};

use crate::seat::Seat;
use qn_base::Rank;
use qn_model::Clocks;

/// How far the clock of a rank advances in a pass of `dt` milliseconds: as far as it is named, else 100 a
/// millisecond.
pub(crate) fn advance_of(dt: u64, clocks: &Clocks, rank: Rank) -> u64
    requires { dt ≤ 1000000000 }
    ensures { result ≡ advance_of dt clocks.now rank.0 }
{
    for clock in clocks.as_slice() {
        if clock.0.0 == rank.0 {
            return clock.1;
        }
    }
    100 * dt
}

/// Each running node's clock advances.
pub(crate) fn advance_all(seats: &mut [Seat], dt: u64, clocks: &Clocks)
    requires short { dt ≤ 1000000000 }
    requires few { length seats.old ≤ 32 }
    requires fits { (rank : ℕ) (seat : Seat) → slice_get seats.old rank ≡ Some seat → seat.on ≡ true
        → seat.clock + advance_of dt clocks.now rank < 2 ^ 64 }
    ensures { (rank : ℕ)
        → slice_get seats.new rank
        ≡ option_map (advanced_seat (advance_of dt clocks.now rank)) (slice_get seats.old rank) }
{
    for rank in 0..seats.len() {
        let advance = advance_of(dt, clocks, Rank(rank as u8));
        let seat = &mut seats[rank];
        if seat.on {
            seat.clock += advance;
        }
    }
}
