//! The parts of the events that a draw of a soak can give: receivers, feeds, views and incidents.
ghost use Rattle.std.specs.Prelude.{◌≡◌, ◌<◌, ◌≤◌, ◌^◌, true};
ghost use Rattle.qn_model.specs.World.{World as WorldBefore};
ghost use Rattle.qn_model.specs.Rules.{is_well_formed};
ghost use Rattle.qn_world.specs.Standing.{WorldFor};
ghost use Rattle.qn_replay.specs.Generator.{incident_of, is_feed_due, receiver, soak_settings, view_of};

use crate::event_places::EventPlaces;
use qn_base::{Mask, Rank, View};
use qn_model::Event;
use qn_world::{Pending, World};

/// The receiver of a packet, or the rank where there is no such packet.
pub(crate) fn receiver(world: &World, number: u64, rank: Rank) -> Rank
    requires settings { world.now.settings ≡ soak_settings }
    requires rank { rank.0 < 3 }
    ensures to { (d : WorldBefore) → WorldFor world.now d → result ≡ receiver rank number d }
    ensures configured { result.0 < 3 }
{
    match world.packet_to(number) {
        Some(to) => to,
        None => rank,
    }
}

/// Whether a feed was decided after the last one, at most 1000 milliseconds ago.
pub(crate) fn is_feed_due(now: u64, pending: Pending) -> bool
    ensures { result ≡ is_feed_due now pending }
{
    match pending.decided {
        Some(decided) => pending.fed < decided && now.saturating_sub(decided) <= 1000,
        None => false,
    }
}

/// Writes a view of these members, whose id is their bits, over an event.
#[tactic(auto, unfolding(qn_model::specs::Rules::is_well_formed))]
pub(crate) fn write_view(rank: Rank, members: u32, into: &mut EventPlaces)
    requires rank { rank.0 < 3 }
    requires some { 0 < members }
    requires configured { members ≤ 7 }
    ensures event { into.new ≡ (view_of rank members 0).event }
    ensures formed { is_well_formed soak_settings into.new ≡ true }
{
    let view = View {
        id: u64::from(members),
        members: Mask(members),
    };
    into.set_view(rank, view);
}

/// The bit of a rank.
pub(crate) fn bit_of(rank: Rank) -> u32
    requires { rank.0 < 3 }
    ensures value { result ≡ 2 ^ rank.0 }
    ensures small { result ≤ 4 }
{
    1 << rank.0
}

/// Writes the incident of a number below 8 over an event.
#[tactic(auto, unfolding(crate::specs::Generator::incident_of, qn_model::specs::Rules::is_well_formed))]
pub(crate) fn write_incident(number: u64, rank: Rank, into: &mut EventPlaces)
    requires { rank.0 < 3 }
    ensures event { into.new ≡ incident_of number rank }
    ensures formed { is_well_formed soak_settings into.new ≡ true }
{
    if number == 0 {
        into.set_other(Event::Crash(rank));
    } else if number == 1 {
        into.set_other(Event::Leave(rank));
    } else if number == 2 {
        into.set_other(Event::Late(rank, 1));
    } else {
        into.set_other(Event::Fail(rank));
    }
}
