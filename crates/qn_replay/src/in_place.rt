//! What takes the place of a drawn event that is not allowed.
ghost use Rattle.std.specs.Prelude.{◌≡◌, ◌<◌, ◌≤◌, true, None, IfSome, option_map, if◌then◌else◌};
ghost use Rattle.qn_base.specs.declared.limits.TheConstants.{LATEST_TIME};
ghost use Rattle.qn_model.specs.World.{World as WorldBefore};
ghost use Rattle.qn_model.specs.Rules.{is_well_formed, refusal};
ghost use Rattle.qn_world.specs.Standing.{WorldFor};
ghost use Rattle.qn_replay.specs.Generator.{forced, in_place, is_overdue, may_happen, moment, overdue, soak_settings, soak_timing};

use crate::event_places::EventPlaces;
use qn_base::Rank;
use qn_model::Event;
use qn_world::{Pending, World};

/// The candidate stays where it is allowed; else one millisecond is written over it, and where not even that is
/// allowed the crash of a node whose watchdog is over.
pub(crate) fn keep_or_replace(event: &mut EventPlaces, world: &World)
    requires settings { world.now.settings ≡ soak_settings }
    requires timing { world.now.timing ≡ soak_timing }
    requires early { world.now.time ≤ LATEST_TIME }
    requires formed { is_well_formed soak_settings event.old ≡ true }
    ensures drawn { (d : WorldBefore) → WorldFor world.now d → event.new ≡ in_place d event.old }
    ensures formed { is_well_formed soak_settings event.new ≡ true }
    ensures allowed { (d : WorldBefore) → WorldFor world.now d
        → refusal soak_settings soak_timing event.new d ≡ None }
{
    match world.allowed(event.event()) {
        Ok(()) => {}
        Err(_) => write_moment_or_forced(world, event),
    }
}

/// Writes one millisecond, or the crash of a node whose watchdog is over, over an event.
fn write_moment_or_forced(world: &World, into: &mut EventPlaces)
    requires settings { world.now.settings ≡ soak_settings }
    requires timing { world.now.timing ≡ soak_timing }
    requires early { world.now.time ≤ LATEST_TIME }
    ensures drawn { (d : WorldBefore) → WorldFor world.now d
        → into.new ≡ (if may_happen moment d then moment else forced d) }
    ensures formed { is_well_formed soak_settings into.new ≡ true }
    ensures allowed { (d : WorldBefore) → WorldFor world.now d
        → refusal soak_settings soak_timing into.new d ≡ None }
{
    write_moment(into);
    match world.allowed(into.event()) {
        Ok(()) => {}
        Err(_) => write_forced(world, into),
    }
}

/// Writes one millisecond, on all clocks, over an event.
#[tactic(auto, unfolding(qn_model::specs::Rules::is_well_formed))]
fn write_moment(into: &mut EventPlaces)
    ensures event { into.new ≡ moment }
    ensures formed { is_well_formed soak_settings into.new ≡ true }
{
    into.set_moment();
}

/// Writes the crash of the least node whose watchdog is over in one more millisecond over an event.
#[tactic(auto, unfolding(qn_model::specs::Rules::is_well_formed))]
fn write_forced(world: &World, into: &mut EventPlaces)
    requires settings { world.now.settings ≡ soak_settings }
    requires early { world.now.time ≤ LATEST_TIME }
    ensures drawn { (d : WorldBefore) → WorldFor world.now d → into.new ≡ forced d }
    ensures formed { is_well_formed soak_settings into.new ≡ true }
{
    match overdue(world) {
        Some(rank) => into.set_other(Event::Crash(rank)),
        None => write_moment(into),
    }
}

/// The least node whose watchdog is over in one more millisecond.
fn overdue(world: &World) -> Option<Rank>
    requires settings { world.now.settings ≡ soak_settings }
    requires early { world.now.time ≤ LATEST_TIME }
    ensures least { (d : WorldBefore) → WorldFor world.now d
        → option_map (λ rank. rank.0) result ≡ overdue d }
    ensures configured { IfSome result (λ rank. rank.0 < 3) }
{
    let now = world.time();
    if is_overdue(now, world.pending(Rank(0))) {
        Some(Rank(0))
    } else if is_overdue(now, world.pending(Rank(1))) {
        Some(Rank(1))
    } else if is_overdue(now, world.pending(Rank(2))) {
        Some(Rank(2))
    } else {
        None
    }
}

/// Whether a running node would be past its watchdog in one more millisecond.
fn is_overdue(now: u64, pending: Pending) -> bool
    requires { now ≤ LATEST_TIME }
    ensures { result ≡ is_overdue now pending }
{
    pending.running && 99 * (now + 1).saturating_sub(pending.fed) > 500_000
}
