//! The public call of a soak: its events, and the line that sums them up.
ghost use Rattle.std.specs.Prelude.{◌≡◌, ◌≤◌, ◌+◌, ◌++◌, IfOk, decimal, length};
ghost use Rattle.std.specs.Io.KnownBytes.{append_known};
ghost use Rattle.qn_base.specs.declared.limits.TheConstants.{MOST_EVENTS};
ghost use Rattle.qn_io.specs.Outside.{HasRisen};
ghost use Rattle.qn_io.specs.Writes.{AppendsFront};
ghost use Rattle.qn_replay.specs.Soak.{IsSoakEnd, soak_text, soaked, summary};

use crate::event_places::EventPlaces;
use crate::generator::Gen;
use crate::soak_settings::{soak_settings, soak_timing};
use crate::tally::Tally;
use qn_base::{Failed, NoMemory, ShortText};
use qn_io::{Sink, put_all};
use qn_model::Outs;
use qn_sched::ReplayEnd;
use qn_world::World;
use std::alloc::Global;

/// Draws so many events from the seed, applies each to a world of three nodes, and writes a summary line.
/// At `WriteFault` a prefix of the line was written, at `NoMemory` nothing.
pub fn soak<O: Sink>(alloc: Global, seed: u64, events: u64, out: &mut O) -> ReplayEnd
    requires { events ≤ MOST_EVENTS }
    ensures ends { IsSoakEnd events result }
    ensures done { result ≡ ReplayEnd.Done events
        → O.written out.new ≡ append_known (O.written out.old) (soak_text seed events) }
    ensures one_holder { result ≡ ReplayEnd.Done events
        → (soaked seed events).tally.most_holders ≤ 1 }
    ensures cut { result ≡ ReplayEnd.WriteFault
        → AppendsFront (O.written out.old) (O.written out.new) (soak_text seed events) }
    ensures wanted { result ≡ ReplayEnd.NoMemory → out.new ≡ out.old }
    ensures write_fault { result ≡ ReplayEnd.WriteFault
        → HasRisen (O.faults out.old) (O.faults out.new) }
    ensures sink_faults { O.faults out.old ≤ O.faults out.new }
{
    match tally_of(alloc, seed, events) {
        Ok(tally) => {
            let line = summary_line(seed, events, tally);
            match put_all(out, line.as_slice()) {
                Ok(()) => ReplayEnd::Done { events },
                Err(Failed) => ReplayEnd::WriteFault,
            }
        }
        Err(NoMemory) => ReplayEnd::NoMemory,
    }
}

/// What so many events of the seed come to.
fn tally_of(alloc: Global, seed: u64, events: u64) -> Result<Tally, NoMemory>
    requires { events ≤ MOST_EVENTS }
    ensures tally { IfOk result (λ tally. tally ≡ (soaked seed events).tally) }
    ensures one_holder { IfOk result (λ tally. tally.most_holders ≤ 1) }
{
    let mut world = World::new(alloc, soak_settings(), soak_timing())?;
    let mut generator = Gen::new(seed);
    let mut tally = Tally::new();
    let mut places = EventPlaces::new();
    let mut outs = Outs::new();
    'events: for number in 0..events {
        generator.next_into(&world, &mut places);
        let event = places.event();
        world.apply_allowed(event, &mut outs)?;
        tally.add(event, &outs, &world);
    }
    Ok(tally)
}

/// The summary of a tally.
#[tactic(auto, unfolding(crate::specs::Soak::summary))]
fn summary_line(seed: u64, events: u64, tally: Tally) -> ShortText
    ensures { result ≡ summary seed events tally }
{
    let mut line = ShortText::new();
    add_named(&mut line, b"soak seed ", seed);
    add_named(&mut line, b" events ", events);
    add_named(&mut line, b" boots ", tally.boots);
    add_named(&mut line, b" crashes ", tally.crashes);
    add_named(&mut line, b" resets ", tally.resets);
    add_named(&mut line, b" starts ", tally.starts);
    add_named(&mut line, b" stops ", tally.stops);
    add_named(&mut line, b" most_holders ", tally.most_holders);
    line.add(b"\n");
    line
}

/// Adds a name and its number, in decimal digits, at the end.
fn add_named(line: &mut ShortText, name: &[u8], number: u64)
    requires { length line.old + (length name.now + 20) ≤ 256 }
    ensures text { line.new ≡ line.old ++ name.now ++ decimal number }
    ensures len { length line.new ≤ length line.old + (length name.now + 20) }
{
    line.add(name);
    line.add_number(number);
}
