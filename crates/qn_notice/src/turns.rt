//! The events of an entry.
ghost use Rattle.std.specs.Prelude.{◌≡◌, ◌≤◌, ◌<◌, ◌+◌, ◌++◌, option_to_list};
ghost use Rattle.arrayvec.specs.ArrayVec.{array_vec_len};
ghost use Rattle.qn_notice.specs.Events.{came, events, fence_asked, halt_told, hold_told, phase_told, quorum_told, release_told, view_told, why_told};

use crate::comparing::{
    change, halt_of, installs, is_outside, is_same_condition, is_same_phase, reset_of,
};
use crate::kinds::Event;
use arrayvec::ArrayVec;
use qn_live::Standing;
use qn_model::{Outs, SlotSeen, What};

/// The events of one entry, in order.
pub type EventList = ArrayVec<Event, 11>;

/// The events of an entry: where the node stands before it and after it, the entry, and its outputs.
#[tactic(auto, unfolding(crate::specs::Events::events))]
pub fn events(before: &Standing, after: &Standing, entry: What, outs: &Outs) -> EventList
    ensures { result.items ≡ events before.now after.now entry outs.now }
{
    let mut all = ArrayVec::new();
    add(&mut all, came(after, entry));
    add(&mut all, phase_told(before, after));
    add(&mut all, view_told(before, after));
    add(&mut all, release_told(before, after));
    add(&mut all, quorum_told(before, after));
    add(&mut all, fence_asked(outs));
    add(&mut all, outs.has_start().then_some(Event::StartAsked));
    add(&mut all, outs.has_stop().then_some(Event::StopAsked));
    add(&mut all, hold_told(before, after));
    add(&mut all, why_told(before, after));
    add(&mut all, halt_told(outs));
    all
}

fn add(all: &mut EventList, event: Option<Event>)
    requires { array_vec_len all.old < 11 }
    ensures items { all.new.items ≡ all.old.items ++ option_to_list event }
    ensures len { array_vec_len all.new ≤ array_vec_len all.old + 1 }
{
    if let Some(event) = event {
        all.push(event);
    }
}

/// What an entry says: a claim or a reset that was written, or a clean slot of a node outside the view.
fn came(after: &Standing, entry: What) -> Option<Event>
    ensures { result ≡ came after.now entry }
{
    match entry {
        What::Claimed(ok) => {
            let incarnation = after.incarnation?;
            ok.then_some(Event::Claimed { incarnation })
        }
        What::MailWritten(of, ok) => Some(Event::FenceWritten { of, ok }),
        What::SlotRead(of, seen) => {
            let clean = matches!(seen, SlotSeen::Read(slot) if slot.clean);
            (clean && is_outside(after.view, of)).then_some(Event::Licence { of })
        }
        What::Begin
        | What::BeginClean
        | What::Header(_)
        | What::MailChecked(_)
        | What::Cleared(_)
        | What::MailRead(_)
        | What::View(_)
        | What::Ask(_)
        | What::Tell(_)
        | What::Device(_)
        | What::Tick
        | What::Stopped(_)
        | What::Leave
        | What::Closed(_) => None,
    }
}

/// Another phase.
fn phase_told(before: &Standing, after: &Standing) -> Option<Event>
    ensures { result ≡ phase_told before.now after.now }
{
    let changed = !is_same_phase(before.phase, after.phase);
    changed.then_some(Event::Phase {
        from: before.phase,
        to: after.phase,
    })
}

/// Another view.
fn view_told(before: &Standing, after: &Standing) -> Option<Event>
    ensures { result ≡ view_told before.now after.now }
{
    let (number, view) = after.view?;
    let changed = installs(before.view) != number;
    changed.then_some(Event::View {
        view,
        answer: after.answer,
    })
}

/// The release from wait_for_all.
fn release_told(before: &Standing, after: &Standing) -> Option<Event>
    ensures { result ≡ release_told before.now after.now }
{
    (!before.answer.released && after.answer.released).then_some(Event::Released)
}

/// Quorum won or lost.
fn quorum_told(before: &Standing, after: &Standing) -> Option<Event>
    ensures { result ≡ quorum_told before.now after.now }
{
    let answer = after.answer;
    match change(before.answer.quorate, answer.quorate) {
        Some(true) => Some(Event::QuorumWon { answer }),
        Some(false) => Some(Event::QuorumLost { answer }),
        None => None,
    }
}

/// The resource won or lost.
fn hold_told(before: &Standing, after: &Standing) -> Option<Event>
    ensures { result ≡ hold_told before.now after.now }
{
    match change(before.holds, after.holds) {
        Some(true) => Some(Event::HoldWon),
        Some(false) => Some(Event::HoldLost),
        None => None,
    }
}

/// Another condition that blocks a start.
fn why_told(before: &Standing, after: &Standing) -> Option<Event>
    ensures { result ≡ why_told before.now after.now }
{
    let changed = !is_same_condition(before.why, after.why);
    changed.then_some(Event::Why { why: after.why })
}

/// The reset that is written next.
fn fence_asked(outs: &Outs) -> Option<Event>
    ensures { result ≡ fence_asked outs.now }
{
    let of = reset_of(outs.disk()?)?;
    Some(Event::FenceAsked { of })
}

/// The halt that comes next.
fn halt_told(outs: &Outs) -> Option<Event>
    ensures { result ≡ halt_told outs.now }
{
    let kind = halt_of(outs)?;
    Some(Event::Halt { kind })
}
