//! What an event of the nodes is to the arbiter and to its rules.
ghost use Rattle.std.specs.Prelude.{◌≡◌};
ghost use Rattle.qn_safety.specs.ArbiterRules.{is_yes_of_device, pass_of};

use qn_model::Event;

/// The true milliseconds that pass at an event; None where it is no pass.
pub(crate) fn pass_of(event: &Event) -> Option<u64>
    ensures { result ≡ pass_of event.now }
{
    match event {
        Event::Pass { dt, .. } => Some(*dt),
        Event::Boot(_, _) => None,
        Event::BootClean(_, _) => None,
        Event::Crash(_) => None,
        Event::Land(_) => None,
        Event::Done(_) => None,
        Event::Fail(_) => None,
        Event::Late(_, _) => None,
        Event::View(_, _) => None,
        Event::Deliver(_, _) => None,
        Event::Device(_, _) => None,
        Event::Tick(_) => None,
        Event::Stopped(_) => None,
        Event::Unstopped(_) => None,
        Event::Leave(_) => None,
        Event::Feed(_) => None,
        Event::Operator(_, _) => None,
    }
}

/// Whether the device says yes to a node at an event.
pub(crate) fn is_yes_of_device(event: &Event) -> bool
    ensures { result ≡ is_yes_of_device event.now }
{
    match event {
        Event::Device(_, agrees) => *agrees,
        Event::Pass { .. } => false,
        Event::Boot(_, _) => false,
        Event::BootClean(_, _) => false,
        Event::Crash(_) => false,
        Event::Land(_) => false,
        Event::Done(_) => false,
        Event::Fail(_) => false,
        Event::Late(_, _) => false,
        Event::View(_, _) => false,
        Event::Deliver(_, _) => false,
        Event::Tick(_) => false,
        Event::Stopped(_) => false,
        Event::Unstopped(_) => false,
        Event::Leave(_) => false,
        Event::Feed(_) => false,
        Event::Operator(_, _) => false,
    }
}
