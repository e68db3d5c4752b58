//! What a node that takes part sends to the others, and its view maker.
ghost use Rattle.std.specs.Prelude.{◌≡◌, ◌<◌, ◌≤◌, ◌+◌, IfSome, length, option_map, option_and_then, true};
ghost use Rattle.qn_live.specs.Greetings.{farewell_after, first_greeting, greeting_after, greeting_packet, hello_of, is_due, maker_begun, maker_where};
ghost use Rattle.qn_member.specs.NamingViews.{after_naming_hello_due, view_announced};

use crate::live_end::LiveEnd;
use crate::place::Greeting;
use crate::words::Own;
use qn_base::{Rank, View};
use qn_member::NamingMember;
use qn_model::{Packet, Settings};

/// Makes the view maker of a node that takes part where there is none yet, by what the node says of itself, and takes it away from
/// one that does not.
pub fn keep_member(
    member: &mut Option<NamingMember>,
    live: bool,
    settings: &Settings,
    me: Rank,
    loop_ms: u64,
    own: Own,
)
    ensures { member.new ≡ maker_where live (maker_begun settings.now me.0 loop_ms own) member.old }
{
    if !live {
        *member = None;
    } else if member.is_none() {
        *member = Some(member_begun(settings, me, loop_ms, own));
    }
}

fn member_begun(settings: &Settings, me: Rank, loop_ms: u64, own: Own) -> NamingMember
    ensures { result ≡ maker_begun settings.now me.0 loop_ms own }
{
    let mut member = NamingMember::new(settings, me, loop_ms);
    member.stand(own.said, own.holds);
    member
}

/// Whether a Hello is due at this tick.
pub fn hello_due(member: &mut Option<NamingMember>, tick: u64) -> bool
    ensures due { result ≡ is_due tick member.old }
    ensures after { member.new ≡ option_map (after_naming_hello_due tick) member.old }
{
    match member {
        Some(member) => member.hello_due(tick),
        None => false,
    }
}

/// The first greeting of a turn: a Hello, where one is due.
pub fn first_greeting(due: bool, member: &Option<NamingMember>) -> Option<Greeting>
    ensures { result ≡ first_greeting due member.now }
{
    match member {
        Some(member) if due => Some(hello_of(member)),
        Some(_) | None => None,
    }
}

fn hello_of(member: &NamingMember) -> Greeting
    ensures { result ≡ hello_of member.now }
{
    Greeting::Hello {
        said: member.says(),
        standing: member.standing(),
    }
}

/// The greeting that follows another one.
pub fn greeting_after(greeting: Greeting, member: &Option<NamingMember>) -> Option<Greeting>
    ensures { result ≡ greeting_after greeting member.now }
{
    match greeting {
        Greeting::Hello { .. } => match announced(member) {
            Some(view) => Some(Greeting::Announce(view)),
            None => None,
        },
        Greeting::Announce(_) => None,
    }
}

fn announced(member: &Option<NamingMember>) -> Option<View>
    ensures { result ≡ option_and_then view_announced member.now }
{
    match member {
        Some(member) => member.announces(),
        None => None,
    }
}

/// The view of the farewell after this end: that of the view maker of a node that left clean.
pub fn farewell(end: LiveEnd, member: &Option<NamingMember>) -> Option<View>
    ensures view { result ≡ farewell_after end member.now }
    ensures clean { IfSome result (λ view. end ≡ LiveEnd.Left true) }
{
    match end {
        LiveEnd::Left { clean: true } => match member {
            Some(member) => member.farewell(),
            None => None,
        },
        LiveEnd::Left { clean: false }
        | LiveEnd::Turns { .. }
        | LiveEnd::ClockBack { .. }
        | LiveEnd::SelfReset(_)
        | LiveEnd::BootHalted(_) => None,
    }
}

/// The packet of a greeting of that rank.
pub fn greeting_packet(me: Rank, greeting: Greeting) -> Packet
    ensures { result ≡ greeting_packet me.0 greeting }
{
    match greeting {
        Greeting::Hello { said, standing } => Packet::Heard {
            from: me,
            said,
            standing,
        },
        Greeting::Announce(view) => Packet::Announce { from: me, view },
    }
}
