//! Writes the line of an event.
ghost use Rattle.std.specs.Prelude.{◌≡◌, ◌≤◌, ◌+◌, ◌*◌, ◌++◌, ◌∷◌, length, map, decimal, codes};
ghost use Rattle.std.specs.List.{join_with_byte};
ghost use Rattle.qn_base.specs.Text.{yes_no};
ghost use Rattle.qn_model.specs.Messages.{operator_word};
ghost use Rattle.qn_model.specs.Settings.{ids};
ghost use Rattle.qn_names.specs.MemberWords.{member_word};
ghost use Rattle.qn_sched.specs.EventLines.{clock_word, event_line, id_word};

use crate::text::{add_id, add_members};
use arrayvec::ArrayVec;
use qn_base::{Rank, View, add, add_number, yes_no};
use qn_model::{Clocks, Event, Message, Nodes, Settings};

/// Empties `into` and writes the line of an event, without its end. The id of a rank that is not configured
/// is 0.
pub fn write_line(event: &Event, settings: &Settings, into: &mut ArrayVec<u8, 4096>)
    ensures { into.new.items ≡ event_line (ids settings.now.nodes) event.now }
{
    into.clear();
    add_event(into, &settings.nodes, event);
}

/// Adds the line of an event.
#[tactic(auto, unfolding(crate::specs::EventLines::event_line))]
fn add_event(into: &mut ArrayVec<u8, 4096>, nodes: &Nodes, event: &Event)
    requires { length into.old.items ≤ 100 }
    ensures { into.new.items ≡ into.old.items ++ event_line (ids nodes.now) event.now }
{
    match event {
        Event::Pass { dt, clocks } => add_pass(into, nodes, *dt, clocks),
        Event::Boot(rank, base) => add_numbered(into, b"boot", nodes, *rank, *base),
        Event::BootClean(rank, base) => { add_numbered(into, b"boot-clean", nodes, *rank, *base) }
        Event::Crash(rank) => add_node(into, b"crash", nodes, *rank),
        Event::Land(rank) => add_node(into, b"land", nodes, *rank),
        Event::Done(rank) => add_node(into, b"done", nodes, *rank),
        Event::Fail(rank) => add_node(into, b"fail", nodes, *rank),
        Event::Late(rank, number) => add_numbered(into, b"late", nodes, *rank, *number),
        Event::View(rank, view) => add_view(into, nodes, *rank, *view),
        Event::Deliver(rank, number) => add_numbered(into, b"deliver", nodes, *rank, *number),
        Event::Device(rank, agrees) => add_device(into, nodes, *rank, *agrees),
        Event::Tick(rank) => add_node(into, b"tick", nodes, *rank),
        Event::Stopped(rank) => add_node(into, b"stopped", nodes, *rank),
        Event::Unstopped(rank) => add_node(into, b"unstopped", nodes, *rank),
        Event::Leave(rank) => add_node(into, b"leave", nodes, *rank),
        Event::Feed(rank) => add_node(into, b"feed", nodes, *rank),
        Event::Operator(rank, message) => add_operator(into, nodes, *rank, *message),
    }
}

/// Adds a word and the id of a node.
fn add_node(into: &mut ArrayVec<u8, 4096>, word: &[u8], nodes: &Nodes, rank: Rank)
    requires { length into.old.items + length word.now ≤ 1000 }
    ensures text { into.new.items
        ≡ into.old.items ++ (word.now ++ 32 ∷ id_word (ids nodes.now) rank) }
    ensures len { length into.new.items ≤ length into.old.items + length word.now + 21 }
{
    add(into, word);
    add(into, b" ");
    add_id(into, nodes, rank);
}

/// Adds a word, the id of a node, and a number.
fn add_numbered(into: &mut ArrayVec<u8, 4096>, word: &[u8], nodes: &Nodes, rank: Rank, number: u64)
    requires { length into.old.items + length word.now ≤ 1000 }
    ensures text { into.new.items
        ≡ into.old.items
        ++ (word.now ++ 32 ∷ (id_word (ids nodes.now) rank ++ 32 ∷ decimal number)) }
    ensures len { length into.new.items ≤ length into.old.items + length word.now + 42 }
{
    add_node(into, word, nodes, rank);
    add(into, b" ");
    add_number(into, number);
}

/// Adds the line of a view.
fn add_view(into: &mut ArrayVec<u8, 4096>, nodes: &Nodes, rank: Rank, view: View)
    requires { length into.old.items ≤ 100 }
    ensures { into.new.items ≡ into.old.items
        ++ (codes "view"
        ++ 32 ∷ (id_word (ids nodes.now) rank
        ++ 32 ∷ (decimal view.id ++ 32 ∷ member_word (ids nodes.now) view.members))) }
{
    add_numbered(into, b"view", nodes, rank, view.id);
    add(into, b" ");
    add_members(into, b',', nodes, view.members);
}

/// Adds the line of a device.
fn add_device(into: &mut ArrayVec<u8, 4096>, nodes: &Nodes, rank: Rank, agrees: bool)
    requires { length into.old.items ≤ 100 }
    ensures { into.new.items
        ≡ into.old.items
        ++ (codes "device" ++ 32 ∷ (id_word (ids nodes.now) rank ++ 32 ∷ yes_no agrees)) }
{
    add_node(into, b"device", nodes, rank);
    add(into, b" ");
    add(into, yes_no(agrees));
}

/// Adds the line of an operator's message.
fn add_operator(into: &mut ArrayVec<u8, 4096>, nodes: &Nodes, rank: Rank, message: Message)
    requires { length into.old.items ≤ 100 }
    ensures { into.new.items ≡ into.old.items
        ++ (codes "operator" ++ 32 ∷ (id_word (ids nodes.now) rank ++ 32 ∷ operator_word message)) }
{
    add_node(into, b"operator", nodes, rank);
    add(into, b" ");
    add(into, message.operator_word().as_bytes());
}

/// Adds the line of a pass.
fn add_pass(into: &mut ArrayVec<u8, 4096>, nodes: &Nodes, dt: u64, clocks: &Clocks)
    requires { length into.old.items ≤ 100 }
    ensures { into.new.items
        ≡ into.old.items
        ++ join_with_byte 32
        (codes "pass" ∷ decimal dt ∷ map (clock_word (ids nodes.now)) clocks.now) }
{
    add(into, b"pass ");
    add_number(into, dt);
    let clocks = clocks.as_slice();
    'clocks: for (rank, advance) in clocks {
        add(into, b" ");
        add_id(into, nodes, *rank);
        add(into, b"=");
        add_number(into, *advance);
    }
}
