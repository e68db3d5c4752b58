//! The name, the level and the words of an event.
ghost use Rattle.std.specs.Prelude.{◌≡◌, ◌≤◌, ◌+◌, ◌++◌, ◌∷◌, [], codes, decimal, length, if◌then◌else◌};
ghost use Rattle.qn_model.specs.Settings.{ids};
ghost use Rattle.qn_names.specs.MemberWords.{member_word};
ghost use Rattle.qn_names.specs.WhyTexts.{why_text};
ghost use Rattle.qn_told.specs.Events.{answer_words, candidate_of, cause_text, event_line, failed_words, level_of, name_of, named_answer_words, words_of};
ghost use Rattle.qn_event.specs.WholeLines.{text, with_words};

use arrayvec::ArrayVec;
use qn_base::{Mask, NodeId, Rank, View, add, add_number};
use qn_event::{EventLine, EventName, Level, Moment};
use qn_model::{Answer, HaltKind, Nodes, Why};
use qn_names::{cause_number, phase_name, write_why};
use qn_notice::Event;

/// The most bytes of a list of members in a line; a longer one is cut.
const MEMBERS: usize = 250;

/// The most bytes of a list of members: 32 numbers of at most 20 digits, with a comma each.
const LIST: usize = 672;

/// The numbers of views without a name, which stands in the high byte.
const NAMES: u64 = 1 << 56;

/// The line of an event, of a node of these, where msgwait is so long in milliseconds.
pub fn event_line(at: Moment, nodes: &Nodes, msgwait: u64, event: &Event) -> EventLine
    ensures { result ≡ event_line at nodes.now msgwait event.now }
{
    let mut line = EventLine::new(at, level_of(event), name_of(event));
    add_words(&mut line, nodes, msgwait, event);
    line
}

/// Adds the words of an event.
fn add_words(line: &mut EventLine, nodes: &Nodes, msgwait: u64, event: &Event)
    ensures head { line.new.head ≡ line.old.head }
    ensures level { line.new.level ≡ line.old.level }
    ensures words { line.new.words
        ≡ with_words line.old.words (words_of nodes.now msgwait event.now) }
{
    match *event {
        Event::Phase { from, to } => {
            let (from, to) = (phase_name(from).as_bytes(), phase_name(to).as_bytes());
            line.word(b"from", from, from.len());
            line.word(b"to", to, to.len());
        }
        Event::Claimed { incarnation } => line.number(b"incarnation", incarnation),
        Event::View { view, answer } => {
            line.number(b"view", view.id % NAMES);
            let members = member_list(nodes, view.members);
            line.word(b"members", members.as_slice(), MEMBERS);
            add_named_answer(line, candidate_of(nodes, view), &answer);
        }
        Event::QuorumWon { answer } | Event::QuorumLost { answer } => add_answer(line, &answer),
        Event::Why { why } => add_why(line, &why),
        Event::FenceAsked { of } => line.number(b"of", u64::from(nodes.id_of(of).0)),
        Event::FenceWritten { of, ok } => {
            line.number(b"of", u64::from(nodes.id_of(of).0));
            line.truth(b"ok", ok);
            line.number(b"msgwait", msgwait);
        }
        Event::Licence { of } => {
            line.number(b"of", u64::from(nodes.id_of(of).0));
            line.word(b"by", b"clean-slot", 10);
        }
        Event::StartAnswered { ok } | Event::StopAnswered { ok } | Event::DisarmAnswered { ok } =>
            line.truth(b"ok", ok),
        Event::Halt { kind } => add_cause(line, kind),
        Event::Released | Event::StartAsked | Event::StopAsked | Event::HoldWon | Event::HoldLost =>
            {}
    }
}

/// The id of the node that a view names as the one that may start, 0 where none may; None where it names none.
fn candidate_of(nodes: &Nodes, view: View) -> Option<u64>
    ensures { result ≡ candidate_of nodes.now view }
{
    if view.is_barred() {
        return Some(0);
    }
    let name = view.id / NAMES;
    if 0 < name && name <= nodes.len() as u64 && view.members.has(Rank((name - 1) as u8)) {
        Some(u64::from(nodes.id_of(Rank((name - 1) as u8)).0))
    } else {
        None
    }
}

/// Adds whom a view names, where it names anybody, and the count of the votes.
fn add_named_answer(line: &mut EventLine, candidate: Option<u64>, answer: &Answer)
    ensures head { line.new.head ≡ line.old.head }
    ensures level { line.new.level ≡ line.old.level }
    ensures words { line.new.words
        ≡ with_words line.old.words (named_answer_words candidate answer.now) }
{
    match candidate {
        Some(id) => {
            line.number(b"candidate", id);
            add_answer(line, answer);
        }
        None => add_answer(line, answer),
    }
}

/// Adds how many stops failed before the one that the line tells of, where one did.
pub fn add_failed(line: &mut EventLine, failed: u64)
    ensures head { line.new.head ≡ line.old.head }
    ensures level { line.new.level ≡ line.old.level }
    ensures words { line.new.words ≡ with_words line.old.words (failed_words failed) }
{
    if failed > 0 {
        line.number(b"count", failed);
    }
}

/// The name of an event.
fn name_of(event: &Event) -> EventName
    ensures { result ≡ name_of event.now }
{
    match event {
        Event::Phase { .. } => EventName::Phase,
        Event::Claimed { .. } => EventName::Claimed,
        Event::View { .. } => EventName::View,
        Event::Released => EventName::Released,
        Event::QuorumWon { .. } => EventName::QuorumWon,
        Event::QuorumLost { .. } => EventName::QuorumLost,
        Event::Why { .. } => EventName::Why,
        Event::FenceAsked { .. } => EventName::FenceAsked,
        Event::FenceWritten { .. } => EventName::FenceWritten,
        Event::Licence { .. } => EventName::Licence,
        Event::StartAsked => EventName::StartAsked,
        Event::StopAsked => EventName::StopAsked,
        Event::StartAnswered { .. } => EventName::Start,
        Event::StopAnswered { .. } => EventName::Stop,
        Event::DisarmAnswered { .. } => EventName::Disarm,
        Event::HoldWon => EventName::HoldWon,
        Event::HoldLost => EventName::HoldLost,
        Event::Halt { .. } => EventName::Halt,
    }
}

/// The level of an event.
fn level_of(event: &Event) -> Level
    ensures { result ≡ level_of event.now }
{
    match *event {
        Event::Phase { .. }
        | Event::Claimed { .. }
        | Event::View { .. }
        | Event::Released
        | Event::QuorumWon { .. }
        | Event::StartAsked
        | Event::StopAsked
        | Event::HoldWon
        | Event::HoldLost => Level::Notice,
        Event::QuorumLost { .. } | Event::FenceAsked { .. } => Level::Warning,
        Event::Why { .. } | Event::Licence { .. } => Level::Information,
        Event::FenceWritten { ok, .. } => if ok { Level::Warning } else { Level::Error },
        Event::StartAnswered { ok } | Event::DisarmAnswered { ok } => if ok {
            Level::Notice
        } else {
            Level::Error
        },
        Event::StopAnswered { ok } => if ok { Level::Notice } else { Level::Warning },
        Event::Halt { .. } => Level::Error,
    }
}

/// The ids of the members, with a comma between each two.
fn member_list(nodes: &Nodes, members: Mask) -> ArrayVec<u8, LIST>
    ensures { result.items ≡ member_word (ids nodes.now) members }
{
    let mut list = ArrayVec::new();
    let mut is_first = true;
    for (rank, node) in nodes.as_slice().iter().enumerate() {
        if members.contains(Rank(rank as u8)) {
            add_member(&mut list, is_first, node.id);
            is_first = false;
        }
    }
    list
}

/// Adds the id of a member, after a comma where it is not the first.
fn add_member(list: &mut ArrayVec<u8, LIST>, is_first: bool, id: NodeId)
    requires { length list.old.items + 21 ≤ 672 }
    ensures text { list.new.items ≡ list.old.items
        ++ (if is_first then decimal id.0 else 44 ∷ decimal id.0) }
    ensures len { length list.new.items ≤ length list.old.items + 21 }
{
    if !is_first {
        add(list, b",");
    }
    add_number(list, u64::from(id.0));
}

/// Adds the count of the votes.
fn add_answer(line: &mut EventLine, answer: &Answer)
    ensures head { line.new.head ≡ line.old.head }
    ensures level { line.new.level ≡ line.old.level }
    ensures words { line.new.words ≡ with_words line.old.words (answer_words answer.now) }
{
    line.truth(b"quorate", answer.quorate);
    line.number(b"votes", answer.votes);
    line.number(b"quorum", answer.quorum);
    line.number(b"expected", answer.expected);
}

/// Adds the condition that blocks a start.
fn add_why(line: &mut EventLine, why: &Why)
    ensures head { line.new.head ≡ line.old.head }
    ensures level { line.new.level ≡ line.old.level }
    ensures words { line.new.words
        ≡ with_words line.old.words (text (codes "why") (why_text why.now) ∷ []) }
{
    let mut condition = ArrayVec::new();
    write_why(why, &mut condition);
    line.word(b"why", condition.as_slice(), condition.len());
}

/// Adds why a node halts: a deadly message by its name, or `boot-` and the number of a cause.
fn add_cause(line: &mut EventLine, kind: HaltKind)
    ensures head { line.new.head ≡ line.old.head }
    ensures level { line.new.level ≡ line.old.level }
    ensures words { line.new.words
        ≡ with_words line.old.words (text (codes "cause") (cause_text kind) ∷ []) }
{
    match kind {
        HaltKind::Deadly(message) => {
            let name = message.name().as_bytes();
            line.word(b"cause", name, name.len());
        }
        HaltKind::Boot(cause) => {
            let mut text = ArrayVec::<u8, 32>::new();
            add(&mut text, b"boot-");
            add_number(&mut text, cause_number(cause));
            line.word(b"cause", text.as_slice(), text.len());
        }
    }
}
