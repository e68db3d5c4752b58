//! What the step of a group tells its supervisor, a line each.
ghost use Rattle.std.specs.Prelude.{◌≡◌, ◌≤◌, ◌+◌, ◌++◌, length};
ghost use Rattle.qn_supervisor.specs.Replies.{act_text, phase_text, phases_text, reply_text, told_text};

use crate::words::{answer_word, goal_word, phase_word, told_word, verb_word};
use qn_base::{ShortText, yes_no};
use qn_group::{Act, Answer, Goal, MOST, Phase, Told};

/// What is told after an event.
#[derive(Clone, Copy)]
pub enum Reply {
    /// What the asker is answered.
    Answer(Answer),
    /// A failure of the resource of that place is counted.
    Counted { at: usize },
    /// What is to be done.
    Act(Act),
    /// What is wanted of the group now.
    Goal(Goal),
    /// How the group stands.
    Told(Told),
}

/// The line of a reply, without its end.
pub fn reply_line(reply: &Reply) -> ShortText
    ensures { result ≡ reply_text reply.now }
{
    let mut line = ShortText::new();
    match *reply {
        Reply::Answer(answer) => {
            line.add(b"answer ");
            line.add(answer_word(answer).as_bytes());
        }
        Reply::Counted { at } => {
            line.add(b"counted ");
            line.add_number(at as u64);
        }
        Reply::Act(act) => add_act(&mut line, act),
        Reply::Goal(goal) => {
            line.add(b"goal ");
            line.add(goal_word(goal).as_bytes());
        }
        Reply::Told(told) => add_told(&mut line, told),
    }
    line
}

/// Adds what is to be done.
fn add_act(line: &mut ShortText, act: Act)
    requires { length line.old ≤ 200 }
    ensures { line.new ≡ line.old ++ act_text act }
{
    match act {
        Act::Run { at, verb } => {
            line.add(b"run ");
            line.add_number(at as u64);
            line.add(b" ");
            line.add(verb_word(verb).as_bytes());
        }
        Act::Kill { at } => {
            line.add(b"kill ");
            line.add_number(at as u64);
        }
        Act::Leave => line.add(b"leave"),
    }
}

/// Adds how the group stands: a word, the place of which it speaks, or `-`, and whether the group is as it should be.
fn add_told(line: &mut ShortText, told: Told)
    requires { length line.old ≤ 200 }
    ensures { line.new ≡ line.old ++ told_text told }
{
    line.add(b"told ");
    line.add(told_word(told.word).as_bytes());
    line.add(b" ");
    match told.at {
        Some(at) => line.add_number(at as u64),
        None => line.add(b"-"),
    }
    line.add(b" ");
    line.add(yes_no(told.is_fine));
}

/// The line of the phases of the resources, in the order of the file, without its end; of more than 16 that of the first 16.
pub fn phases_line(phases: &[Phase]) -> ShortText
    ensures { length phases.now ≤ 16 → result ≡ phases_text phases.now }
{
    let (first, _others) = phases.split_at(phases.len().min(MOST));
    let mut line = ShortText::new();
    line.add(b"phases");
    for phase in first {
        add_phase(&mut line, *phase);
    }
    line
}

/// Adds the word of a phase.
fn add_phase(line: &mut ShortText, phase: Phase)
    requires { length line.old ≤ 220 }
    ensures text { line.new ≡ line.old ++ phase_text phase }
    ensures len { length line.new ≤ length line.old + 12 }
{
    line.add(b" ");
    line.add(phase_word(phase).as_bytes());
}
