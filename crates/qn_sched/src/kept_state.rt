//! What a trace line shows of a node beside its outputs, which seldom changes from one event to the next.
ghost use Rattle.std.specs.Prelude.{◌≡◌, ◌≤◌, ◌+◌, ◌++◌, length, codes};
ghost use Rattle.qn_sched.specs.TraceLines.{back_text, front_text};

use crate::holder::{Holder, add_holder};
use crate::trace::add_outs;
use arrayvec::ArrayVec;
use qn_base::{NodeId, add, add_number};
use qn_model::{Answer, Nodes, Outs, Report, Why};
use qn_names::{add_answer, add_why};
use std::marker::Model;

/// What a trace line shows of a node beside its outputs, with the text of it where there are none: the dash in their place
/// stands at the place `dash`.
#[derive(Drop)]
pub(crate) struct KeptState {
    id: NodeId,
    holder: Holder,
    answer: Answer,
    why: Why,
    dash: usize,
    text: ArrayVec<u8, 200>,
}

impl Model for KeptState {
    ghost use Rattle.std.specs.Prelude.{◌≡◌, ◌++◌, length, codes};
    ghost use Rattle.qn_base.specs.declared.ids.NodeId.{NodeId};
    ghost use Rattle.qn_model.specs.declared.life.Why.{Why};
    ghost use Rattle.qn_model.specs.declared.votes.Answer.{Answer};
    ghost use Rattle.qn_sched.specs.declared.holder.Holder.{Holder};
    ghost use Rattle.qn_sched.specs.TraceLines.{back_text, front_text};

    ghost Value = { (NodeId × Holder) × (Answer × Why) };

    ghost view = { λ k. ((k.id, k.holder), (k.answer, k.why)) };

    ghost invariant = { λ k.
        (k.text.items ≡ front_text k.id ++ (codes "-" ++ back_text k.holder k.answer k.why))
        × (k.dash ≡ length (front_text k.id)) };
}

impl KeptState {
    ghost use Rattle.std.specs.Prelude.{◌≡◌, ◌≤◌, ◌+◌, ◌++◌, length};
    ghost use Rattle.qn_model.specs.Settings.{ids};
    ghost use Rattle.qn_sched.specs.TraceLines.{back_text, front_text, outs_text};

    /// Adds what a report shows of a node of that id, which is known to be held by that one, and keeps it.
    pub(crate) fn add(
        &mut self,
        into: &mut ArrayVec<u8, 4096>,
        nodes: &Nodes,
        report: &Report,
        id: NodeId,
        holder: Holder,
    )
        requires { length into.old.items ≤ 100 }
        ensures text { into.new.items
            ≡ into.old.items
            ++ (front_text id ++ (outs_text (ids nodes.now) report.now.outs
            ++ back_text holder report.now.answer report.now.why)) }
        ensures len { length into.new.items ≤ length into.old.items + 3000 }
    {
        self.keep(id, holder, report);
        if report.outs.is_empty() {
            self.add_quiet(into, report, id, holder);
        } else {
            self.add_round(into, nodes, report, id, holder);
        }
    }

    /// Keeps what a report shows.
    fn keep(&mut self, id: NodeId, holder: Holder, report: &Report)
        ensures { self.new ≡ ((id, holder), (report.now.answer, report.now.why)) }
    {
        if id != self.id
            || holder != self.holder
            || report.answer != self.answer
            || report.why != self.why
        {
            self.rewrite(id, holder, report);
        }
    }

    /// The same, where something else was kept.
    #[inline(never)]
    fn rewrite(&mut self, id: NodeId, holder: Holder, report: &Report)
        ensures { self.new ≡ ((id, holder), (report.now.answer, report.now.why)) }
    {
        self.dash = write_state(&mut self.text, id, holder, &report.answer, &report.why);
        self.id = id;
        self.holder = holder;
        self.answer = report.answer;
        self.why = report.why;
    }

    /// Adds what is kept, where there are no outputs.
    fn add_quiet(&self, into: &mut ArrayVec<u8, 4096>, report: &Report, id: NodeId, holder: Holder)
        requires room { length into.old.items ≤ 100 }
        requires kept { self.now ≡ ((id, holder), (report.now.answer, report.now.why)) }
        ensures text { into.new.items
            ≡ into.old.items
            ++ (front_text id ++ (codes "-" ++ back_text holder report.now.answer report.now.why)) }
        ensures len { length into.new.items ≤ length into.old.items + 200 }
    {
        add(into, self.text.as_slice());
    }

    /// Adds what is kept, round these outputs.
    fn add_round(
        &self,
        into: &mut ArrayVec<u8, 4096>,
        nodes: &Nodes,
        report: &Report,
        id: NodeId,
        holder: Holder,
    )
        requires room { length into.old.items ≤ 100 }
        requires kept { self.now ≡ ((id, holder), (report.now.answer, report.now.why)) }
        ensures text { into.new.items
            ≡ into.old.items
            ++ (front_text id ++ (outs_text (ids nodes.now) report.now.outs
            ++ back_text holder report.now.answer report.now.why)) }
        ensures len { length into.new.items ≤ length into.old.items + 3000 }
    {
        let (front, rest) = self.text.as_slice().split_at(self.dash);
        add(into, front);
        add_outs(into, nodes, &report.outs);
        add(into, rest.split_at(1).1);
    }
}

impl Default for KeptState {
    /// That of a node that is off in a cluster without votes.
    fn default() -> KeptState {
        let answer = Answer {
            quorate: false,
            votes: 0,
            quorum: 0,
            expected: 0,
            released: false,
        };
        let mut text = ArrayVec::new();
        let dash = write_state(&mut text, NodeId(0), Holder::Nobody, &answer, &Why::Down);
        KeptState {
            id: NodeId(0),
            holder: Holder::Nobody,
            answer,
            why: Why::Down,
            dash,
            text,
        }
    }
}

/// Writes what a line without outputs shows of a node over `into`, and gives the place of the dash that stands for the outputs.
fn write_state(
    into: &mut ArrayVec<u8, 200>,
    id: NodeId,
    holder: Holder,
    answer: &Answer,
    why: &Why,
) -> usize
    ensures text { into.new.items
        ≡ front_text id ++ (codes "-" ++ back_text holder answer.now why.now) }
    ensures dash { result ≡ length (front_text id) }
{
    into.clear();
    add(into, b" ");
    add_number(into, u64::from(id.0));
    add(into, b" ");
    let dash = into.len();
    add(into, b"-");
    add(into, b" holders=");
    add_holder(into, holder);
    add_answer(into, answer);
    add(into, b" why=");
    add_why(into, why);
    dash
}
