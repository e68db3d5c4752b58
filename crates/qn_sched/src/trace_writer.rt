//! Writes the trace lines of a run, and keeps what the next line is likely to have too.
ghost use Rattle.std.specs.Prelude.{◌≡◌, ◌≤◌, ◌+◌, ◌++◌, Some, length};
ghost use Rattle.qn_model.specs.Settings.{ids};
ghost use Rattle.qn_sched.specs.TraceLines.{touched_text, trace_line};

use crate::holder::{Holder, holder_of};
use crate::kept_beginning::KeptBeginning;
use crate::kept_state::KeptState;
use crate::trace::{add_touched, add_untouched};
use arrayvec::ArrayVec;
use qn_base::Rank;
use qn_model::{Nodes, Report, Settings};

/// Writes trace lines, each the same as `write_trace` writes it. What it keeps is text of the lines before, and does not
/// change what it writes.
#[derive(Drop)]
pub struct TraceWriter {
    beginning: KeptBeginning,
    states: ArrayVec<KeptState, 32>,
}

impl TraceWriter {
    ghost use Rattle.qn_sched.specs.TraceLines.{holder_text, holders_text};

    /// A writer that keeps nothing yet.
    pub fn new() -> TraceWriter {
        TraceWriter {
            beginning: KeptBeginning::new(),
            states: ArrayVec::new(),
        }
    }

    /// Empties `into` and writes the trace line of the event of that number, without its end. The id of a rank that is
    /// not configured is 0.
    #[inline(always)]
    #[tactic(auto, unfolding(crate::specs::TraceLines::trace_line))]
    pub fn write(
        &mut self,
        number: u64,
        report: &Report,
        settings: &Settings,
        into: &mut ArrayVec<u8, 4096>,
    )
        ensures text { into.new.items ≡ trace_line (ids settings.now.nodes) number report.now }
        ensures fits { length into.new.items ≤ 4000 }
    {
        let nodes = &settings.nodes;
        into.clear();
        self.beginning.add(into, number, report.time);
        match report.touched {
            None => add_untouched(into, nodes, report, b"- -"),
            Some(rank) => self.add_touched(into, nodes, report, rank),
        }
    }

    /// Adds what stands after the time at an event of a node.
    #[inline(always)]
    fn add_touched(
        &mut self,
        into: &mut ArrayVec<u8, 4096>,
        nodes: &Nodes,
        report: &Report,
        rank: Rank,
    )
        requires { length into.old.items ≤ 100 }
        ensures text { into.new.items
            ≡ into.old.items ++ touched_text (ids nodes.now) report.now (Some rank) }
        ensures len { length into.new.items ≤ length into.old.items + 3000 }
    {
        match holder_of(nodes, report.holders) {
            Some(holder) => self.add_held(into, nodes, report, rank, holder),
            None => add_touched(into, nodes, report, rank),
        }
    }

    /// The same, where at most this one holds the resource.
    fn add_held(
        &mut self,
        into: &mut ArrayVec<u8, 4096>,
        nodes: &Nodes,
        report: &Report,
        rank: Rank,
        holder: Holder,
    )
        requires room { length into.old.items ≤ 100 }
        requires held { holders_text (ids nodes.now) report.now.holders ≡ holder_text holder }
        ensures text { into.new.items
            ≡ into.old.items ++ touched_text (ids nodes.now) report.now (Some rank) }
        ensures len { length into.new.items ≤ length into.old.items + 3000 }
    {
        let place = usize::from(rank.0);
        if place < self.states.len() {
            self.states[place].add(into, nodes, report, nodes.id_of(rank), holder);
        } else {
            self.add_first(into, nodes, report, rank);
        }
    }

    /// The same of a node of which nothing is kept, where there is room for one more from now on.
    #[inline(never)]
    fn add_first(
        &mut self,
        into: &mut ArrayVec<u8, 4096>,
        nodes: &Nodes,
        report: &Report,
        rank: Rank,
    )
        requires { length into.old.items ≤ 100 }
        ensures text { into.new.items
            ≡ into.old.items ++ touched_text (ids nodes.now) report.now (Some rank) }
        ensures len { length into.new.items ≤ length into.old.items + 3000 }
    {
        if !self.states.is_full() {
            self.states.push(KeptState::default());
        }
        add_touched(into, nodes, report, rank);
    }
}
