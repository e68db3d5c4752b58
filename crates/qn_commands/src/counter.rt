//! What the lines of `count` say so far, and what the next one writes.
ghost use Rattle.std.specs.Prelude.{◌≡◌, ◌+◌, ◌++◌, ◌≤◌, ◌==◌, length, IfOk, option_copied};
ghost use Rattle.std.specs.List.{list_any};
ghost use Rattle.qn_model.specs.CountText.{good_end, line_of, line_of_words, node_line, nothing_counted, text_of_line, view_line, view_text, with_line};
ghost use Rattle.qn_model.specs.Lines.{bad_line, words_of};
ghost use Rattle.qn_model.specs.Settings.{ids};
ghost use Rattle.qn_sched.specs.Words.{parts_left};
ghost use Rattle.qn_playback.specs.declared.output.TheConstants.{MOST_WAITING};
ghost use Rattle.qn_commands.specs.Counting.{HasRoom, HasRoomFor};

use qn_base::{MOST_EVENTS, MOST_LINE_BYTES, NodeId, ShortText, View, yes_no};
use qn_model::{CountLine, LineFault, NodeEntry, Nodes};
use qn_playback::Output;
use qn_sched::{first_part, number_between, read_members, two_words};
use std::marker::Model;

/// What the good lines so far say: their nodes, and how many lines and views there were.
#[derive(Drop)]
pub struct Counter {
    nodes: Nodes,
    expected: u64,
    lines: u64,
    views: u64,
}

impl Model for Counter {
    ghost use Rattle.std.specs.Prelude.{◌≡◌, ◌≤◌, ◌*◌, length};
    ghost use Rattle.qn_base.specs.declared.limits.TheConstants.{MOST_EVENTS};
    ghost use Rattle.qn_model.specs.CountText.{Counted, expected_of};

    ghost Value = { Counted };

    ghost view = { λ c. record { nodes = c.nodes; lines = c.lines; views = c.views } };

    ghost invariant = { λ c. (c.expected ≡ expected_of c.nodes) × (c.expected ≤ 65535 * length c.nodes) × (c.lines ≤ MOST_EVENTS) × (c.views ≤ c.lines) };
}

impl Counter {
    /// Nothing counted yet.
    pub fn new() -> Self
        ensures { result ≡ nothing_counted }
    {
        Counter {
            nodes: Nodes::new(),
            expected: 0,
            lines: 0,
            views: 0,
        }
    }

    /// What a whole line says, without its end.
    #[tactic(auto, unfolding(qn_model::specs::CountText::line_of))]
    pub fn judge(&self, line: &[u8]) -> Result<CountLine, LineFault>
        ensures line { result ≡ line_of self.now line.now }
        ensures room { IfOk result (HasRoom self.now) }
    {
        if line.len() > MOST_LINE_BYTES {
            return Err(LineFault::TooLong);
        }
        if self.lines == MOST_EVENTS {
            return Err(LineFault::TooMany);
        }
        line_of_words(&self.nodes, line)
    }

    /// Takes a good line in.
    #[tactic(auto, unfolding(qn_model::specs::CountText::with_line))]
    pub fn add(&mut self, line: CountLine)
        requires { HasRoom self.old line }
        ensures { self.new ≡ with_line self.old line }
    {
        self.lines += 1;
        match line {
            CountLine::Node(entry) => {
                self.expected += u64::from(entry.votes);
                self.nodes.push(entry);
            }
            CountLine::View(_) => self.views += 1,
        }
    }
}

impl Counter {
    /// Gives out what a good line writes, where there is room for 256 bytes.
    #[tactic(auto, unfolding(qn_model::specs::CountText::text_of_line))]
    pub fn write_line(&self, line: &CountLine, output: &mut Output)
        requires { length output.old + 256 ≤ MOST_WAITING }
        ensures { output.new ≡ output.old ++ text_of_line self.now line.now }
    {
        match line {
            CountLine::Node(_) => {}
            CountLine::View(view) => self.write_view(view, output),
        }
    }

    /// Gives out what a view line writes, where there is room for 256 bytes.
    #[tactic(auto, unfolding(qn_model::specs::CountText::view_text))]
    fn write_view(&self, view: &View, output: &mut Output)
        requires { length output.old + 256 ≤ MOST_WAITING }
        ensures { output.new
            ≡ output.old ++ view_text self.now.nodes view.now.id view.now.members }
    {
        let votes = self.nodes.votes_among(view.members);
        let quorum = self.expected / 2 + 1;
        output.add(b"view ");
        output.add_number(view.id);
        output.add(b" votes ");
        output.add_number(votes);
        output.add(b" quorum ");
        output.add_number(quorum);
        output.add(b" quorate ");
        output.add(yes_no(quorum <= votes));
        output.add(b"\n");
    }

    /// What the end of an input writes in which every line was good.
    pub fn end_text(&self) -> ShortText
        ensures { result ≡ (good_end self.now).text }
    {
        let mut text = ShortText::new();
        text.add(b"end ");
        text.add_number(self.views);
        text.add(b"\n");
        text
    }

    /// What a fault of the line after the good ones writes.
    pub fn fault_text(&self, fault: LineFault) -> ShortText
        ensures { result ≡ (bad_line (self.now.lines + 1) fault).text }
    {
        let mut text = ShortText::new();
        text.add(b"fault BadSchedule line ");
        text.add_number(self.lines + 1);
        text.add(b" ");
        text.add(fault.name().as_bytes());
        text.add(b"\n");
        text
    }
}

/// A line by its first word.
#[tactic(auto, unfolding(qn_model::specs::CountText::line_of_words))]
fn line_of_words(nodes: &Nodes, line: &[u8]) -> Result<CountLine, LineFault>
    ensures line { result ≡ line_of_words nodes.now (words_of line.now) }
    ensures room { IfOk result (HasRoomFor nodes.now) }
{
    let (word, rest) = first_part(line, b' ');
    if word == b"node".as_slice() {
        node_line(nodes, rest)
    } else if word == b"view".as_slice() {
        view_line(nodes, rest)
    } else {
        Err(LineFault::UnknownWord)
    }
}

/// `node ID VOTES`: what is after the first word.
#[tactic(auto, unfolding(qn_model::specs::CountText::node_line))]
fn node_line(nodes: &Nodes, rest: Option<&[u8]>) -> Result<CountLine, LineFault>
    ensures line { result ≡ node_line nodes.now (parts_left 32 (option_copied rest.entry)) }
    ensures room { IfOk result (HasRoomFor nodes.now) }
{
    let (first, second) = two_words(rest)?;
    let id = number_between(1, 4_294_967_295, first)?;
    let votes = number_between(0, 65_535, second)?;
    if has_id(nodes, id) {
        return Err(LineFault::RepeatedNode);
    }
    if nodes.is_full() {
        return Err(LineFault::TooMany);
    }
    Ok(CountLine::Node(NodeEntry {
        id: NodeId(id as u32),
        votes: votes as u32,
        fence_delay: 0,
    }))
}

/// `view VID MEMBERS`: what is after the first word.
#[tactic(auto, unfolding(qn_model::specs::CountText::view_line))]
fn view_line(nodes: &Nodes, rest: Option<&[u8]>) -> Result<CountLine, LineFault>
    ensures line { result ≡ view_line nodes.now (parts_left 32 (option_copied rest.entry)) }
    ensures room { IfOk result (HasRoomFor nodes.now) }
{
    let (first, second) = two_words(rest)?;
    let id = number_between(0, u64::MAX, first)?;
    let members = read_members(nodes, second)?;
    Ok(CountLine::View(View { id, members }))
}

fn has_id(nodes: &Nodes, id: u64) -> bool
    ensures { result ≡ list_any (λ node. node.id.0 == id) nodes.now }
{
    nodes
        .as_slice()
        .iter()
        .any(|node| u64::from(node.id.0) == id)
}
