//! What is told of an arbiter that runs: its lines, and its status as one object of JSON, with its keys in alphabetical order.
use crate::text::Text;
use qn_base::{Mask, Rank};
use qn_event::{EventLine, EventName, Level, Moment};
use qn_model::Nodes;
use qn_safety::{Lease, Poll};

/// The most ranks.
const RANKS: usize = 32;

/// The most bytes of a list of members in a line; a longer one is cut.
const MEMBERS: usize = 200;

/// What a node polled last, and what it was answered.
#[derive(Clone, Copy)]
struct Polled {
    incarnation: u64,
    members: Mask,
    agrees: bool,
    /// The tick of the last yes.
    yes: Option<u64>,
}

/// What is known of an arbiter.
#[derive(Drop)]
pub(crate) struct ArbiterNews {
    times: Lease,
    booted: u64,
    ids: [u32; RANKS],
    count: usize,
    polled: [Option<Polled>; RANKS],
    yes: u64,
    no: u64,
}

impl ArbiterNews {
    /// An arbiter of which nothing is known.
    pub(crate) fn new() -> ArbiterNews {
        ArbiterNews {
            times: Lease { limit: 0, lease: 0 },
            booted: 0,
            ids: [0; RANKS],
            count: 0,
            polled: [None; RANKS],
            yes: 0,
            no: 0,
        }
    }

    /// It begins, with these times, as the arbiter of these nodes.
    pub(crate) fn begin(&mut self, nodes: &Nodes, times: Lease) {
        self.times = times;
        self.count = nodes.len().min(RANKS);
        for (place, node) in self.ids.iter_mut().zip(nodes.as_slice()) {
            *place = node.id.0;
        }
    }

    /// It boots at that tick: the line that says so.
    pub(crate) fn boot(&mut self, at: Moment, tick: u64) -> EventLine {
        self.booted = tick;
        let mut line = EventLine::new(at, Level::Notice, EventName::ArbiterOpen);
        line.number(b"lease", self.times.lease);
        line.number(b"limit", self.times.limit);
        line
    }

    /// It answered a poll at that tick: the line that says so, where the answer, the incarnation or the members are others than before.
    pub(crate) fn answer(
        &mut self,
        at: Moment,
        tick: u64,
        poll: &Poll,
        agrees: bool,
    ) -> Option<EventLine> {
        if agrees {
            self.yes = self.yes.saturating_add(1);
        } else {
            self.no = self.no.saturating_add(1);
        }
        let place = self.polled.get_mut(usize::from(poll.from.0))?;
        let last = *place;
        let now = Polled {
            incarnation: poll.incarnation,
            members: poll.view.members,
            agrees,
            yes: if agrees {
                Some(tick)
            } else {
                last.and_then(|last| last.yes)
            },
        };
        *place = Some(now);
        if last.is_some_and(|last| is_same(last, now)) {
            return None;
        }
        Some(self.vote_line(at, poll, agrees))
    }

    fn vote_line(&self, at: Moment, poll: &Poll, agrees: bool) -> EventLine {
        let mut line = EventLine::new(at, Level::Notice, EventName::Vote);
        line.number(b"id", self.id_of(usize::from(poll.from.0)));
        line.truth(b"answer", agrees);
        let mut view = Text::new();
        self.add_members(&mut view, poll.view.members);
        line.word(b"view", view.as_slice(), MEMBERS);
        line
    }

    /// The id of the node of that rank.
    fn id_of(&self, rank: usize) -> u64 {
        self.ids.get(rank).map_or(0, |id| u64::from(*id))
    }

    /// The ids of the members, with a comma between each two.
    fn add_members(&self, text: &mut Text, members: Mask) {
        let mut is_first = true;
        for rank in 0..RANKS {
            if members.has(Rank(rank as u8)) {
                if !is_first {
                    text.add(b",");
                }
                text.number(self.id_of(rank));
                is_first = false;
            }
        }
    }

    /// The status at that tick, with the end of its line, where so many packets were refused.
    pub(crate) fn status(&self, tick: u64, refused: u64) -> Text {
        let mut text = Text::new();
        text.add(b"{\"arbiter\":true,\"booted\":");
        text.number(self.booted);
        text.add(b",\"format\":1,\"lease\":");
        text.number(self.times.lease);
        text.add(b",\"limit\":");
        text.number(self.times.limit);
        text.add(b",\"no\":");
        text.number(self.no);
        text.add(b",\"nodes\":[");
        self.add_nodes(&mut text, tick);
        text.add(b"],\"polls\":");
        text.number(self.yes.saturating_add(self.no));
        text.add(b",\"refused\":");
        text.number(refused);
        text.add(b",\"tick\":");
        text.number(tick);
        text.add(b",\"waits\":");
        let until = self.booted.saturating_add(self.times.lease);
        text.number(until.saturating_sub(tick));
        text.add(b",\"yes\":");
        text.number(self.yes);
        text.add(b"}\n");
        text
    }

    /// Adds each node that polled.
    fn add_nodes(&self, text: &mut Text, tick: u64) {
        let mut is_first = true;
        for (rank, polled) in self.polled.iter().enumerate().take(self.count) {
            let Some(polled) = polled else {
                continue;
            };
            if !is_first {
                text.add(b",");
            }
            text.add(b"{\"id\":");
            text.number(self.id_of(rank));
            text.add(b",\"incarnation\":");
            text.number(polled.incarnation);
            text.add(b",\"view\":[");
            self.add_members(text, polled.members);
            text.add(b"],\"yes_age\":");
            text.maybe(polled.yes.map(|yes| tick.saturating_sub(yes)));
            text.add(b"}");
            is_first = false;
        }
    }
}

/// Whether nothing is to be told of a poll after another one.
fn is_same(last: Polled, now: Polled) -> bool {
    last.incarnation == now.incarnation
        && last.members.0 == now.members.0
        && last.agrees == now.agrees
}
