//! The outputs of a node that takes part, in the order of the definition.
ghost use Rattle.std.specs.Prelude.{◌≡◌, ◌≤◌, ◌<◌, ◌+◌, ◌∷◌, ◌++◌, ℕ, List, None, Some, length, nat_le, true, false, ◌&&◌, ◌||◌, ◌==◌, [], not, if◌then◌else◌};
ghost use Rattle.std.specs.Option.{option_map, option_map_or, option_or};
ghost use Rattle.qn_base.specs.Members.{is_member};
ghost use Rattle.qn_model.specs.declared.configuration.Settings.{Settings};
ghost use Rattle.qn_model.specs.declared.outputs.Out.{Out};
ghost use Rattle.qn_model.specs.Log.{Line, claim_of, disk_of, now, times_of};
ghost use Rattle.qn_fence.specs.Fence.{FenceFor, IsOutside, is_boot_end};
ghost use Rattle.qn_watch.specs.Watch.{WatchFor};
ghost use Rattle.qn_model.specs.NodeOutputs.{acts, ask_to, asks, gives_start, gives_stop, is_asked, is_asking, replies, taken_in};
ghost use Rattle.qn_model.specs.NodeVotes.{answer_with_tie, is_in_view, quorate_with_tie, released as is_released, view, votes};
ghost use Rattle.qn_model.specs.Phases.{phase};
ghost use Rattle.qn_model.specs.Unmet.{chosen, is_chosen, is_clear, is_given_away, is_none_chosen, lacks_of_others, least_rank, named, unmet};
ghost use Rattle.qn_model.specs.Votes.{view_tick};
ghost use Rattle.qn_model.specs.Wanted.{asks_mail, fence_delay, fencing_op_with_delay, may_fence, wanted_with_delay};
ghost use Rattle.qn_heard.specs.Heard.{HeardBefore, HeardFor, installs_of};
ghost use Rattle.qn_node.specs.Live.{LiveFor, LiveTook, lacks, live_phase, must_wait, with_outs};
ghost use Rattle.qn_node.specs.Resource.{after_outs, is_held};
ghost use Rattle.qn_node.specs.Tally.{TallyFor};

use super::Live;
use crate::laws::law_outside;
use crate::outputs::{push_if, push_op};
use crate::own::Own;
use crate::tally::Tally;
use qn_base::{Mask, Rank};
use qn_fence::Want;
use qn_model::{Answer, DiskOp, Out, Outs, Packet, What, Why};
use qn_watch::Watch;

/// The rank of no node: its id is 0.
const NOBODY: Rank = Rank(255);

impl Live {
    /// Gives the outputs of an entry, as it was read, that the node has taken in at this tick: Stop, Start,
    /// Feed where `feeds` says so, a Tell, Asks, a disk operation. `tally` has taken the entry in too.
    pub fn act(
        &mut self,
        own: &Own,
        tally: &Tally,
        tick: u64,
        what: What,
        feeds: bool,
        outs: &mut Outs,
    )
        requires { outs.old ≡ [] }
        ensures count { installs_of self.new.heard ≡ installs_of self.old.heard }
        ensures stands { (past : List Line)
            → LiveTook self.old own.now.settings own.now.me.0 past tick what
            → TallyFor tally.now own.now.settings (votes (taken_in past tick what))
            → LiveFor self.new own.now.settings own.now.me.0
            (with_outs past tick what
            (acts own.now.settings own.now.me.0 (taken_in past tick what) what feeds)) }
        ensures outs { (past : List Line)
            → LiveTook self.old own.now.settings own.now.me.0 past tick what
            → TallyFor tally.now own.now.settings (votes (taken_in past tick what))
            → outs.new ≡ acts own.now.settings own.now.me.0 (taken_in past tick what) what feeds }
    {
        qn_watch::law_other_lines();
        law_outside();
        let answer = tally.answer(own, tick);
        let asked = self.asks(tick, answer.released);
        let stops = self.gives_stop(own, tick, answer);
        let starts = self.gives_start(own, tick, answer);
        let holds = self.will_hold(starts);
        let op = self.wanted(own, tick, answer, tally.view_tick());
        push_if(outs, stops, Out::Stop);
        push_if(outs, starts, Out::Start);
        push_if(outs, feeds, Out::Feed);
        self.reply(what, holds, answer.released, outs);
        self.ask(own, asked, outs);
        push_op(outs, op);
        self.give(tick, stops, starts, op);
    }

    /// Whom the node asks at this tick, after it took in the tick's entry. A node that is leaving asks nobody.
    fn asks(&mut self, tick: u64, released: bool) -> Mask
        ensures rest { self.new ≡ record self.old { heard = self.new.heard } }
        ensures count { installs_of self.new.heard ≡ installs_of self.old.heard }
        ensures stands { (s : Settings) (me : ℕ) (log : List Line)
            → HeardBefore self.old.heard s me log
            → now log ≡ tick
            → phase s log ≡ live_phase self.old.leaving
            → HeardFor self.new.heard s me log }
        ensures whom { (s : Settings) (me : ℕ) (log : List Line)
            → HeardBefore self.old.heard s me log
            → now log ≡ tick
            → phase s log ≡ live_phase self.old.leaving
            → released ≡ is_released s log
            → (rank : ℕ) → rank < 32
            → is_member result rank ≡ (is_asking s log && is_asked s me log rank) }
    {
        if self.leaving {
            qn_heard::law_not_asking();
            Mask(0)
        } else {
            self.heard.asks(tick, released)
        }
    }

    /// Whether a Stop is to be given: the node holds, it is leaving, not quorate or its view gives the resource
    /// away, and no Stop is under way.
    fn gives_stop(&self, own: &Own, tick: u64, answer: Answer) -> bool
        ensures { (log : List Line)
            → LiveFor self.now own.now.settings own.now.me.0 log
            → now log ≡ tick
            → answer.quorate ≡ quorate_with_tie own.now.settings log tick
            → result ≡ gives_stop own.now.settings own.now.me.0 log }
    {
        self.resource.is_held()
            && (self.leaving || !answer.quorate || self.is_given_away(own))
            && self.resource.may_give_stop(self.loop_ms, tick)
    }

    /// Whether a Start is to be given: no condition blocks it.
    fn gives_start(&self, own: &Own, tick: u64, answer: Answer) -> bool
        ensures { (log : List Line)
            → LiveFor self.now own.now.settings own.now.me.0 log
            → now log ≡ tick
            → answer ≡ answer_with_tie own.now.settings log tick
            → result ≡ gives_start own.now.settings own.now.me.0 log }
    {
        is_clear(self.why(own, tick, answer))
    }

    /// Whether the node holds once a Start was given or not.
    fn will_hold(&self, starts: bool) -> bool
        ensures { result ≡ (starts || is_held self.now.resource) }
    {
        starts || self.resource.is_held()
    }

    /// The first condition that blocks a start of the resource at this tick, which is not below that of
    /// the last entry. `answer` is the count of votes at the tick, with the tie breaker.
    #[inline(always)]
    pub fn why(&self, own: &Own, tick: u64, answer: Answer) -> Why
        ensures { (log : List Line)
            → LiveFor self.now own.now.settings own.now.me.0 log
            → now log ≤ tick
            → answer ≡ answer_with_tie own.now.settings log tick
            → result ≡ unmet own.now.settings own.now.me.0 log tick }
    {
        if self.leaving {
            Why::Down
        } else if self.resource.is_held() {
            Why::Holding
        } else if self.heard.view().is_none() {
            Why::NoView
        } else if !answer.released {
            Why::WaitForAll
        } else if !answer.quorate {
            Why::NotQuorate {
                votes: answer.votes,
                quorum: answer.quorum,
            }
        } else {
            self.lacks(own, tick)
        }
    }

    /// What blocks a start of a node that is up and quorate.
    #[inline(always)]
    fn lacks(&self, own: &Own, tick: u64) -> Why
        ensures { (log : List Line)
            → LiveFor self.now own.now.settings own.now.me.0 log
            → now log ≤ tick
            → result ≡ lacks own.now.settings own.now.me.0 log tick }
    {
        match self.chosen(own) {
            Some(rank) if rank.0 == own.me.0 => self.lacks_of_others(own, tick),
            Some(rank) => Why::NotChosen {
                id: own.settings.id_of(rank),
            },
            None => Why::NotChosen {
                id: own.settings.id_of(NOBODY),
            },
        }
    }

    /// What of the other nodes blocks a start, once the node is quorate and chosen.
    #[inline(always)]
    fn lacks_of_others(&self, own: &Own, tick: u64) -> Why
        ensures { (log : List Line)
            → LiveFor self.now own.now.settings own.now.me.0 log
            → now log ≤ tick
            → result ≡ lacks_of_others own.now.settings own.now.me.0 log tick }
    {
        if let Some(rank) = self.heard.holder(own.count()) {
            return Why::HeldBy {
                id: own.settings.id_of(rank),
            };
        }
        if let Some(rank) = self.heard.unheard(own.count()) {
            return Why::Unheard {
                id: own.settings.id_of(rank),
            };
        }
        match self.fence.unfenced(tick) {
            Some(unfenced) => Why::Unfenced {
                id: own.settings.id_of(unfenced.rank),
                written: unfenced.written,
                left: unfenced.left,
            },
            None => Why::Clear,
        }
    }

    /// The chosen node: the member that the present view names, else its least member.
    fn chosen(&self, own: &Own) -> Option<Rank>
        ensures { (log : List Line)
            → LiveFor self.now own.now.settings own.now.me.0 log
            → option_map (λ rank. rank.0) result ≡ chosen own.now.settings log }
    {
        if self.is_barred() {
            None
        } else {
            self.named(own).or(self.least(own))
        }
    }

    /// Whether the present view says that none of its members may start.
    fn is_barred(&self) -> bool
        ensures { (s : Settings) (me : ℕ) (log : List Line)
            → LiveFor self.now s me log
            → result ≡ is_none_chosen log }
    {
        match self.heard.view() {
            Some(view) => view.is_barred(),
            None => false,
        }
    }

    /// The member that the present view names.
    fn named(&self, own: &Own) -> Option<Rank>
        ensures { (log : List Line)
            → LiveFor self.now own.now.settings own.now.me.0 log
            → option_map (λ rank. rank.0) result ≡ named own.now.settings log }
    {
        match self.heard.view() {
            Some(view) => view.named(own.count()),
            None => None,
        }
    }

    /// The least member of the present view.
    fn least(&self, own: &Own) -> Option<Rank>
        ensures { (log : List Line)
            → LiveFor self.now own.now.settings own.now.me.0 log
            → option_map (λ rank. rank.0) result
            ≡ least_rank own.now.settings (λ rank. is_in_view log rank) }
    {
        match self.heard.view() {
            Some(view) => view.members.first(own.count()),
            None => None,
        }
    }

    /// Whether the present view gives the resource away: it says that none of its members may start, or it names
    /// another one.
    fn is_given_away(&self, own: &Own) -> bool
        ensures { (log : List Line)
            → LiveFor self.now own.now.settings own.now.me.0 log
            → result ≡ is_given_away own.now.settings own.now.me.0 log }
    {
        self.is_barred() || self.names_other(own)
    }

    /// Whether the present view names another member.
    fn names_other(&self, own: &Own) -> bool
        ensures { (log : List Line)
            → LiveFor self.now own.now.settings own.now.me.0 log
            → result ≡ option_map_or (λ rank. not (rank == own.now.me.0)) (named own.now.settings log) false }
    {
        match self.named(own) {
            Some(rank) => rank.0 != own.me.0,
            None => false,
        }
    }

    fn is_chosen(&self, own: &Own) -> bool
        ensures { (log : List Line)
            → LiveFor self.now own.now.settings own.now.me.0 log
            → result ≡ is_chosen own.now.settings own.now.me.0 log }
    {
        match self.chosen(own) {
            Some(rank) => rank.0 == own.me.0,
            None => false,
        }
    }

    /// The next disk operation, where none is out. `since` is the tick of the last view.
    fn wanted(&self, own: &Own, tick: u64, answer: Answer, since: u64) -> Option<DiskOp>
        ensures { (log : List Line)
            → LiveFor self.now own.now.settings own.now.me.0 log
            → now log ≡ tick
            → answer.quorate ≡ quorate_with_tie own.now.settings log tick
            → since ≡ view_tick (votes log)
            → result ≡ wanted_with_delay own.now.settings own.now.me.0 log }
    {
        if self.op.is_some() {
            None
        } else if self.watch.due(tick) {
            Some(DiskOp::ReadMail)
        } else if self.may_close() {
            Some(DiskOp::WriteClose(self.incarnation))
        } else if self.may_fence(own, answer) {
            self.fencing(own, tick, since)
        } else {
            None
        }
    }

    /// Whether the node may mark its slot as clean: it is leaving and does not hold.
    fn may_close(&self) -> bool
        ensures { result ≡ (self.now.leaving && not (is_held self.now.resource)) }
    {
        self.leaving && !self.resource.is_held()
    }

    /// Whether the node may fence: it is up, quorate and chosen.
    fn may_fence(&self, own: &Own, answer: Answer) -> bool
        ensures { (log : List Line)
            → LiveFor self.now own.now.settings own.now.me.0 log
            → answer.quorate ≡ quorate_with_tie own.now.settings log (now log)
            → result ≡ may_fence own.now.settings own.now.me.0 log }
    {
        !self.leaving && answer.quorate && self.is_chosen(own)
    }

    /// The next operation of the fencing: a reset waits until its node's fence delay is over. `since` is the tick of
    /// the last view.
    fn fencing(&self, own: &Own, tick: u64, since: u64) -> Option<DiskOp>
        ensures { (log : List Line)
            → LiveFor self.now own.now.settings own.now.me.0 log
            → now log ≡ tick
            → since ≡ view_tick (votes log)
            → result ≡ fencing_op_with_delay own.now.settings log }
    {
        let want = self.fence.next();
        let waits = must_wait(own, want, tick, since);
        if waits { None } else { want.op() }
    }

    /// Gives the answer to an Ask, by what the node says of itself.
    fn reply(&self, what: What, holds: bool, released: bool, outs: &mut Outs)
        requires { length outs.old < 40 }
        ensures fits { length outs.new ≤ length outs.old + 1 }
        ensures value { (s : Settings) (me : ℕ) (log : List Line)
            → HeardFor self.now.heard s me log
            → released ≡ is_released s log
            → outs.new ≡ outs.old ++ replies s me holds log what }
    {
        if let What::Ask(ask) = what
            && let Some(tell) = self.heard.reply(&ask, holds, released)
        {
            outs.push(Out::Send(ask.from, Packet::Tell(tell)));
        }
    }

    /// Gives the Asks to these members, in ascending rank.
    fn ask(&self, own: &Own, asked: Mask, outs: &mut Outs)
        requires { length outs.old ≤ 4 }
        ensures fits { length outs.new ≤ length outs.old + 32 }
        ensures value { (me : ℕ) (log : List Line) (line : Line)
            → HeardFor self.now.heard own.now.settings me (line ∷ log)
            → claim_of (disk_of line.outs) ≡ None
            → ((rank : ℕ) → rank < 32 → is_member asked rank
            ≡ (is_asking own.now.settings (line ∷ log)
            && is_asked own.now.settings me (line ∷ log) rank))
            → outs.new ≡ outs.old ++ asks own.now.settings me (line ∷ log) }
    {
        qn_heard::law_asks_by_members();
        if asked.first(own.count()).is_none() {
            return;
        }
        for rank in 0..own.count() {
            self.ask_one(Rank(rank), asked, outs);
        }
    }

    /// Gives the Ask to a rank, where it is one of these members.
    fn ask_one(&self, rank: Rank, asked: Mask, outs: &mut Outs)
        requires { length outs.old < 40 }
        ensures fits { length outs.new ≤ length outs.old + 1 }
        ensures value { (s : Settings) (me : ℕ) (log : List Line) (line : Line)
            → HeardFor self.now.heard s me (line ∷ log)
            → claim_of (disk_of line.outs) ≡ None
            → outs.new ≡ outs.old ++ option_map_or
            (λ present. if is_member asked rank.0 then ask_to me (line ∷ log) present rank.0 ∷ []
            else [])
            (view (line ∷ log)) [] }
    {
        if !asked.has(rank) {
            return;
        }
        if let Some(ask) = self.heard.ask(rank) {
            outs.push(Out::Send(rank, Packet::Ask(ask)));
        }
    }

    /// Notes what was given at this tick.
    fn give(&mut self, tick: u64, stops: bool, starts: bool, op: Option<DiskOp>)
        ensures rest { self.new ≡ record self.old {
          op = option_or op self.old.op;
          resource = after_outs stops starts self.old.resource;
          watch = self.new.watch;
          fence = self.new.fence;
        } }
        ensures watches { (log : List Line) (line : Line)
            → WatchFor self.old.watch log
            → times_of line.what ≡ None
            → line.tick ≡ tick
            → disk_of line.outs ≡ op
            → WatchFor self.new.watch (line ∷ log) }
        ensures fences { (s : Settings) (log : List Line) (line : Line) (outs : List Out)
            → FenceFor self.old.fence s (line ∷ log)
            → is_boot_end line.what ≡ false
            → disk_of line.outs ≡ None
            → disk_of outs ≡ op
            → IsOutside (line ∷ log) op
            → FenceFor self.new.fence s (record line { outs = outs } ∷ log) }
    {
        self.resource = self.resource.after_outs(stops, starts);
        self.op = op.or(self.op);
        note_read(&mut self.watch, tick, op);
        self.fence.issued(Want::of(op));
    }
}

/// Whether the fencing waits at this tick: it wants to reset a node whose fence delay is not over.
fn must_wait(own: &Own, want: Want, tick: u64, since: u64) -> bool
    ensures { result
        ≡ must_wait (λ rank. nat_le (since + fence_delay own.now.settings rank) tick) want }
{
    match want {
        Want::WriteReset(rank) => !own.is_delay_over(rank, since, tick),
        Want::None | Want::ReadSlot(_) => false,
    }
}

/// Notes whether the own mailbox is asked for at this tick.
fn note_read(watch: &mut Watch, tick: u64, op: Option<DiskOp>)
    ensures { (log : List Line) (line : Line)
        → WatchFor watch.old log
        → times_of line.what ≡ None
        → line.tick ≡ tick
        → disk_of line.outs ≡ op
        → WatchFor watch.new (line ∷ log) }
{
    if !asks_mail(op) {
        qn_watch::law_other_lines();
        return;
    }
    watch.issued(tick);
}

/// Whether a disk operation is a read of the own mailbox.
fn asks_mail(op: Option<DiskOp>) -> bool
    ensures { result ≡ asks_mail op }
{
    matches!(op, Some(DiskOp::ReadMail))
}

/// Whether no condition blocks a start.
fn is_clear(why: Why) -> bool
    ensures { result ≡ is_clear why }
{
    matches!(why, Why::Clear)
}
