//! The running node as a machine: it names its next call, and takes the answer of that call.
ghost use Rattle.std.specs.Prelude.{◌≤◌, ◌+◌};
ghost use Rattle.qn_node.specs.Node.{steps_of};
ghost use Rattle.qn_live.specs.Places.{pending};

use crate::asked::{Asked, Given, Room};
use crate::choosing::{
    answered_at, choose, failed_answer, heard_request, look, look_after, loop_after, ready,
};
use crate::decoded::{Decoded, came_in};
use crate::greeting::{
    farewell, first_greeting, greeting_after, greeting_packet, hello_due, keep_member,
};
use crate::live_end::LiveEnd;
use crate::outputs::{self, end_in, operation_in, waits_after};
use crate::place::{Choice, Greeting, Place, Waits};
use crate::polling::{ask_poll, fresh, has_lost, hear_entry, is_view, wait_until};
use crate::standing::Standing as Stand;
use crate::words::{Own, Words};
use qn_base::{Rank, View};
use qn_member::NamingMember;
use qn_model::{DiskOp, Entry, Outs, Phase, Settings, What};
use qn_node::Node;
use qn_polls::{Poller, Standing};
use qn_safety::Poll;
use qn_wire::put_packet;

/// A running node that waits for the answer of its next call, or whose run is over.
#[derive(Drop)]
pub struct NodeRun {
    settings: Settings,
    me: Rank,
    leave_at: Option<u64>,
    node: Node,
    /// The view maker, where the node takes part.
    member: Option<NamingMember>,
    /// The loop's time of the header that was read, in milliseconds.
    loop_ms: u64,
    /// The tick of the last entry.
    tick: u64,
    waits: Waits,
    /// Whether the last entry was a failed answer of the disk, so that the turn after it takes none.
    rests: bool,
    /// The tick of the last look of the view maker, or of the last entry while there is none.
    last_look: u64,
    /// Whether the host of the node has asked it to leave.
    asked: bool,
    /// What the host of the node says of it.
    words: Words,
    /// What the node polls its arbiter with, where it has one, and the tick from which on it does.
    poller: Option<Poller>,
    polls_from: u64,
    /// The number of the present turn, from 1, and how many turns follow it.
    turn: u64,
    after: u64,
    /// The last entry, and its outputs.
    entry: What,
    outs: Outs,
    place: Place,
    ghost few_turns: { turn + after ≤ 18446744073709551615 },
    ghost enough_steps: { pending place + after ≤ steps_of node },
}

impl NodeRun {
    ghost use Rattle.std.specs.Prelude.{◌≡◌, ◌<◌, ◌-◌, ◌*◌, ◌==◌, ℕ, List, [], Some, All, IfOk, OnOk, IfErr, IfSome, IfNone, length, slice_get, false, true, option_map, if◌then◌else◌};
    ghost use Rattle.qn_base.specs.declared.calls.Call.{Call};
    ghost use Rattle.qn_base.specs.Calls.{blank};
    ghost use Rattle.qn_base.specs.Plans.{Plan, question, left};
    ghost use Rattle.qn_io.specs.Receives.{FitsPacket};
    ghost use Rattle.qn_model.specs.declared.outputs.DiskOp.{DiskOp};
    ghost use Rattle.qn_model.specs.declared.outputs.Out.{Out};
    ghost use Rattle.qn_model.specs.Log.{Line};
    ghost use Rattle.qn_model.specs.Phases.{is_live, phase};
    ghost use Rattle.qn_model.specs.Settings.{IsValid};
    ghost use Rattle.qn_node.specs.Outputs.{IsNodeOutput};
    ghost use Rattle.qn_live.specs.Asking.{IsServed, IsWithin, is_look, question_of, Tells};
    ghost use Rattle.qn_live.specs.Choosing.{is_late, is_to_leave, own_of};
    ghost use Rattle.qn_live.specs.Decoding.{decoded_of, decoded_out};
    ghost use Rattle.qn_live.specs.Greetings.{farewells, greeting_call, hellos_where, others_from, to_send};
    ghost use Rattle.qn_live.specs.Machine.{SameBeside, EndsWith, HasMore, IsStanding, IsUnderWay, KeepsEntry, RunFor, Stands, TookIn, acting, begun, clocking, ending, looks_next, next_of, operation_of, parting, saying, settling, state_of, work};
    ghost use Rattle.qn_live.specs.Halts.{is_on_disk};
    ghost use Rattle.qn_live.specs.Performing.{disk_answer, disk_call, noted, out_call, own_number};
    ghost use Rattle.qn_live.specs.Places.{calls_of_greeting};
    ghost use Rattle.qn_live.specs.Polling.{poll_call, poll_due, polled, polls_after, shown};
    ghost use Rattle.qn_polls.specs.Poller.{standing_of};
    ghost use Rattle.qn_node.specs.Node.{NodeFor};
    ghost use Rattle.qn_model.specs.NodeVotes.{view};
    ghost use Rattle.qn_live.specs.Running.{Ran};
    ghost use Rattle.qn_live.specs.Runs.{live_plan, turns_end};
    ghost use Rattle.qn_live.specs.Standings.{standing};

    /// A run of that many turns of the node of that rank; `clean` says that its boot is a clean start, and `leave_at` is
    /// the number of the turn from which on it is to leave.
    pub fn new(
        settings: Settings,
        me: Rank,
        clean: bool,
        leave_at: Option<u64>,
        polls: Option<u64>,
        turns: u64,
    ) -> NodeRun
        requires valid { IsValid settings }
        requires configured { me.0 < length settings.nodes }
        requires some_turn { 1 ≤ turns }
        ensures runs { RunFor result (live_plan settings me.0 clean leave_at polls turns) }
        ensures settings { result.settings ≡ settings }
        ensures rank { result.me ≡ me }
    {
        let node = Node::new(&settings, me);
        NodeRun {
            settings,
            me,
            leave_at,
            node,
            member: None,
            loop_ms: 0,
            tick: 0,
            waits: Waits {
                stopped: None,
                disk: None,
            },
            rests: false,
            last_look: 0,
            asked: false,
            words: Words::none(),
            poller: fresh(polls),
            polls_from: 0,
            turn: 1,
            after: turns - 1,
            entry: What::Tick,
            outs: Outs::new(),
            place: Place::Now(Choice::Whole(What::begin(clean))),
        }
    }

    /// The last entry that the node took: what its last turn began with. Before the first tick `Tick`.
    pub fn entry(&self) -> What
        ensures { result ≡ self.now.entry }
    {
        self.entry
    }

    /// The outputs of the last entry, in their order: the calls that the run makes next are theirs.
    pub fn outs(&self) -> &Outs
        ensures { result.now ≡ self.now.outs }
    {
        &self.outs
    }

    /// The tick of the last entry, in milliseconds.
    pub fn tick(&self) -> u64
        ensures { result ≡ self.now.tick }
    {
        self.tick
    }

    /// The settings that the node runs under.
    pub fn settings(&self) -> &Settings
        ensures { result.now ≡ self.now.settings }
    {
        &self.settings
    }

    /// The rank of the node in its settings.
    pub fn rank(&self) -> Rank
        ensures { result ≡ self.now.me }
    {
        self.me
    }

    /// The loop's time of the header that was read, in milliseconds; 0 before.
    pub fn loop_ms(&self) -> u64
        ensures { result ≡ self.now.loop_ms }
    {
        self.loop_ms
    }

    /// Where the node stands after its last entry, at the tick of that entry.
    pub fn standing(&self) -> Stand
        ensures { (log : List Line)
            → Stands self.now log
            → result ≡ standing self.now.settings self.now.me.0 log }
    {
        Stand::of(&self.node, self.tick)
    }

    /// The call that comes next, whose bytes are put into the room, or how the run ended.
    pub fn asks(&self, room: &mut Room) -> Result<Asked, LiveEnd>
        requires under_way { IsUnderWay self.now }
        ensures asked { IfOk result (λ asked. (plan : Plan Ran)
            → RunFor self.now plan
            → question plan ≡ Some (question_of asked room.new)) }
        ensures within { IfOk result IsWithin }
        ensures served { IfOk result IsServed }
        ensures work { OnOk result (0 < work self.now) }
        ensures looks { IfOk result (λ asked. is_look asked ≡ looks_next self.now) }
        ensures over { IfErr result
            (λ end. (plan : Plan Ran) → RunFor self.now plan → EndsWith plan end) }
    {
        match self.place {
            Place::Receive => Ok(Asked::Receive),
            Place::Now(_) => Ok(Asked::Now),
            Place::Act { at } => Ok(self.ask_output(at, room)),
            Place::Poll { poll, .. } => Ok(ask_poll(&poll, room)),
            Place::Greet { greeting, to } => Ok(self.ask_greeting(greeting, to, room)),
            Place::Part { view, to } => Ok(self.ask_greeting(Greeting::Announce(view), to, room)),
            Place::Over(end) => Err(end),
        }
    }

    fn ask_output(&self, at: usize, room: &mut Room) -> Asked
        requires standing { IsStanding self.now }
        requires at { at < length self.now.outs }
        requires ranks { All (IsNodeOutput self.now.settings) self.now.outs }
        ensures asked { (log : List Line) (out : Out)
            → Stands self.now log
            → slice_get self.now.outs at ≡ Some out
            → question_of result room.new
            ≡ out_call self.now.settings self.now.me.0 (own_number log) out }
        ensures within { IsWithin result }
        ensures served { IsServed result }
        ensures looks { is_look result ≡ false }
    {
        let incarnation = self.node.incarnation().unwrap_or(0);
        outputs::ask(
            &self.settings,
            self.me,
            incarnation,
            self.outs.get(at),
            room,
        )
    }

    fn ask_greeting(&self, greeting: Greeting, to: u8, room: &mut Room) -> Asked
        requires rank { to < 32 }
        ensures asked { question_of result room.new ≡ greeting_call self.now.me.0 greeting to }
        ensures within { IsWithin result }
        ensures served { IsServed result }
    {
        put_packet(&greeting_packet(self.me, greeting), &mut room.sent);
        Asked::Send { to: Rank(to) }
    }

    /// Takes the answer of the call that was asked for, with its bytes in the room, and goes on to the next call. An entry is
    /// taken in at each look at the clock that did not go back, and at no other call. It gives what the bytes are.
    pub fn answer(&mut self, given: Given, room: &Room) -> Decoded
        requires under_way { IsUnderWay self.old }
        requires fits { FitsPacket given.got }
        ensures runs { (plan : Plan Ran) (call : Call)
            → RunFor self.old plan
            → Tells call given room.now
            → question plan ≡ Some (blank call)
            → RunFor self.new (left plan call) }
        ensures work { 0 < work self.old → work self.new < work self.old }
        ensures settings { self.new.settings ≡ self.old.settings }
        ensures rank { self.new.me ≡ self.old.me }
        ensures took { (log : List Line)
            → Stands self.old log
            → looks_next self.old ≡ true
            → self.old.tick ≤ given.tick
            → TookIn self.new log given.tick }
        ensures back { looks_next self.old ≡ true
            → given.tick < self.old.tick
            → KeepsEntry self.old self.new }
        ensures keeps { looks_next self.old ≡ false → KeepsEntry self.old self.new }
        ensures decoded { result ≡ decoded_of self.old given room.now }
    {
        match self.place {
            Place::Receive => {
                let came = came_in(given.got, &room.packet);
                self.asked = heard_request(self.asked, came);
                self.words = self.words.after(self.tick, came.word);
                let polls = self.poller.is_some();
                self.place = Place::Now(choose(self.me, polls, came.packet, came.reply));
                Decoded::Came(came)
            }
            Place::Now(choice) => {
                self.at_tick(choice, given.tick);
                Decoded::Nothing
            }
            Place::Act { at } => self.performed(at, given, room),
            Place::Poll { greets, .. } => {
                self.greet_or_finish(greets);
                Decoded::Nothing
            }
            Place::Greet { greeting, to } => {
                self.greet(greeting, to + 1);
                Decoded::Nothing
            }
            Place::Part { view, to } => {
                self.part(view, to + 1);
                Decoded::Nothing
            }
            Place::Over(_) => Decoded::Nothing,
        }
    }

    /// The disk operation whose call comes next, where it is that of one. A handler of more images than one makes calls of
    /// its own for it, and gives its answer by `perform`.
    pub fn operation(&self) -> Option<DiskOp>
        requires under_way { IsUnderWay self.now }
        ensures { result ≡ operation_of self.now }
    {
        match self.place {
            Place::Act { at } => operation_in(self.outs.get(at)),
            Place::Receive
            | Place::Now(_)
            | Place::Poll { .. }
            | Place::Greet { .. }
            | Place::Part { .. }
            | Place::Over(_) => None,
        }
    }

    /// Takes the answer of the disk operation that comes next, in place of its call, and goes on to the next call.
    pub fn perform(&mut self, answer: What)
        requires under_way { IsUnderWay self.old }
        ensures runs { (plan : Plan Ran) (op : DiskOp) (call : Call)
            → RunFor self.old plan
            → operation_of self.old ≡ Some op
            → disk_answer self.old.settings op call ≡ answer
            → RunFor self.new (left plan call) }
        ensures work { (op : DiskOp)
            → operation_of self.old ≡ Some op
            → work self.new < work self.old }
        ensures settings { self.new.settings ≡ self.old.settings }
        ensures rank { self.new.me ≡ self.old.me }
        ensures keeps { KeepsEntry self.old self.new }
    {
        match self.place {
            Place::Act { at } => {
                self.waits = Waits {
                    stopped: self.waits.stopped,
                    disk: Some(answer),
                };
                self.act(at + 1);
            }
            Place::Receive
            | Place::Now(_)
            | Place::Poll { .. }
            | Place::Greet { .. }
            | Place::Part { .. }
            | Place::Over(_) => {}
        }
    }

    /// The clock was looked at: what was chosen becomes an entry at that tick.
    fn at_tick(&mut self, choice: Choice, tick: u64)
        requires standing { IsStanding self.old }
        requires pending { pending self.old.place ≡ 1 }
        ensures runs { (log : List Line)
            → Stands self.old log
            → RunFor self.new (clocking self.old log choice tick) }
        ensures work { work self.new < 192 * self.old.after + 190 }
        ensures settings { self.new.settings ≡ self.old.settings }
        ensures rank { self.new.me ≡ self.old.me }
        ensures took { (log : List Line)
            → Stands self.old log
            → self.old.tick ≤ tick
            → TookIn self.new log tick }
        ensures back { tick < self.old.tick → KeepsEntry self.old self.new }
    {
        if tick < self.tick {
            self.place = Place::Over(LiveEnd::ClockBack {
                before: self.tick,
                now: tick,
            });
            return;
        }
        let choice = answered_at(tick, &self.poller, choice);
        self.last_look = look_after(choice, &self.member, tick, self.last_look);
        self.words = self.words.at(tick, self.loop_ms, self.node.holds());
        let own = self.own();
        let what = look(&mut self.member, own, choice, tick);
        self.place = Place::Act { at: 0 };
        self.tick = tick;
        self.entry = what;
        self.loop_ms = loop_after(what, self.loop_ms);
        self.polls_from = self.polls_after(what, tick);
        hear_entry(&mut self.poller, what);
        self.rests = failed_answer(what);
        self.node.step(Entry { tick, what }, &mut self.outs);
        self.act(0);
    }

    /// The output of that place was performed. It gives what the bytes are that it read.
    fn performed(&mut self, at: usize, given: Given, room: &Room) -> Decoded
        requires at { at < length self.old.outs }
        requires few { at < 40 }
        ensures runs { (log : List Line) (out : Out) (call : Call)
            → Stands self.old log
            → All (IsNodeOutput self.old.settings) self.old.outs
            → slice_get self.old.outs at ≡ Some out
            → Tells call given room.now
            → blank call ≡ out_call self.old.settings self.old.me.0 (own_number log) out
            → RunFor self.new
            (acting self.old (noted self.old.settings out call (state_of self.old log)) (at + 1)) }
        ensures work { work self.new < 192 * self.old.after + 120 + (41 - at) }
        ensures settings { self.new.settings ≡ self.old.settings }
        ensures rank { self.new.me ≡ self.old.me }
        ensures keeps { KeepsEntry self.old self.new }
        ensures decoded { (out : Out)
            → slice_get self.old.outs at ≡ Some out
            → result ≡ decoded_out out given room.now }
    {
        let out = self.outs.get(at);
        let after = waits_after(&self.settings, self.waits, out, given, room);
        self.waits = after.0;
        self.act(at + 1);
        after.1
    }

    /// Goes on with the outputs from that place on.
    fn act(&mut self, at: usize)
        ensures runs { (log : List Line)
            → Stands self.old log
            → All (IsNodeOutput self.old.settings) self.old.outs
            → RunFor self.new (acting self.old (state_of self.old log) at) }
        ensures work { work self.new < 192 * self.old.after + 120 + (42 - at) }
        ensures settings { self.new.settings ≡ self.old.settings }
        ensures rank { self.new.me ≡ self.old.me }
        ensures keeps { KeepsEntry self.old self.new }
    {
        if at < self.outs.len() {
            self.place = Place::Act { at };
        } else {
            self.settle();
        }
    }

    /// All outputs were performed: the run is over, or a Hello is due, or the turn is over.
    fn settle(&mut self)
        ensures runs { (log : List Line)
            → Stands self.old log
            → RunFor self.new (settling self.old log) }
        ensures work { work self.new < 192 * self.old.after + 120 }
        ensures settings { self.new.settings ≡ self.old.settings }
        ensures rank { self.new.me ≡ self.old.me }
        ensures keeps { KeepsEntry self.old self.new }
    {
        if let Some(end) = end_in(self.entry, &self.outs) {
            self.leave(end);
            return;
        }
        let live = self.is_live();
        let own = self.own();
        keep_member(
            &mut self.member,
            live,
            &self.settings,
            self.me,
            self.loop_ms,
            own,
        );
        let greets = hello_due(&mut self.member, self.tick);
        match self.next_poll(greets) {
            Some(poll) => self.place = Place::Poll { poll, greets },
            None => self.greet_or_finish(greets),
        }
    }

    /// What the node says of itself.
    fn own(&self) -> Own
        ensures { (log : List Line)
            → Stands self.now log
            → result ≡ own_of (state_of self.now log) }
    {
        self.words.own(self.node.holds())
    }

    /// From when on the node polls after an entry at this tick, which it has not taken yet. After a view that has lost a node, one that
    /// does not hold gives one that holds a loop's time to poll first.
    fn polls_after(&self, entry: What, tick: u64) -> u64
        ensures { (log : List Line)
            → NodeFor self.now.node self.now.settings self.now.me.0 log
            → result ≡ polls_after tick self.now.loop_ms log entry self.now.polls_from }
    {
        let What::View(after) = entry else {
            return self.polls_from;
        };
        wait_until(
            has_lost(self.seen(), after),
            self.node.holds(),
            tick,
            self.loop_ms,
        )
    }

    /// The present view of the node.
    fn seen(&self) -> Option<View>
        ensures { (log : List Line)
            → NodeFor self.now.node self.now.settings self.now.me.0 log
            → result ≡ view log }
    {
        match self.node.present() {
            Some((_, view)) => Some(view),
            None => None,
        }
    }

    /// The poll of this turn, where one is due.
    fn next_poll(&mut self, greets: bool) -> Option<Poll>
        ensures poll { (log : List Line)
            → Stands self.old log
            → result ≡ poll_due self.old.settings self.old.me.0 greets self.old.entry
            (state_of self.old log) }
        ensures polled { (log : List Line)
            → Stands self.old log
            → state_of self.new log
            ≡ polled self.old.settings self.old.me.0 greets self.old.entry
            (state_of self.old log) }
        ensures only { SameBeside self.old self.new }
        ensures keeps { KeepsEntry self.old self.new }
    {
        if !(greets || is_view(self.entry)) || self.tick < self.polls_from {
            return None;
        }
        let at = self.shown()?;
        let Some(poller) = &mut self.poller else {
            return None;
        };
        if poller.count() == u64::MAX {
            return None;
        }
        Some(poller.poll(self.me, at))
    }

    /// What the node shows in a poll: None where it is not up or has no view.
    fn shown(&self) -> Option<Standing>
        ensures { (log : List Line)
            → Stands self.now log
            → option_map standing_of result ≡ shown self.now.settings log }
    {
        if !matches!(self.node.phase(), Phase::Up) {
            return None;
        }
        let (install, view) = self.node.present()?;
        Some(Standing {
            tick: self.tick,
            incarnation: self.node.incarnation().unwrap_or(0),
            install,
            view,
        })
    }

    /// Where a Hello is due it is sent, and the announcement after it; else the turn is over.
    fn greet_or_finish(&mut self, greets: bool)
        ensures runs { (log : List Line)
            → Stands self.old log
            → RunFor self.new (saying self.old log
            (hellos_where greets self.old.settings self.old.me.0 self.old.member)) }
        ensures work { work self.new < 192 * self.old.after + 115 }
        ensures settings { self.new.settings ≡ self.old.settings }
        ensures rank { self.new.me ≡ self.old.me }
        ensures keeps { KeepsEntry self.old self.new }
    {
        match first_greeting(greets, &self.member) {
            Some(hello) => self.greet(hello, 0),
            None => self.finish(),
        }
    }

    /// An output ended the run so: it is over, after the farewell of a node that left clean.
    fn leave(&mut self, end: LiveEnd)
        ensures runs { (log : List Line)
            → Stands self.old log
            → RunFor self.new (ending self.old log end) }
        ensures work { work self.new < 192 * self.old.after + 120 }
        ensures settings { self.new.settings ≡ self.old.settings }
        ensures rank { self.new.me ≡ self.old.me }
        ensures keeps { KeepsEntry self.old self.new }
    {
        match farewell(end, &self.member) {
            Some(view) => self.part(view, 0),
            None => self.place = Place::Over(end),
        }
    }

    /// Goes on with this farewell to the ranks from that one on.
    fn part(&mut self, view: View, from: u8)
        ensures runs { (log : List Line)
            → Stands self.old log
            → RunFor self.new (parting self.old log
            (farewells self.old.settings self.old.me.0 view from)) }
        ensures work { work self.new ≤ 33 - from }
        ensures settings { self.new.settings ≡ self.old.settings }
        ensures rank { self.new.me ≡ self.old.me }
        ensures keeps { KeepsEntry self.old self.new }
    {
        match self.other_from(from) {
            Some(to) => self.place = Place::Part { view, to },
            None => self.place = Place::Over(LiveEnd::Left { clean: true }),
        }
    }

    /// Whether the node takes part.
    fn is_live(&self) -> bool
        ensures { (log : List Line)
            → Stands self.now log
            → result ≡ is_live (phase self.now.settings log) }
    {
        match self.node.phase() {
            Phase::Up | Phase::Leaving => true,
            Phase::Booting | Phase::Dying | Phase::Gone => false,
        }
    }

    /// Goes on with this greeting to the ranks from that one on.
    fn greet(&mut self, greeting: Greeting, from: u8)
        ensures runs { (log : List Line)
            → Stands self.old log
            → RunFor self.new (saying self.old log
            (to_send self.old.settings self.old.me.0 self.old.member greeting from)) }
        ensures work { work self.new < 192 * self.old.after + 1 + calls_of_greeting greeting from }
        ensures settings { self.new.settings ≡ self.old.settings }
        ensures rank { self.new.me ≡ self.old.me }
        ensures keeps { KeepsEntry self.old self.new }
    {
        match self.next_greeting(greeting, from) {
            Some((greeting, to)) => self.place = Place::Greet { greeting, to },
            None => self.finish(),
        }
    }

    /// The greeting that comes next, and the rank that it goes to.
    fn next_greeting(&self, greeting: Greeting, from: u8) -> Option<(Greeting, u8)>
        ensures none { IfNone result
            (to_send self.now.settings self.now.me.0 self.now.member greeting from ≡ []) }
        ensures same { IfSome result (λ next.
            to_send self.now.settings self.now.me.0 self.now.member greeting from
            ≡ to_send self.now.settings self.now.me.0 self.now.member next.0 next.1) }
        ensures more { IfSome result (λ next.
            HasMore self.now.settings self.now.me.0 self.now.outs (Place.Greet next.0 next.1)) }
        ensures work { IfSome result
            (λ next. calls_of_greeting next.0 next.1 ≤ calls_of_greeting greeting from) }
    {
        if let Some(to) = self.other_from(from) {
            return Some((greeting, to));
        }
        let next = greeting_after(greeting, &self.member)?;
        let to = self.other_from(0)?;
        Some((next, to))
    }

    /// The least other configured rank from that one on.
    fn other_from(&self, from: u8) -> Option<u8>
        ensures none { IfNone result (others_from self.now.settings self.now.me.0 from ≡ []) }
        ensures same { IfSome result (λ to.
            others_from self.now.settings self.now.me.0 from
            ≡ others_from self.now.settings self.now.me.0 to) }
        ensures after { IfSome result (λ to. from ≤ to) }
        ensures within { IfSome result (λ to. to < length self.now.settings.nodes) }
        ensures other { IfSome result (λ to. (to == self.now.me.0) ≡ false) }
    {
        let count = self.settings.nodes.len() as u8;
        if from >= count {
            return None;
        }
        if from != self.me.0 {
            return Some(from);
        }
        if from + 1 < count {
            return Some(from + 1);
        }
        None
    }

    /// The turn is over: the next one begins, or the run is over.
    fn finish(&mut self)
        ensures runs { (log : List Line)
            → Stands self.old log
            → RunFor self.new (next_of self.old (state_of self.old log)) }
        ensures work { work self.new ≤ 192 * self.old.after }
        ensures settings { self.new.settings ≡ self.old.settings }
        ensures rank { self.new.me ≡ self.old.me }
        ensures keeps { KeepsEntry self.old self.new }
    {
        if self.after == 0 {
            self.place = Place::Over(self.turns_end());
            return;
        }
        self.after -= 1;
        self.turn += 1;
        self.begin();
    }

    /// How the run ends after its last turn.
    fn turns_end(&self) -> LiveEnd
        ensures { (log : List Line)
            → Stands self.now log
            → result ≡ turns_end self.now.settings self.now.me.0 log }
    {
        LiveEnd::Turns {
            phase: self.node.phase(),
            holds: self.node.holds(),
            answer: self.node.answer(self.tick),
            why: self.node.why(self.tick),
        }
    }

    /// Begins a turn, by its number.
    fn begin(&mut self)
        requires { 1 + self.old.after ≤ steps_of self.old.node }
        ensures runs { (log : List Line)
            → Stands self.old log
            → RunFor self.new (begun self.old log) }
        ensures work { work self.new ≤ 192 * self.old.after + 191 }
        ensures settings { self.new.settings ≡ self.old.settings }
        ensures rank { self.new.me ≡ self.old.me }
        ensures keeps { KeepsEntry self.old self.new }
    {
        match ready(self.is_to_leave(), self.rests, self.waits) {
            Some((entry, waits)) => {
                self.waits = waits;
                self.place = Place::Now(Choice::Whole(entry));
            }
            None => {
                if self.is_late() {
                    self.place = Place::Now(Choice::Open(None));
                } else {
                    self.place = Place::Receive;
                }
            }
        }
    }

    /// Whether the last look of the view maker is a loop ago or more, so that the turn takes no packet and looks.
    fn is_late(&self) -> bool
        ensures { (log : List Line)
            → Stands self.now log
            → result ≡ is_late (state_of self.now log) }
    {
        self.member.is_some() && self.tick.saturating_sub(self.last_look) >= self.loop_ms
    }

    /// Whether the node is to leave at the present turn: its host has asked it to, or the number of the turn has come.
    fn is_to_leave(&self) -> bool
        ensures { (log : List Line)
            → Stands self.now log
            → result ≡ is_to_leave self.now.settings self.now.leave_at self.now.turn
            (state_of self.now log) }
    {
        let has_come = match self.leave_at {
            Some(from) => from <= self.turn,
            None => false,
        };
        (self.asked || has_come) && matches!(self.node.phase(), Phase::Up)
    }
}
