//! The outputs of an entry that was taken in.
ghost use Rattle.std.specs.Prelude.{◌≡◌, ◌<◌, ◌≤◌, ◌+◌, ◌++◌, length, None};
ghost use Rattle.qn_model.specs.NodeOutputs.{boot_outs, disk_outs, when};
ghost use Rattle.qn_model.specs.Phases.{boot_halt};
ghost use Rattle.qn_model.specs.Wanted.{boot_op};

use crate::entries::{deadly_of, feeds_on, is_begin, is_boot_step, message_of};
use crate::life::Life;
use crate::past::Past;
use crate::phases::{boot_halt, is_booting, is_leaving, is_live};
use qn_base::{Rank, View};
use qn_model::{Ask, DiskOp, HaltKind, Out, Outs, Packet, Phase, Settings, SlotSeen, Tell, What};

/// Adds an output where the test holds.
fn push_if(outs: &mut Outs, holds: bool, out: Out)
    requires { length outs.old < 40 }
    ensures adds { outs.new ≡ outs.old ++ when holds out }
    ensures room { length outs.new ≤ length outs.old + 1 }
{
    if holds {
        outs.push(out);
    }
}

/// Adds a disk operation where there is one.
fn push_op(outs: &mut Outs, op: Option<DiskOp>)
    requires { length outs.old < 40 }
    ensures { outs.new ≡ outs.old ++ disk_outs op }
{
    if let Some(op) = op {
        outs.push(Out::Disk(op));
    }
}

/// What comes out of an entry that was taken in while the node boots.
fn boot_outs(settings: &Settings, me: Rank, life: &Life, what: What) -> Outs
    requires { boot_halt settings.now what ≡ None → life.now.slot_number < u64.MAX }
    ensures { result ≡ boot_outs settings.now me.0 life.now.clean life.now.slot_number what }
{
    let mut outs = Outs::new();
    if is_boot_step(what) {
        match boot_halt(settings, what) {
            Some(cause) => outs.push(Out::Halt(HaltKind::Boot(cause))),
            None => {
                push_if(&mut outs, !is_begin(what), Out::Feed);
                push_op(&mut outs, boot_op(settings, me, life, what));
            }
        }
    }
    outs
}

/// The operation after a step of the boot that goes on.
fn boot_op(settings: &Settings, me: Rank, life: &Life, what: What) -> Option<DiskOp>
    requires goes_on { boot_halt settings.now what ≡ None }
    requires claimable { life.now.slot_number < u64.MAX }
    ensures { result ≡ boot_op me.0 life.now.clean life.now.slot_number what }
{
    match what {
        What::Begin | What::BeginClean => Some(DiskOp::ReadHeader),
        What::Header(_) => Some(DiskOp::ReadSlot(me)),
        What::SlotRead(..) if life.clean => Some(DiskOp::CheckMail),
        What::MailChecked(_) => Some(DiskOp::WriteClaim(life.slot_number + 1)),
        What::SlotRead(_, SlotSeen::Read(own)) => Some(DiskOp::WriteClaim(own.incarnation + 1)),
        What::Claimed(_) => Some(DiskOp::WriteClear),
        What::Cleared(_) => Some(DiskOp::ReadMail),
        What::SlotRead(_, SlotSeen::Damaged | SlotSeen::Failed)
        | What::MailRead(_)
        | What::MailWritten(..)
        | What::View(_)
        | What::Ask(_)
        | What::Tell(_)
        | What::Device(_)
        | What::Tick
        | What::Stopped(_)
        | What::Leave
        | What::Closed(_) => None,
    }
}

impl Past {
    ghost use Rattle.std.specs.Prelude.{◌≡◌, ◌<◌, ◌≤◌, ◌+◌, ◌++◌, ◌&&◌, length, IsTrue, None};
    ghost use Rattle.qn_plain.specs.Outputs.{acts_at, ask_of, asks_at_entry, asks_from, gives_stop_at, is_asked_of, live_outs_at, outs_after, replies_to, tell_to};
    ghost use Rattle.qn_model.specs.NodeOutputs.{feeds_on};
    ghost use Rattle.qn_model.specs.Phases.{boot_halt, deadly_of, is_booting, message_of};

    /// What comes out of an entry that was taken in, by the phase before it and whether it is in time.
    pub fn outs(
        &self,
        settings: &Settings,
        me: Rank,
        before: Phase,
        timely: bool,
        tick: u64,
        what: What,
    ) -> Outs
        requires { IsTrue (is_booting before)
            → boot_halt settings.now what ≡ None
            → self.now.life.slot_number < u64.MAX }
        ensures { result ≡ outs_after settings.now me.0 before timely tick what self.now }
    {
        if is_booting(before) {
            boot_outs(settings, me, &self.life, what)
        } else if is_live(before) {
            self.live_outs(settings, me, timely, tick, what)
        } else {
            Outs::new()
        }
    }

    /// What comes out of an entry while the node takes part.
    fn live_outs(&self, settings: &Settings, me: Rank, timely: bool, tick: u64, what: What) -> Outs
        ensures { result
            ≡ live_outs_at settings.now me.0 tick self.now what
            (feeds_on (message_of what) && timely) (deadly_of (message_of what)) }
    {
        let message = message_of(what);
        let mut outs = Outs::new();
        match (deadly_of(message), what) {
            (Some(deadly), _) => outs.push(Out::Halt(HaltKind::Deadly(deadly))),
            (None, What::Closed(_)) => outs.push(Out::Disarm),
            (None, _) => {
                let feeds = feeds_on(message) && timely;
                self.push_acts(&mut outs, settings, me, tick, what, feeds);
            }
        }
        outs
    }

    /// Adds a Stop, a Start, a Feed, a Tell, Asks and a disk operation, each where it is due.
    fn push_acts(
        &self,
        outs: &mut Outs,
        settings: &Settings,
        me: Rank,
        tick: u64,
        what: What,
        feeds: bool,
    )
        requires { length outs.old ≡ 0 }
        ensures { outs.new ≡ outs.old ++ acts_at settings.now me.0 tick self.now what feeds }
    {
        let starts = self.lack(settings, me, tick).is_nothing();
        push_if(outs, self.gives_stop(settings, me, tick), Out::Stop);
        push_if(outs, starts, Out::Start);
        push_if(outs, feeds, Out::Feed);
        self.push_reply(outs, me, starts || self.life.holds, what);
        self.push_asks(outs, settings, me);
        push_op(outs, self.wanted(settings, me, tick));
    }

    /// Whether a Stop is due: the node holds, it is leaving, not quorate or its view gives the resource away, and
    /// no Stop is under way.
    fn gives_stop(&self, settings: &Settings, me: Rank, tick: u64) -> bool
        ensures { result ≡ gives_stop_at settings.now me.0 tick self.now }
    {
        self.life.holds
            && (is_leaving(self.life.phase)
                || !self.is_quorate(settings, tick)
                || self.is_given_away(settings, me, tick))
            && self.life.may_stop(tick)
    }

    /// Adds the answer to an Ask of another member under the present view.
    fn push_reply(&self, outs: &mut Outs, me: Rank, holds: bool, what: What)
        requires { length outs.old ≤ 3 }
        ensures adds { outs.new ≡ outs.old ++ replies_to me.0 holds self.now what }
        ensures room { length outs.new ≤ length outs.old + 1 }
    {
        if let What::Ask(ask) = what {
            let answers = self.is_shown(ask.view) && ask.view.members.has(ask.from);
            push_if(outs, answers, self.reply(me, holds, &ask));
        }
    }

    fn reply(&self, me: Rank, holds: bool, ask: &Ask) -> Out
        ensures { result ≡ tell_to me.0 holds self.now ask.now }
    {
        Out::Send(
            ask.from,
            Packet::Tell(Tell {
                from: me,
                to: ask.from,
                incarnation: ask.incarnation,
                install: ask.install,
                view: ask.view,
                holds,
                released: self.votes.released,
            }),
        )
    }

    /// Adds the Asks of an asking moment, in ascending rank.
    fn push_asks(&self, outs: &mut Outs, settings: &Settings, me: Rank)
        requires { length outs.old ≤ 4 }
        ensures adds { outs.new ≡ outs.old ++ asks_at_entry settings.now me.0 self.now }
        ensures room { length outs.new ≤ length outs.old + 32 }
    {
        match self.votes.view {
            Some(present) if self.life.asks => self.push_asks_under(outs, settings, me, present),
            _ => {}
        }
    }

    fn push_asks_under(&self, outs: &mut Outs, settings: &Settings, me: Rank, present: View)
        requires { length outs.old ≤ 4 }
        ensures adds { outs.new
            ≡ outs.old ++ asks_from me.0 self.now present 0 (length settings.now.nodes) }
        ensures room { length outs.new ≤ length outs.old + 32 }
    {
        let count = settings.nodes.len() as u8;
        for rank in 0..count {
            let asked = self.is_asked(me, Rank(rank));
            push_if(outs, asked, self.ask(me, Rank(rank), present));
        }
    }

    /// Whether a rank is asked at an asking moment: another member that is not free, or any other member
    /// while the node is not released.
    fn is_asked(&self, me: Rank, rank: Rank) -> bool
        requires { rank.0 < 32 }
        ensures { result ≡ is_asked_of me.0 self.now rank.0 }
    {
        let peer = self.peers[usize::from(rank.0)];
        self.is_in(rank) && rank.0 != me.0 && (!self.votes.released || !peer.free)
    }

    /// The Ask to a rank under a view.
    fn ask(&self, me: Rank, to: Rank, present: View) -> Out
        ensures { result ≡ ask_of me.0 self.now present to.0 }
    {
        Out::Send(
            to,
            Packet::Ask(Ask {
                from: me,
                to,
                incarnation: self.life.claimed.unwrap_or(0),
                install: self.installs,
                view: present,
            }),
        )
    }
}
