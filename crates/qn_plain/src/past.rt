//! What a whole history comes to, one entry after the other.
ghost use Rattle.std.specs.Prelude.{◌≡◌, ◌<◌, ℕ};
ghost use Rattle.qn_model.specs.Fitting.{is_for, is_own_view};
ghost use Rattle.qn_plain.specs.Past.{vote_said};
ghost use Rattle.qn_plain.specs.Peer.{peer_after, peer_at};

use crate::life::Life;
use crate::peer::{Peer, Reading};
use crate::phases::{is_live, is_up};
use crate::tally::Tally;
use qn_base::{Rank, View};
use qn_model::{Entry, Outs, Settings, Tell, VoteEntry, VoteWhat, What};

/// What a history comes to: of the node itself, of its votes, how many views were installed, and of each
/// rank.
#[derive(Clone, Copy)]
pub struct Past {
    pub life: Life,
    pub votes: Tally,
    pub installs: u64,
    pub peers: [Peer; 32],
}

impl Past {
    ghost use Rattle.std.specs.Prelude.{◌≡◌, ◌<◌, ◌≤◌, ℕ, suc, List, [], ◌∷◌, length};
    ghost use Rattle.qn_model.specs.Log.{Line};
    ghost use Rattle.qn_model.specs.NodeOutputs.{newest_outs, with_entry};
    ghost use Rattle.qn_model.specs.Fitting.{is_for, is_own_view};
    ghost use Rattle.qn_plain.specs.Life.{IsClaimable};
    ghost use Rattle.qn_plain.specs.Past.{PastFor, ResetsBy, TakesIn, fits_at, is_barred_in, is_in, is_named_in, is_shown, past_answers, read_at, reading_of};
    ghost use Rattle.qn_plain.specs.Peer.{peer_after, peer_at};

    /// What no entries come to.
    pub fn new(settings: &Settings) -> Self
        ensures stands { PastFor settings.now result [] }
        ensures resets { (tick : ℕ) → ResetsBy result tick }
    {
        // One place of `peers` for each node.
        let count = settings.nodes.len();
        prove!(count <= 32);
        Past {
            life: Life::new(settings),
            votes: Tally::new(settings),
            installs: 0,
            peers: [Peer::new(); 32],
        }
    }

    /// Takes in the next entry of a history, at its place, and says what comes out of it.
    pub fn add(&mut self, settings: &Settings, me: Rank, place: usize, entry: &Entry) -> Outs
        requires installs { self.old.installs < u64.MAX }
        requires claimable { IsClaimable self.old.life }
        ensures stands { (log : List Line)
            → place ≡ suc (length log)
            → PastFor settings.now self.old log
            → PastFor settings.now self.new (with_entry settings.now me.0 log entry.now) }
        ensures outs { (log : List Line)
            → place ≡ suc (length log)
            → PastFor settings.now self.old log
            → result ≡ newest_outs (with_entry settings.now me.0 log entry.now) }
        ensures resets { (tick : ℕ) → entry.now.tick ≤ tick → ResetsBy self.old tick
            → ResetsBy self.new tick }
    {
        let what = self.read(settings, me, place, entry.what);
        let before = self.life.phase;
        let timely = self.life.is_timely(entry.tick);
        let reading = self.reading(place, entry.tick, what);
        self.take_in(settings, &reading);
        let outs = self.outs(settings, me, before, timely, entry.tick, what);
        self.life = self.life.given(place, entry.tick, &outs);
        outs
    }

    /// An entry as it is read at a place: one that does not fit is a Tick.
    pub fn read(&self, settings: &Settings, me: Rank, place: usize, what: What) -> What
        ensures { result ≡ read_at settings.now me.0 place self.now what }
    {
        if self.fits(settings, me, place, what) {
            what
        } else {
            What::Tick
        }
    }

    fn fits(&self, settings: &Settings, me: Rank, place: usize, what: What) -> bool
        ensures { result ≡ fits_at settings.now me.0 place self.now what }
    {
        match what {
            What::Begin | What::BeginClean => place == 1,
            What::View(view) => is_live(self.life.phase) && is_own_view(settings, me, view),
            What::Ask(ask) => is_live(self.life.phase) && is_for(settings, me, ask.from, ask.to),
            What::Tell(tell) => is_live(self.life.phase)
                && is_for(settings, me, tell.from, tell.to),
            What::Device(_) => is_live(self.life.phase),
            What::Stopped(_) => self.life.stop_due,
            What::Leave => is_up(self.life.phase),
            What::Tick => true,
            What::Header(_)
            | What::SlotRead(..)
            | What::MailChecked(_)
            | What::Claimed(_)
            | What::Cleared(_)
            | What::MailRead(_)
            | What::MailWritten(..)
            | What::Closed(_) => what.answers(self.life.op),
        }
    }

    /// What is known of an entry as it was read.
    pub fn reading(&self, place: usize, tick: u64, what: What) -> Reading
        ensures { result ≡ reading_of place tick what self.now }
    {
        let answers = match what {
            What::Tell(tell) => self.answers(&tell),
            _ => false,
        };
        Reading {
            place,
            tick,
            what,
            asked: if what.is_answer() {
                self.life.ask_place
            } else {
                0
            },
            answers,
        }
    }

    /// Takes in an entry as it was read, before its outputs.
    pub fn take_in(&mut self, settings: &Settings, reading: &Reading)
        requires { self.old.installs < u64.MAX }
        ensures { TakesIn settings.now reading.now self.old self.new }
    {
        if reading.what.is_view() {
            self.installs += 1;
        }
        let vote = VoteEntry {
            tick: reading.tick,
            what: vote_said(reading.answers, reading.what),
        };
        self.votes.push(settings, &vote);
        self.life = self.life.taken(settings, reading.tick, reading.what);
        after_entry(&mut self.peers, reading);
    }

    /// Whether a Tell answers the entries so far: it carries their incarnation, install number and view.
    fn answers(&self, tell: &Tell) -> bool
        ensures { result ≡ past_answers self.now tell.now }
    {
        self.life.claimed == Some(tell.incarnation)
            && self.installs == tell.install
            && self.is_shown(tell.view)
    }

    /// Whether a view is the present one, by id and members.
    pub fn is_shown(&self, asked: View) -> bool
        ensures { result ≡ is_shown self.now.votes.view asked }
    {
        match self.votes.view {
            Some(own) => own.id == asked.id && own.members.0 == asked.members.0,
            None => false,
        }
    }

    /// Whether a rank is a member of the present view.
    pub fn is_in(&self, rank: Rank) -> bool
        ensures { result ≡ is_in self.now.votes.view rank.0 }
    {
        match self.votes.view {
            Some(view) => view.members.has(rank),
            None => false,
        }
    }

    /// Whether the present view says that none of its members may start.
    pub fn is_barred(&self) -> bool
        ensures { result ≡ is_barred_in self.now.votes.view }
    {
        match self.votes.view {
            Some(view) => view.is_barred(),
            None => false,
        }
    }

    /// Whether the present view names a rank.
    pub fn is_named(&self, rank: Rank) -> bool
        ensures { result ≡ is_named_in self.now.votes.view rank.0 }
    {
        match self.votes.view {
            Some(view) => view.names(rank),
            None => false,
        }
    }
}

/// What an entry is to the count of votes, by whether it is a Tell that answers.
fn vote_said(answers: bool, what: What) -> VoteWhat
    ensures { result ≡ vote_said answers what }
{
    match what {
        What::View(view) => VoteWhat::View(view),
        What::Device(agrees) => VoteWhat::Device(agrees),
        What::Tell(tell) if answers && tell.released => VoteWhat::Released,
        What::Begin
        | What::BeginClean
        | What::Header(_)
        | What::SlotRead(..)
        | What::MailChecked(_)
        | What::Claimed(_)
        | What::Cleared(_)
        | What::MailRead(_)
        | What::MailWritten(..)
        | What::Ask(_)
        | What::Tell(_)
        | What::Tick
        | What::Stopped(_)
        | What::Leave
        | What::Closed(_) => VoteWhat::Tick,
    }
}

/// Says an entry to each rank.
fn after_entry(peers: &mut [Peer; 32], reading: &Reading)
    ensures { (rank : ℕ) → rank < 32
        → peer_at peers.new rank ≡ peer_after rank reading.now (peer_at peers.old rank) }
{
    for rank in 0..32u8 {
        let place = usize::from(rank);
        peers[place] = peers[place].after(Rank(rank), reading);
    }
}

/// Whether the members of a view are configured and contain the node.
fn is_own_view(settings: &Settings, me: Rank, view: View) -> bool
    ensures { result ≡ is_own_view settings.now me.0 view }
{
    u64::from(view.members.0) < 1u64 << settings.nodes.len() && view.members.has(me)
}

/// Whether a packet goes to this node from another configured node.
fn is_for(settings: &Settings, me: Rank, from: Rank, to: Rank) -> bool
    ensures { result ≡ is_for settings.now me.0 from to }
{
    to.0 == me.0 && usize::from(from.0) < settings.nodes.len() && from.0 != me.0
}
