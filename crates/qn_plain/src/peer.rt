//! What a history says of one other rank.
use crate::spans::has_passed;
use qn_base::Rank;
use qn_model::{SlotSeen, What};

/// An entry of a history as it was read, by what a node knows when it comes. The place of an entry is the
/// number of entries up to it.
#[derive(Clone, Copy)]
pub struct Reading {
    pub place: usize,
    pub tick: u64,
    pub what: What,
    /// Where it is an answer of the disk: the place of the entry that asked for it; else 0.
    pub asked: usize,
    /// Whether it is a Tell that answers the entries before it.
    pub answers: bool,
}

/// What a history says of one rank. Places are 0 where there was no such entry.
#[derive(Clone, Copy)]
pub struct Peer {
    /// The place after which the rank's out-time begins.
    pub out_since: usize,
    /// Where the last read that gave a clean slot was asked for.
    pub clean_asked: usize,
    /// Where the last read that gave a slot or damaged bytes was asked for.
    pub seen_asked: usize,
    /// Where the last reset that was written was asked for, and the tick at which it was written.
    pub reset_asked: usize,
    pub reset_tick: u64,
    /// Whether a Tell since the last view says that it does not hold.
    pub free: bool,
    /// Whether a Tell came since the last view.
    pub told: bool,
}

impl Peer {
    ghost use Rattle.std.specs.Prelude.{◌≡◌, ◌≤◌};
    ghost use Rattle.qn_plain.specs.Peer.{no_peer, peer_after, peer_is_clean, peer_is_fenced, peer_is_held, peer_is_seen, peer_is_written, peer_left, peer_read, peer_viewed};

    /// What no entries say.
    pub fn new() -> Self
        ensures { result ≡ no_peer }
    {
        Peer {
            out_since: 0,
            clean_asked: 0,
            seen_asked: 0,
            reset_asked: 0,
            reset_tick: 0,
            free: false,
            told: false,
        }
    }

    /// What one more entry says of that rank.
    pub fn after(self, rank: Rank, reading: &Reading) -> Self
        ensures { result ≡ peer_after rank.0 reading.now self }
    {
        match reading.what {
            What::View(view) => self.after_view(view.members.has(rank), reading.place),
            What::Cleared(_) => Peer {
                out_since: reading.place,
                ..self
            },
            What::SlotRead(other, seen) if other.0 == rank.0 => self.after_read(
                seen,
                reading.asked,
            ),
            What::MailWritten(other, true) if other.0 == rank.0 => Peer {
                reset_asked: reading.asked,
                reset_tick: reading.tick,
                ..self
            },
            What::Tell(tell) if tell.from.0 == rank.0 && reading.answers => Peer {
                free: self.free || !tell.holds,
                told: true,
                ..self
            },
            What::Begin
            | What::BeginClean
            | What::Header(_)
            | What::SlotRead(..)
            | What::MailChecked(_)
            | What::Claimed(_)
            | What::MailRead(_)
            | What::MailWritten(..)
            | What::Ask(_)
            | What::Tell(_)
            | What::Device(_)
            | What::Tick
            | What::Stopped(_)
            | What::Leave
            | What::Closed(_) => self,
        }
    }

    /// What a view says that has the rank, or not.
    fn after_view(self, has: bool, place: usize) -> Self
        ensures { result ≡ peer_viewed has place self }
    {
        Peer {
            out_since: if has { place } else { self.out_since },
            free: false,
            told: false,
            ..self
        }
    }

    /// What a read of the rank's slot says.
    fn after_read(self, seen: SlotSeen, asked: usize) -> Self
        ensures { result ≡ peer_read seen asked self }
    {
        match seen {
            SlotSeen::Read(slot) if slot.clean => Peer {
                clean_asked: self.clean_asked.max(asked),
                seen_asked: self.seen_asked.max(asked),
                ..self
            },
            SlotSeen::Read(_) | SlotSeen::Damaged => Peer {
                seen_asked: self.seen_asked.max(asked),
                ..self
            },
            SlotSeen::Failed => self,
        }
    }

    /// Whether the slot was read as clean in the out-time.
    pub fn is_clean(&self) -> bool
        ensures { result ≡ peer_is_clean self.now }
    {
        self.out_since < self.clean_asked
    }

    /// Whether the slot was read in the out-time, or found damaged.
    pub fn is_seen(&self) -> bool
        ensures { result ≡ peer_is_seen self.now }
    {
        self.out_since < self.seen_asked
    }

    /// Whether a reset was written in the out-time.
    pub fn is_written(&self) -> bool
        ensures { result ≡ peer_is_written self.now }
    {
        self.out_since < self.reset_asked
    }

    /// Whether a reset was written in the out-time and this span has passed since.
    pub fn is_fenced(&self, msgwait: u64, tick: u64) -> bool
        ensures { result ≡ peer_is_fenced self.now msgwait tick }
    {
        self.is_written() && has_passed(self.reset_tick, msgwait, tick)
    }

    /// The ticks of the span that remain where a reset was written in the out-time, else 0.
    pub fn left(&self, msgwait: u64, tick: u64) -> u64
        requires { self.now.reset_tick ≤ tick }
        ensures { result ≡ peer_left self.now msgwait tick }
    {
        if self.is_written() {
            msgwait.saturating_sub(tick - self.reset_tick)
        } else {
            0
        }
    }

    /// Whether Tells came since the last view, and none says that the rank does not hold.
    pub fn is_held(&self) -> bool
        ensures { result ≡ peer_is_held self.now }
    {
        self.told && !self.free
    }
}
