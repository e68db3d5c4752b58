//! When the node heard the others.
use qn_base::Rank;

/// How many nodes there are at most.
const RANKS: usize = 32;

/// How many loops a node may be silent before it is told.
const LOOPS: u64 = 3;

/// Another node.
#[derive(Clone, Copy)]
pub struct Peer {
    /// The tick of its last Hello.
    hello: Option<u64>,
    /// Whether it is heard.
    is_seen: bool,
    /// The number of the network that is lost to it, where one is.
    lost_network: Option<u64>,
}

/// All nodes, by rank.
#[derive(Clone, Copy)]
pub struct Peers {
    peers: [Peer; RANKS],
}

impl Peer {
    ghost use Rattle.std.specs.Prelude.{◌≡◌, None, Some, false, true, not};
    ghost use Rattle.qn_told.specs.Hearing.{after_losing, lost_after, unheard};

    /// A node of which nothing came.
    fn new() -> Peer
        ensures { result ≡ unheard }
    {
        Peer {
            hello: None,
            is_seen: false,
            lost_network: None,
        }
    }

    /// For how long it is silent, where that is told at that tick, once: it sent no Hello for three loops.
    fn lose(&mut self, tick: u64, loop_ms: u64) -> Option<u64>
        ensures told { result ≡ lost_after self.old tick loop_ms }
        ensures after { self.new ≡ after_losing self.old tick loop_ms }
    {
        let silent = tick.saturating_sub(self.hello?);
        if !self.is_seen || silent <= loop_ms.saturating_mul(LOOPS) {
            return None;
        }
        self.is_seen = false;
        Some(silent)
    }
}

impl Peers {
    ghost use Rattle.std.specs.Prelude.{◌≡◌, ◌&&◌, None, not, nat_lt, if◌then◌else◌, replicate, slice_set};
    ghost use Rattle.qn_told.specs.Hearing.{after_losing, heard_at, lost_after, of_rank, unheard};

    /// Nodes of which nothing came.
    pub fn new() -> Peers
        ensures { result.peers ≡ replicate 32 unheard }
    {
        Peers {
            peers: [Peer::new(); RANKS],
        }
    }

    /// The tick of the last Hello of that rank.
    pub fn hello(&self, rank: usize) -> Option<u64>
        ensures { result ≡ (if nat_lt rank 32 then (of_rank self.now.peers rank).hello else None) }
    {
        if rank < RANKS {
            self.peers[rank].hello
        } else {
            None
        }
    }

    /// A Hello of that rank came at that tick; whether the node was not heard before.
    pub fn hear(&mut self, rank: Rank, tick: u64) -> bool
        ensures new { result ≡ (nat_lt rank.0 32 && not (of_rank self.old.peers rank.0).is_seen) }
        ensures after { self.new.peers ≡ (if nat_lt rank.0 32
            then slice_set self.old.peers rank.0 (heard_at tick (of_rank self.old.peers rank.0))
            else self.old.peers) }
    {
        let place = usize::from(rank.0);
        if place >= RANKS {
            return false;
        }
        let before = self.peers[place];
        self.peers[place] = Peer {
            hello: Some(tick),
            is_seen: true,
            lost_network: before.lost_network,
        };
        !before.is_seen
    }

    /// For how long the node of that rank is silent, where that is told at that tick, once: it sent no Hello for three loops.
    pub fn lose(&mut self, rank: usize, tick: u64, loop_ms: u64) -> Option<u64>
        ensures told { result
            ≡ (if nat_lt rank 32 then lost_after (of_rank self.old.peers rank) tick loop_ms else None) }
        ensures after { self.new.peers ≡ (if nat_lt rank 32
            then slice_set self.old.peers rank (after_losing (of_rank self.old.peers rank) tick loop_ms)
            else self.old.peers) }
    {
        if rank >= RANKS {
            return None;
        }
        let mut peer = self.peers[rank];
        let silent = peer.lose(tick, loop_ms);
        self.peers[rank] = peer;
        silent
    }

    /// That network is lost to the node of that rank, or none is; which one was before.
    pub fn lose_network(&mut self, rank: usize, lost: Option<u64>) -> Option<u64>
        ensures before { result
            ≡ (if nat_lt rank 32 then (of_rank self.old.peers rank).lost_network else None) }
        ensures after { self.new.peers ≡ (if nat_lt rank 32
            then slice_set self.old.peers rank (record (of_rank self.old.peers rank) { lost_network = lost })
            else self.old.peers) }
    {
        if rank >= RANKS {
            return None;
        }
        let before = self.peers[rank];
        self.peers[rank] = Peer {
            lost_network: lost,
            ..before
        };
        before.lost_network
    }
}
