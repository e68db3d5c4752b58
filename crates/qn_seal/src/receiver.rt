//! Which sealed packets a node takes.
ghost use Rattle.std.specs.Prelude.{◌≡◌, ◌≤◌, ◌<◌, ◌-◌, length};
ghost use Rattle.qn_seal.specs.Receiving.{is_forgotten, is_inner, is_newer_than, is_of_rank, is_poll, is_reply, is_taken, newest_after, seen_after};

use crate::keys::{Keys, Texts};
use crate::seals::Seal;

/// The seat of the arbiter, one above those of the ranks.
const ARBITER: u8 = 32;

/// How many seats there are: those of 32 ranks and that of the arbiter.
const SEATS: usize = 33;

/// How long a sender has to be silent before any packet of it is new, in milliseconds.
const FORGOTTEN_AFTER: u64 = 10_000;

/// How many numbers of a sender, up to the greatest that was taken, are still taken where they come late.
const WINDOW: u64 = 64;

/// What was taken of a sender: its boot, the greatest number, the tick of the receiver at which a packet came last, and which of the 64
/// numbers up to the greatest were taken: the greatest is the lowest bit.
#[derive(Clone, Copy)]
pub struct Newest {
    pub boot: u64,
    pub number: u64,
    pub tick: u64,
    pub seen: u64,
}

/// What a node takes: packets of other ranks below `nodes` and replies of the arbiter, whose seat is 32, to its own `rank`, under one of
/// its keys beside one of its texts, each once, and none that is 64 numbers or more behind the greatest of its sender. The arbiter, as rank 32,
/// takes polls of ranks alone.
#[derive(Drop)]
pub struct Receiver {
    pub rank: u8,
    pub nodes: u8,
    pub keys: Keys,
    pub texts: Texts,
    pub newest: [Option<Newest>; SEATS],
}

/// Why a packet is not taken.
#[derive(Clone, Copy, PartialEq, Eq)]
pub enum Refused {
    /// No key opens it.
    Unsealed,
    /// It is not for this node, of no other configured one, or what is in it is no packet of its sender.
    Astray,
    /// It was taken before, or is too far behind what was taken of its sender.
    Old,
}

/// Whether the number of a packet of that boot counts as taken: it was, or it is 64 or more behind the greatest.
fn is_taken(last: Newest, number: u64) -> bool
    ensures { result ≡ is_taken last number }
{
    if last.number < number {
        return false;
    }
    let behind = last.number - number;
    behind >= WINDOW || (last.seen >> behind) % 2 == 1
}

/// Whether a packet is new beside what was taken of its sender. After ten seconds without a packet of it every one is.
pub fn is_newer(last: Option<Newest>, seal: Seal, tick: u64) -> bool
    ensures { result ≡ is_newer_than last seal tick }
{
    match last {
        None => true,
        Some(last) => {
            is_forgotten(last, tick)
                || last.boot < seal.boot
                || last.boot == seal.boot && !is_taken(last, seal.number)
        }
    }
}

/// Whether nothing was taken of a sender for ten seconds.
fn is_forgotten(last: Newest, tick: u64) -> bool
    ensures { result ≡ is_forgotten last tick }
{
    tick >= last.tick && tick - last.tick >= FORGOTTEN_AFTER
}

/// Which of the numbers up to a greater one were taken, once that was.
fn seen_after(seen: u64, steps: u64) -> u64
    ensures { result ≡ seen_after seen steps }
{
    if steps < WINDOW {
        (seen << steps) | 1
    } else {
        1
    }
}

/// What was taken of a sender, once that new packet was.
fn newest_after(last: Option<Newest>, seal: Seal, tick: u64) -> Newest
    ensures { result ≡ newest_after last seal tick }
{
    let first = Newest {
        boot: seal.boot,
        number: seal.number,
        tick,
        seen: 1,
    };
    let Some(last) = last else {
        return first;
    };
    if is_forgotten(last, tick) || last.boot < seal.boot {
        return first;
    }
    if last.number < seal.number {
        let steps = seal.number - last.number;
        return Newest {
            seen: seen_after(last.seen, steps),
            ..first
        };
    }
    let behind = last.number - seal.number;
    let late = if behind < WINDOW { 1 << behind } else { 0 };
    Newest {
        number: last.number,
        seen: last.seen | late,
        ..first
    }
}

impl Receiver {
    ghost use Rattle.std.specs.Prelude.{◌≡◌, None, OnErr, OnOk, IfOk, IfErr, Ok, Err, replicate};
    ghost use Rattle.qn_seal.specs.Receiving.{is_for, judged, opened_by, receiver_after};

    /// A receiver that has heard nobody.
    pub fn new(rank: u8, nodes: u8, keys: Keys, texts: Texts) -> Receiver
        ensures own { (result.rank ≡ rank) × (result.nodes ≡ nodes) }
        ensures secrets { (result.keys ≡ keys) × (result.texts ≡ texts) }
        ensures silent { result.newest ≡ replicate 33 None }
    {
        Receiver {
            rank,
            nodes,
            keys,
            texts,
            newest: [None; SEATS],
        }
    }

    /// Whether a packet of that seal is of another configured node or of the arbiter, to this one.
    fn is_for(&self, seal: Seal) -> bool
        ensures { result ≡ is_for self.now seal }
    {
        seal.to == self.rank
            && seal.from != self.rank
            && (seal.from == ARBITER || seal.from < self.nodes && seal.from < ARBITER)
    }

    /// The packet in these bytes, where it is taken at that tick. Only a packet that is taken changes anything.
    pub fn take<'a>(&mut self, tick: u64, from: &'a [u8]) -> Result<&'a [u8], Refused>
        ensures taken { IfOk result (λ inner.
            judged self.old tick (opened_by self.old.keys self.old.texts from.now) ≡ Ok inner.now) }
        ensures refused { IfErr result (λ why.
            judged self.old tick (opened_by self.old.keys self.old.texts from.now) ≡ Err why) }
        ensures moved { OnOk result (self.new
            ≡ receiver_after self.old tick (opened_by self.old.keys self.old.texts from.now)) }
        ensures same { OnErr result (self.new ≡ self.old) }
    {
        let Some((seal, inner)) = self.keys.open(&self.texts, from) else {
            return Err(Refused::Unsealed);
        };
        if !self.is_for(seal) || !is_inner(seal, inner) {
            return Err(Refused::Astray);
        }
        let place = usize::from(seal.from);
        if !is_newer(self.newest[place], seal, tick) {
            return Err(Refused::Old);
        }
        self.newest[place] = Some(newest_after(self.newest[place], seal, tick));
        Ok(inner)
    }
}

/// Whether a packet is one that the sender of the seal sends its receiver: the arbiter sends replies alone and is sent polls alone, and
/// what a rank sends another is neither. A node passes over a kind that it does not know.
#[tactic(auto, unfolding(crate::specs::Receiving::is_inner))]
fn is_inner(seal: Seal, inner: &[u8]) -> bool
    requires { 4 ≤ length inner.now }
    ensures { result ≡ is_inner seal inner.now }
{
    if inner[0] != b'Q' || inner[1] != b'N' {
        return false;
    }
    if seal.from == ARBITER {
        is_reply(seal, inner)
    } else if seal.to == ARBITER {
        is_poll(seal, inner)
    } else {
        is_of_rank(seal, inner)
    }
}

/// Whether a packet is one of kinds 1 to 4, 8, 9 or 11, of its length, of the sender and, where it names one, to the receiver of the seal.
#[tactic(auto, unfolding(crate::specs::Receiving::is_of_rank))]
fn is_of_rank(seal: Seal, inner: &[u8]) -> bool
    requires { 4 ≤ length inner.now }
    ensures { result ≡ is_of_rank seal inner.now }
{
    inner[3] == seal.from
        && (inner[2] == 3 && inner.len() == 4
            || inner[2] == 4 && inner.len() == 16
            || inner[2] == 8 && inner.len() == 12
            || inner[2] == 9 && inner.len() == 22
            || inner[2] == 11 && inner.len() == 16
            || inner[2] == 1 && inner.len() == 33 && inner[4] == seal.to
            || inner[2] == 2 && inner.len() == 34 && inner[4] == seal.to)
}

/// Whether a packet is a poll of the arbiter, of the sender of the seal.
#[tactic(auto, unfolding(crate::specs::Receiving::is_poll))]
fn is_poll(seal: Seal, inner: &[u8]) -> bool
    requires { 4 ≤ length inner.now }
    ensures { result ≡ is_poll seal inner.now }
{
    inner[2] == 6 && inner.len() == 40 && inner[3] == seal.from
}

/// Whether a packet is a reply of the arbiter, to the receiver of the seal.
#[tactic(auto, unfolding(crate::specs::Receiving::is_reply))]
fn is_reply(seal: Seal, inner: &[u8]) -> bool
    requires { 4 ≤ length inner.now }
    ensures { result ≡ is_reply seal inner.now }
{
    inner[2] == 7 && inner.len() == 29 && inner[3] == seal.to
}
