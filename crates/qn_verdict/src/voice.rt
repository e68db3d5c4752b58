//! Whose word counts of how a node is: its own live file, else what it told a node with one, lately.
ghost use Rattle.std.specs.Prelude.{◌≡◌};
ghost use Rattle.std.specs.List.{list_all, list_any};
ghost use Rattle.qn_verdict.specs.Files.{members_of};
ghost use Rattle.qn_verdict.specs.Voices.{are_all_told, are_paired, has_partner, has_voice, is_contested, is_fresh, is_heard, is_held, is_held_twice, is_here, is_in_service, is_leaving, is_live, is_longer, is_paired_in, is_partner_told, is_peer_well, is_said, is_said_in, is_teller, is_told, is_voice_well, is_wanted, is_well, partner_of, told_voice, voice_of};

use crate::file::{is_arbiter_well, is_quiet, is_stale, loop_of, members, miss_time};
use qn_base::NodeId;
use qn_model::Phase;
use qn_shown::{Group, Heard, Peer, Shown};

/// How a node is by its own word.
#[derive(Clone, Copy)]
pub struct Voice {
    pub id: NodeId,
    pub group: Group,
    /// For how many milliseconds it holds; 0 where it does not.
    pub held_ms: u64,
    pub holds: bool,
    pub leaving: bool,
    /// The loop of the node that knows it, in milliseconds.
    pub loop_ms: u32,
    pub quorate: bool,
    /// When that was said, in milliseconds of the clock of the host that knows it.
    pub tick: u64,
}

/// A voice that is looked for.
#[derive(Clone, Copy)]
enum Wanted {
    /// Of a node that holds.
    Holder,
    /// Of a node that holds, and is another one than this.
    OtherHolder(Voice),
    /// Of such a one that held before this, and went on over two loops after this began to.
    LongerHolder(Voice),
}

/// Two nodes that hold.
#[derive(Clone, Copy)]
enum Pair {
    Two,
    /// Not one after the other.
    TwoAtATime,
}

/// Whether the file says what is so now.
pub fn is_live(now: u64, file: &Shown) -> bool
    ensures { result ≡ is_live now file.now }
{
    !is_stale(now, file)
}

/// What a node says of itself in its file.
pub fn voice_of(file: &Shown) -> Voice
    ensures { result ≡ voice_of file.now }
{
    Voice {
        id: file.id,
        group: file.group,
        held_ms: file.held_ms.unwrap_or(0),
        holds: file.holds,
        leaving: is_leaving(file.phase),
        loop_ms: loop_of(file),
        quorate: file.answer.quorate,
        tick: file.tick,
    }
}

fn is_leaving(phase: Phase) -> bool
    ensures { result ≡ is_leaving phase }
{
    match phase {
        Phase::Leaving => true,
        Phase::Booting | Phase::Up | Phase::Dying | Phase::Gone => false,
    }
}

/// Whether a tick is of now: it is at most three loops of the node and a second old.
pub fn is_fresh(now: u64, file: &Shown, tick: u64) -> bool
    ensures { result ≡ is_fresh now file.now tick }
{
    tick <= now && now - tick <= miss_time(file) + 1000
}

/// Whether a live node of these files has the id.
pub fn is_here(now: u64, files: &[Shown], id: NodeId) -> bool
    ensures { result ≡ is_here now files.now id }
{
    files
        .iter()
        .any(|file| is_live(now, file) && file.id.0 == id.0)
}

/// What a peer told that node lately, where no live file is its own.
pub fn told_voice(now: u64, files: &[Shown], file: &Shown, peer: &Peer) -> Option<Voice>
    ensures { result ≡ told_voice now files.now file.now peer.now }
{
    match peer.told {
        Heard::Unsaid | Heard::Nothing => None,
        Heard::Said(told, tick) => {
            if is_fresh(now, file, tick) && !is_here(now, files, peer.id) {
                Some(Voice {
                    id: peer.id,
                    group: told.group,
                    held_ms: told.held_ms,
                    holds: told.holds,
                    leaving: told.leaving,
                    loop_ms: loop_of(file),
                    quorate: told.quorate,
                    tick,
                })
            } else {
                None
            }
        }
    }
}

/// Whether it holds at least as long as the other, and said so over two loops after the other began to.
fn is_longer(voice: Voice, other: Voice) -> bool
    ensures { result ≡ is_longer voice other }
{
    let began = other.tick.saturating_sub(other.held_ms);
    other.held_ms <= voice.held_ms
        && 2 * u64::from(other.loop_ms) < voice.tick.saturating_sub(began)
}

/// Whether a voice is the one that is looked for.
fn is_wanted(wanted: Wanted, voice: Voice) -> bool
    ensures { result ≡ is_wanted wanted voice }
{
    match wanted {
        Wanted::Holder => voice.holds,
        Wanted::OtherHolder(other) => voice.holds && voice.id.0 != other.id.0,
        Wanted::LongerHolder(other) => {
            voice.holds && voice.id.0 != other.id.0 && is_longer(voice, other)
        }
    }
}

fn is_told(now: u64, files: &[Shown], wanted: Wanted, file: &Shown, peer: &Peer) -> bool
    ensures { result ≡ is_told now files.now wanted file.now peer.now }
{
    match told_voice(now, files, file, peer) {
        Some(voice) => is_wanted(wanted, voice),
        None => false,
    }
}

fn is_any_told(now: u64, files: &[Shown], wanted: Wanted, file: &Shown) -> bool
    ensures { result ≡ list_any (is_told now files.now wanted file.now) file.now.peers.items }
{
    file.peers
        .as_slice()
        .iter()
        .any(|peer| is_told(now, files, wanted, file, peer))
}

/// Whether a live node, or one that told it, says what is wanted.
fn is_said_in(now: u64, files: &[Shown], wanted: Wanted, file: &Shown) -> bool
    ensures { result ≡ is_said_in now files.now wanted file.now }
{
    is_live(now, file)
        && (is_wanted(wanted, voice_of(file)) || is_any_told(now, files, wanted, file))
}

/// Whether a node of these files, or one that told one of these, says what is wanted.
fn is_said(now: u64, files: &[Shown], wanted: Wanted) -> bool
    ensures { result ≡ is_said now files.now wanted }
{
    files
        .iter()
        .any(|file| is_said_in(now, files, wanted, file))
}

/// Whether a node holds, by its own word.
pub fn is_held(now: u64, files: &[Shown]) -> bool
    ensures { result ≡ is_held now files.now }
{
    is_said(now, files, Wanted::Holder)
}

/// With whom a holder is such a pair.
fn partner_of(pair: Pair, voice: Voice) -> Wanted
    ensures { result ≡ partner_of pair voice }
{
    match pair {
        Pair::Two => Wanted::OtherHolder(voice),
        Pair::TwoAtATime => Wanted::LongerHolder(voice),
    }
}

fn has_partner(now: u64, files: &[Shown], pair: Pair, voice: Voice) -> bool
    ensures { result ≡ has_partner now files.now pair voice }
{
    voice.holds && is_said(now, files, partner_of(pair, voice))
}

fn is_partner_told(now: u64, files: &[Shown], pair: Pair, file: &Shown, peer: &Peer) -> bool
    ensures { result ≡ is_partner_told now files.now pair file.now peer.now }
{
    match told_voice(now, files, file, peer) {
        Some(voice) => has_partner(now, files, pair, voice),
        None => false,
    }
}

fn is_any_partner_told(now: u64, files: &[Shown], pair: Pair, file: &Shown) -> bool
    ensures { result
        ≡ list_any (is_partner_told now files.now pair file.now) file.now.peers.items }
{
    file.peers
        .as_slice()
        .iter()
        .any(|peer| is_partner_told(now, files, pair, file, peer))
}

fn is_paired_in(now: u64, files: &[Shown], pair: Pair, file: &Shown) -> bool
    ensures { result ≡ is_paired_in now files.now pair file.now }
{
    is_live(now, file)
        && (has_partner(now, files, pair, voice_of(file))
            || is_any_partner_told(now, files, pair, file))
}

fn are_paired(now: u64, files: &[Shown], pair: Pair) -> bool
    ensures { result ≡ are_paired now files.now pair }
{
    files
        .iter()
        .any(|file| is_paired_in(now, files, pair, file))
}

/// Whether two nodes hold, by their own words.
pub fn is_held_twice(now: u64, files: &[Shown]) -> bool
    ensures { result ≡ is_held_twice now files.now }
{
    are_paired(now, files, Pair::Two)
}

/// Whether two nodes hold at a time, and not one after the other.
pub fn is_contested(now: u64, files: &[Shown]) -> bool
    ensures { result ≡ is_contested now files.now }
{
    are_paired(now, files, Pair::TwoAtATime)
}

/// Whether a node has a live file, or told this one lately.
pub fn has_voice(now: u64, files: &[Shown], file: &Shown, id: NodeId) -> bool
    ensures { result ≡ has_voice now files.now file.now id }
{
    is_here(now, files, id) || has_told(now, files, file, id)
}

/// Whether the node of that id told this one lately, and has no live file.
fn has_told(now: u64, files: &[Shown], file: &Shown, id: NodeId) -> bool
    ensures { result ≡ list_any (is_teller now files.now file.now id) file.now.peers.items }
{
    file.peers
        .as_slice()
        .iter()
        .any(|peer| is_teller(now, files, file, id, peer))
}

/// Whether the peer of that id told the node how it is.
fn is_teller(now: u64, files: &[Shown], file: &Shown, id: NodeId, peer: &Peer) -> bool
    ensures { result ≡ is_teller now files.now file.now id peer.now }
{
    peer.id.0 == id.0 && told_voice(now, files, file, peer).is_some()
}

/// Whether each node that may hold has a voice: those of the view of a quorate node; a node that is not quorate knows nothing of who is silent.
pub fn are_all_told(now: u64, files: &[Shown], file: &Shown) -> bool
    ensures { result ≡ are_all_told now files.now file.now }
{
    if file.answer.quorate {
        are_members_told(now, files, file)
    } else {
        are_peers_told(now, files, file)
    }
}

fn are_members_told(now: u64, files: &[Shown], file: &Shown) -> bool
    ensures { result ≡ list_all (has_voice now files.now file.now) (members_of file.now.view) }
{
    members(file)
        .iter()
        .all(|member| has_voice(now, files, file, *member))
}

fn are_peers_told(now: u64, files: &[Shown], file: &Shown) -> bool
    ensures { result
        ≡ list_all (λ peer. has_voice now files.now file.now peer.id) file.now.peers.items }
{
    file.peers
        .as_slice()
        .iter()
        .all(|peer| has_voice(now, files, file, peer.id))
}

/// Whether nothing is wrong by the node's word.
fn is_voice_well(voice: Voice) -> bool
    ensures { result ≡ is_voice_well voice }
{
    voice.quorate && !voice.leaving && (!voice.holds || voice.group.is_fine())
}

/// Whether a Hello of the peer came lately.
pub fn is_heard(now: u64, file: &Shown, peer: &Peer) -> bool
    ensures { result ≡ is_heard now file.now peer.now }
{
    match peer.hello_tick {
        Some(tick) => is_fresh(now, file, tick),
        None => false,
    }
}

/// Whether the node sees the peer over each network, and nothing is wrong by the peer's word.
fn is_peer_well(now: u64, files: &[Shown], file: &Shown, peer: &Peer) -> bool
    ensures { result ≡ is_peer_well now files.now file.now peer.now }
{
    is_heard(now, file, peer)
        && peer.network_down.is_none()
        && (is_here(now, files, peer.id)
            || match told_voice(now, files, file, peer) {
                Some(voice) => is_voice_well(voice),
                None => false,
            })
}

/// Whether nothing is wrong with the node, its images and its arbiter, and with the nodes that it knows.
pub(crate) fn is_well(now: u64, files: &[Shown], file: &Shown) -> bool
    ensures { result ≡ is_well now files.now file.now }
{
    is_live(now, file)
        && is_voice_well(voice_of(file))
        && is_in_service(file.phase)
        && is_quiet(file.mailbox.state)
        && file.images.is_none()
        && is_arbiter_well(file)
        && are_peers_well(now, files, file)
}

fn are_peers_well(now: u64, files: &[Shown], file: &Shown) -> bool
    ensures { result ≡ list_all (is_peer_well now files.now file.now) file.now.peers.items }
{
    file.peers
        .as_slice()
        .iter()
        .all(|peer| is_peer_well(now, files, file, peer))
}

fn is_in_service(phase: Phase) -> bool
    ensures { result ≡ is_in_service phase }
{
    match phase {
        Phase::Booting | Phase::Up | Phase::Leaving => true,
        Phase::Dying | Phase::Gone => false,
    }
}
