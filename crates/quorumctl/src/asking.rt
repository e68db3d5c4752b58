//! `standby`, `unstandby`, `fit` and `move`: an operator's words to the node of this host, which looks at them twice a second.
use crate::images::pause;
use crate::status::{HERE, see};
use crate::trouble::{Trouble, say};
use qn_base::{NodeId, read_decimal};
use qn_control::{
    ClusterStatus, Decision, Progress, Refusal, Request, Written, decide, is_missing, progress_of,
    words_with,
};
use qn_machine::ReplacedFile;
use qn_shown::{ShortString, Shown};
use qn_usage::{USAGE, has_word, value_of};
use std::alloc::{AllocError, Global};
use std::fs::{self, File, OpenOptions};
use std::io::{self, ErrorKind};
use std::net::{Net, TcpStream};
use std::rt::Files;
use std::time::Clock;

/// Where it is remembered over a boot whether a node is a standby, as `standby-ID`: the first of its words, which node-check puts back.
const KEPT: &str = "/var/lib/quorumd";

/// What a program of this host locks while it writes the words of a node.
const LOCK: &str = "/run/quorumd/standing.lock";

/// Milliseconds between two looks at what became of a request.
const LOOK: u64 = 200;

/// The status of a request that is refused.
const REFUSED: u8 = 1;

/// The status where no node has that name or id.
const UNKNOWN_NODE: u8 = 16;

/// Which node an operator speaks of.
#[derive(Clone, Copy)]
enum Meant {
    /// The one of the status file with this number.
    Here(usize),
    /// One of another host.
    Elsewhere,
    Unknown,
    /// It is not said which one of this host.
    Unsaid,
}

/// Asks it of the node of this host, and waits for it. `name` is that of the command.
pub fn ask<
    R: Files<File = File>
        + Net<Stream = TcpStream>
        + Clock
        + Print
        + Eprint
        + AllocGlobal
        + Clone
        + Drop,
>(rt: &R, name: &str, request: Request, options: &[String]) -> Result<u8, Trouble> {
    let seen = see(rt, &[])?;
    let wanted = value_of(options, "--node");
    let is_sure = has_word(options, "--yes");
    let nodes = seen.cluster.nodes.as_slice();
    let meant = which_is_meant(nodes, wanted);
    match node_meant(nodes, meant) {
        Some(node) => ask_node(rt, name, request, is_sure, seen.cluster.now, node),
        None => Ok(say_not_here(rt, name, wanted.unwrap_or(""), meant)),
    }
}

/// Asks it of that node, at a moment of its host's clock.
fn ask_node<
    R: Files<File = File>
        + Net<Stream = TcpStream>
        + Clock
        + Print
        + Eprint
        + AllocGlobal
        + Clone
        + Drop,
>(
    rt: &R,
    name: &str,
    request: Request,
    is_sure: bool,
    now: u64,
    node: &Shown,
) -> Result<u8, Trouble> {
    let called = name_of(rt.alloc(), node.id, &node.name)?;
    let called = called.as_str();
    match decide(request, is_sure, now, node) {
        Decision::Holds => say_of(rt, called, "holds already", 0),
        Decision::Refused(refusal) => say_refusal(rt, name, called, refusal, node),
        Decision::Write => {
            write(rt, request, node.id)?;
            let progress = follow(rt, request, node)?;
            end(rt, request, node.id, called, progress)
        }
    }
}

fn node_meant(nodes: &[Shown], meant: Meant) -> Option<&Shown> {
    match meant {
        Meant::Here(number) => nodes.get(number),
        Meant::Elsewhere | Meant::Unknown | Meant::Unsaid => None,
    }
}

/// The node of that name or id; without one, the only one of this host.
fn which_is_meant(nodes: &[Shown], wanted: Option<&str>) -> Meant {
    let Some(word) = wanted else {
        return if nodes.len() == 1 {
            Meant::Here(0)
        } else {
            Meant::Unsaid
        };
    };
    for (number, node) in nodes.iter().enumerate() {
        if is_called(node.id, &node.name, word) {
            return Meant::Here(number);
        }
    }
    let is_peer = nodes.iter().any(|node| has_peer(node, word));
    if is_peer {
        Meant::Elsewhere
    } else {
        Meant::Unknown
    }
}

/// Whether a node knows another one of that name or id.
fn has_peer(node: &Shown, word: &str) -> bool {
    let mut peers = node.peers.as_slice().iter();
    peers.any(|peer| is_called(peer.id, &peer.name, word))
}

/// Whether a word is the name or the id of a node.
fn is_called(id: NodeId, name: &Option<ShortString>, word: &str) -> bool {
    match name {
        Some(name) if name.as_str() == word => true,
        Some(_) | None => read_decimal(word.as_bytes()) == Some(u64::from(id.0)),
    }
}

/// The name of a node, or its id.
fn name_of(alloc: Global, id: NodeId, name: &Option<ShortString>) -> Result<String, AllocError> {
    match name {
        Some(name) => String::from_str(alloc, name.as_str()),
        None => {
            let number = id.0;
            format!(in alloc; "{number}")
        }
    }
}

/// Says why no node of this host is meant.
fn say_not_here(rt: &impl Eprint, name: &str, word: &str, meant: Meant) -> u8 {
    match meant {
        Meant::Elsewhere => {
            let _ = eprintln!(rt; "quorumctl: {name}: run it on {word}");
            USAGE
        }
        Meant::Unknown => {
            let _ = eprintln!(rt; "quorumctl: {name}: no node is called {word:?}");
            UNKNOWN_NODE
        }
        Meant::Here(_) | Meant::Unsaid => {
            let _ = eprintln!(rt;
                "quorumctl: {name}: not one node of this host: --node NODE says which"
            );
            USAGE
        }
    }
}

/// Says why nothing is written, and which nodes are missing where that is why.
fn say_refusal(
    rt: &(impl Eprint + AllocGlobal),
    name: &str,
    called: &str,
    refusal: Refusal,
    node: &Shown,
) -> Result<u8, Trouble> {
    let mut line = format!(in rt.alloc(); "{name}: {called}: {refusal}")?;
    if matches!(refusal, Refusal::Missing) {
        for peer in node.peers.as_slice() {
            if is_missing(node, peer) {
                let missing = name_of(rt.alloc(), peer.id, &peer.name)?;
                line.push(' ')?;
                line.push_str(missing.as_str())?;
            }
        }
    }
    let _ = eprintln!(rt; "quorumctl: {line}");
    Ok(REFUSED)
}

/// Says something of a node.
fn say_of(
    rt: &(impl Print + AllocGlobal),
    called: &str,
    what: &str,
    status: u8,
) -> Result<u8, Trouble> {
    let line = format!(in rt.alloc(); "{called} {what}\n")?;
    say(rt, line.as_str())?;
    Ok(status)
}

/// Writes the line of a request into the words of a node, whose other lines stay; that it is a standby, or is none, is remembered first. One program
/// of this host writes at a time.
fn write<R: Files<File = File> + AllocGlobal>(
    rt: &R,
    request: Request,
    id: NodeId,
) -> Result<(), Trouble> {
    let alloc = rt.alloc();
    let number = id.0;
    let path = format!(in alloc; "{HERE}/standing-{number}")?;
    let _held = lock(rt)?;
    if matches!(request, Request::Standby | Request::Unstandby) {
        let kept = format!(in alloc; "{KEPT}/standby-{number}")?;
        let line = words_with(alloc, "", request.line())?;
        replace(rt, kept.as_str(), line.as_str())?;
    }
    let words = read_words(rt, path.as_str())?;
    let words = words_with(alloc, words.as_str(), request.line())?;
    replace(rt, path.as_str(), words.as_str())
}

/// Waits for the lock, which is held while the file is open.
fn lock<R: Files<File = File> + AllocGlobal>(rt: &R) -> Result<File, Trouble> {
    match hold(rt) {
        Ok(held) => Ok(held),
        Err(error) => Err(Trouble::of_file(rt.alloc(), LOCK, error)),
    }
}

fn hold<R: Files<File = File>>(rt: &R) -> io::Result<File> {
    let mut options = OpenOptions::new();
    options.write(true).create(true);
    let file = options.open(rt, LOCK)?;
    file.lock()?;
    Ok(file)
}

/// The words that stand there; none where nothing does, or what is no text.
fn read_words<R: Files<File = File> + AllocGlobal>(rt: &R, path: &str) -> Result<String, Trouble> {
    match fs::read_to_string(rt, path) {
        Ok(words) => Ok(words),
        Err(error) if matches!(error.kind(), ErrorKind::NotFound | ErrorKind::InvalidData) => {
            Ok(String::new(rt.alloc()))
        }
        Err(error) => Err(Trouble::of_file(rt.alloc(), path, error)),
    }
}

/// Puts a text in the place of the file of that path.
fn replace<R: Files<File = File> + AllocGlobal>(
    rt: &R,
    path: &str,
    text: &str,
) -> Result<(), Trouble> {
    let replaced = match ReplacedFile::at(path) {
        Some(file) if file.is_clear(rt) => file.replace(rt, text.as_bytes()),
        Some(_) | None => Err(io::Error::new(ErrorKind::AlreadyExists, "it is no file")),
    };
    match replaced {
        Ok(()) => Ok(()),
        Err(error) => Err(Trouble::of_file(rt.alloc(), path, error)),
    }
}

/// Waits until a request is done or in vain.
fn follow<
    R: Files<File = File>
        + Net<Stream = TcpStream>
        + Clock
        + Print
        + Eprint
        + AllocGlobal
        + Clone
        + Drop,
>(rt: &R, request: Request, node: &Shown) -> Result<Progress, Trouble> {
    let (id, held) = (node.id, node.holds);
    if matches!(request, Request::Move) || held && matches!(request, Request::Standby) {
        say(rt, "waiting; Ctrl-C ends the waiting alone\n")?;
    }
    let first = see(rt, &[])?;
    for _ in 0..u64::MAX {
        pause(rt, LOOK)?;
        let seen = see(rt, &[])?;
        let waited = seen.cluster.now.saturating_sub(first.cluster.now);
        let written = Written {
            request,
            held,
            waited,
        };
        match progress_in(&seen.cluster, id, &written) {
            Progress::Waits => {}
            progress => return Ok(progress),
        }
    }
    Ok(Progress::NotTaken)
}

/// How far a request to that node is.
fn progress_in(cluster: &ClusterStatus, id: NodeId, written: &Written) -> Progress {
    let nodes = cluster.nodes.as_slice();
    for node in nodes {
        if node.id == id {
            return progress_of(written, cluster.now, nodes, node);
        }
    }
    Progress::Waits
}

/// Says what became of a request, of a standby also who holds now. At its end a move is asked for no more.
fn end<
    R: Files<File = File>
        + Net<Stream = TcpStream>
        + Clock
        + Print
        + Eprint
        + AllocGlobal
        + Clone
        + Drop,
>(rt: &R, request: Request, id: NodeId, called: &str, progress: Progress) -> Result<u8, Trouble> {
    if matches!(request, Request::Move) {
        write(rt, Request::CallOff, id)?;
    }
    let (what, status) = request.said(progress);
    say_of(rt, called, what, status)?;
    if matches!(request, Request::Standby) {
        let seen = see(rt, &[])?;
        let line = seen.cluster.line(rt.alloc())?;
        let line = format!(in rt.alloc(); "{line}\n")?;
        say(rt, line.as_str())?;
    }
    Ok(status)
}
