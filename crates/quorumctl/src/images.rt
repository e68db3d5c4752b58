//! The commands on an image, wherever it lies. They open it for reading, and make nothing.
use crate::input::read_input;
use crate::open_image::OpenImage;
use crate::texts::say_fault;
use crate::trouble::{Trouble, say};
use qn_base::{NodeId, read_decimal};
use qn_conf::read_tree;
use qn_control::{
    Finding, ImageSeen, NetworksSeen, NodeSeen, Sectors, check_json, finding_lines, list_json,
    look_at_image, look_at_networks, network_lines, node_lines,
};
use qn_machine::steady_time;
use qn_model::{Mail, Message, Settings, Slot, Timing};
use qn_settings::settings_of_text;
use qn_usage::value_of;
use std::alloc::{AllocError, Global};
use std::fs::File;
use std::net::{Ipv4Addr, Net, TcpStream, UdpSocket};
use std::rt::Files;
use std::time::{Clock, Duration};

/// The status where something is wrong with an image.
const WRONG: u8 = 1;

/// The status where an image is whole, safe and of the settings, and further bytes stand behind it.
const LARGER: u8 = 4;

/// The status where no slot has an id.
const UNKNOWN_NODE: u8 = 16;

/// Milliseconds between two looks at a mailbox.
const LOOK: u64 = 100;

/// `check`: what is wrong with an image, whether it fits the settings on standard input, where there are any, and where the nodes are on each of two
/// networks. The status is by the image alone.
pub fn check<
    R: Files<File = File> + Net<Stream = TcpStream> + Clock + Input + Print + Eprint + AllocGlobal,
>(rt: &R, path: &str, is_json: bool) -> Result<u8, Trouble> {
    let text = read_input(rt)?;
    if text.is_empty() {
        return check_by(rt, path, is_json, None, &NetworksSeen::One);
    }
    let alloc = rt.alloc();
    match settings_of_text(alloc, text.as_slice()) {
        Ok(settings) => {
            let tree = read_tree(alloc, text.as_slice()).map_err(|_| Trouble::NoMemory)?;
            let networks = look_at_networks(alloc, &settings, &tree)?;
            check_by(rt, path, is_json, Some(&settings), &networks)
        }
        Err(fault) => say_fault(rt, text.as_slice(), &fault),
    }
}

/// Says what is wrong with an image, by the settings where there are any, and what their text says of two networks.
fn check_by<R: Files<File = File> + Net<Stream = TcpStream> + Clock + Print + Eprint + AllocGlobal>(
    rt: &R,
    path: &str,
    is_json: bool,
    settings: Option<&Settings>,
    networks: &NetworksSeen,
) -> Result<u8, Trouble> {
    let mut image = OpenImage::open(rt, path)?;
    let seen = look_at_image(rt.alloc(), &mut image, settings)?;
    let alloc = rt.alloc();
    let text = if is_json {
        check_json(alloc, &seen, networks)?
    } else {
        check_lines(alloc, &seen, networks)?
    };
    say(rt, text.as_str())?;
    let status = status_of(seen.findings.as_slice());
    if status == WRONG {
        let _ = eprintln!(rt;
            "quorumctl: {path}: give the image and the text of one cluster; IMAGE.md of the documentation says what mends an image"
        );
    }
    Ok(status)
}

/// The exit status of a check by what it found.
fn status_of(findings: &[Finding]) -> u8 {
    if findings.iter().any(is_wrong) {
        WRONG
    } else if findings.iter().any(is_behind) {
        LARGER
    } else {
        0
    }
}

/// Whether a finding is a fault of the image: that a take-over has no bound is a warning, and keeps no node from its start, and so are a time below an
/// election and a short feed delay, but for one beside which no feed is in time.
fn is_wrong(finding: &Finding) -> bool {
    match finding {
        Finding::NoBound { .. } | Finding::BelowElection { .. } | Finding::Tail { .. } => false,
        Finding::ShortFeedDelay { short } => short.allows_none(),
        Finding::Unreadable { .. }
        | Finding::NotImage
        | Finding::OldVersion
        | Finding::UnsafeTimes
        | Finding::NotSlot { .. }
        | Finding::NotMailbox { .. }
        | Finding::NotAscending { .. }
        | Finding::OtherCount { .. }
        | Finding::OtherId { .. } => true,
    }
}

/// Whether a finding is of bytes behind the image, as those of a device that is larger.
fn is_behind(finding: &Finding) -> bool {
    matches!(finding, Finding::Tail { .. })
}

/// The nodes of an image, the networks, and what is wrong with the image.
fn check_lines(
    alloc: Global,
    seen: &ImageSeen,
    networks: &NetworksSeen,
) -> Result<String, AllocError> {
    let mut lines = node_lines(alloc, seen.nodes.as_slice())?;
    let of_networks = network_lines(alloc, networks)?;
    lines.push_str(of_networks.as_str())?;
    let findings = finding_lines(alloc, seen)?;
    lines.push_str(findings.as_str())?;
    Ok(lines)
}

/// `list`: the nodes of an image. Of a file that is none it says so: in a line, and with `--json` on standard error.
pub fn list<R: Files<File = File> + Net<Stream = TcpStream> + Clock + Print + Eprint + AllocGlobal>(
    rt: &R,
    path: &str,
    is_json: bool,
) -> Result<u8, Trouble> {
    let seen = look(rt, path)?;
    if seen.header.is_none() && !is_json {
        return say_no_image(rt, &seen);
    }
    let nodes = seen.nodes.as_slice();
    say(rt, list_text(rt.alloc(), nodes, is_json)?.as_str())?;
    if seen.header.is_none() {
        warn_no_image(rt, &seen);
    }
    let is_whole = seen.header.is_some() && nodes.iter().all(is_seen);
    Ok(if is_whole { 0 } else { WRONG })
}

/// Looks at an image without settings.
pub fn look<R: Files<File = File> + Net<Stream = TcpStream> + Clock + Eprint + AllocGlobal>(
    rt: &R,
    path: &str,
) -> Result<ImageSeen, Trouble> {
    let mut image = OpenImage::open(rt, path)?;
    Ok(look_at_image(rt.alloc(), &mut image, None)?)
}

/// Says in a line why a file is no image.
fn say_no_image(rt: &(impl Print + AllocGlobal), seen: &ImageSeen) -> Result<u8, Trouble> {
    for finding in seen.findings.as_slice() {
        let line = format!(in rt.alloc(); "fault: {finding}\n")?;
        say(rt, line.as_str())?;
    }
    Ok(WRONG)
}

/// Says on standard error why a file is no image.
fn warn_no_image(rt: &impl Eprint, seen: &ImageSeen) {
    for finding in seen.findings.as_slice() {
        let _ = eprintln!(rt; "quorumctl: {finding}");
    }
}

/// The nodes of an image.
fn list_text(alloc: Global, nodes: &[NodeSeen], is_json: bool) -> Result<String, AllocError> {
    if is_json {
        list_json(alloc, nodes)
    } else {
        node_lines(alloc, nodes)
    }
}

/// Whether the slot and the mailbox of a node can be read and are what they should be.
fn is_seen(node: &NodeSeen) -> bool {
    node.slot.is_some() && node.mail.is_some()
}

/// What a look says of a message to a node.
#[derive(Clone, Copy)]
enum Outcome {
    /// Sector 0 is no header.
    NotImage,
    /// No slot has the id.
    UnknownNode,
    /// The mailbox is empty: a boot of the node cleared it, or there was no message.
    Empty,
    /// The node left clean, at an exit.
    Left,
    /// An exit stands in the mailbox, and the node has not left.
    Exit,
    /// Another message stands in the mailbox.
    Waits,
    /// The slot or the mailbox cannot be read or is none.
    Unread,
}

/// `wait`: returns when the message to a node was read, or msgwait has passed.
pub fn wait<R: Files<File = File> + Net<Stream = TcpStream> + Clock + Print + Eprint + AllocGlobal>(
    rt: &R,
    path: &str,
    options: &[String],
) -> Result<u8, Trouble> {
    let id = id_of(options);
    let mut image = OpenImage::open(rt, path)?;
    let Some(timing) = timing_of(rt.alloc(), &mut image)? else {
        return say_outcome(rt, path, &Outcome::NotImage, false);
    };
    let begin = steady_time().map_err(Trouble::System)?;
    let end = begin.saturating_add(Duration::from_millis(timing.msgwait));
    let mut was_exit = false;
    for _ in 0..u64::MAX {
        let is_over = steady_time().map_err(Trouble::System)? >= end;
        let outcome = outcome_at(rt.alloc(), &mut image, id)?;
        if is_over || !outcome.may_change() {
            return say_outcome(rt, path, &outcome, was_exit);
        }
        was_exit = was_exit || matches!(outcome, Outcome::Exit);
        pause(rt, LOOK)?;
    }
    Ok(0)
}

impl Outcome {
    /// Whether a later look may say more.
    fn may_change(self) -> bool {
        match self {
            Outcome::Exit | Outcome::Waits | Outcome::Unread => true,
            Outcome::NotImage | Outcome::UnknownNode | Outcome::Empty | Outcome::Left => false,
        }
    }

    /// The line of a last look, and the exit status; `was_exit` says whether a look before found an exit.
    fn said(self, was_exit: bool) -> (&'static str, u8) {
        match self {
            Outcome::NotImage => (
                "fault: sector 0 is no header: the file is no image\n",
                WRONG,
            ),
            Outcome::UnknownNode => ("fault: no slot of the image has the id\n", UNKNOWN_NODE),
            Outcome::Empty if was_exit => (
                "fault: the exit is gone from the mailbox, and the node was not seen to leave: a boot of it, or an operator, took it away\n",
                WRONG,
            ),
            Outcome::Empty => ("the mailbox is empty\n", 0),
            Outcome::Left => ("the node left clean\n", 0),
            Outcome::Exit => (
                "fault: msgwait has passed, and the node has not left: the exit stands in its mailbox\n",
                WRONG,
            ),
            Outcome::Waits if was_exit => (
                "fault: another message stands in place of the exit\n",
                WRONG,
            ),
            Outcome::Waits => ("msgwait has passed\n", 0),
            Outcome::Unread => (
                "fault: the slot or the mailbox cannot be read or is none\n",
                WRONG,
            ),
        }
    }
}

/// The times of an image; None where sector 0 is no header.
fn timing_of<S: Sectors>(alloc: Global, image: &mut S) -> Result<Option<Timing>, AllocError> {
    let seen = look_at_image(alloc, image, None)?;
    Ok(match seen.header {
        Some((_, _, timing)) => Some(timing),
        None => None,
    })
}

/// What became of the message to a node, by a look at the image.
fn outcome_at<S: Sectors>(alloc: Global, image: &mut S, id: NodeId) -> Result<Outcome, AllocError> {
    let seen = look_at_image(alloc, image, None)?;
    Ok(outcome_of(&seen, id))
}

/// The id among the options.
fn id_of(options: &[String]) -> NodeId {
    let word = value_of(options, "--id").unwrap_or("");
    let id = read_decimal(word.as_bytes()).unwrap_or(0);
    NodeId(u32::try_from(id).unwrap_or(0))
}

/// Says what became of a message, and gives the exit status.
fn say_outcome(
    rt: &(impl Print + Eprint),
    path: &str,
    outcome: &Outcome,
    was_exit: bool,
) -> Result<u8, Trouble> {
    let (text, status) = outcome.said(was_exit);
    say(rt, text)?;
    if let Outcome::UnknownNode = outcome {
        let _ = eprintln!(rt;
            "quorumctl: {path}: quorumctl list --image {path} has the ids of its nodes"
        );
    }
    Ok(status)
}

/// What became of the message to a node, as far as the image says it.
fn outcome_of(seen: &ImageSeen, id: NodeId) -> Outcome {
    if seen.header.is_none() {
        return Outcome::NotImage;
    }
    let nodes = seen.nodes.as_slice();
    for node in nodes {
        if let Some((other, slot)) = node.slot {
            if other == id {
                return outcome_by(&slot, node.mail.as_ref());
            }
        }
    }
    if nodes.iter().all(|node| node.slot.is_some()) {
        Outcome::UnknownNode
    } else {
        Outcome::Unread
    }
}

/// What became of a message, by the slot and the mailbox of its node.
fn outcome_by(slot: &Slot, mail: Option<&Mail>) -> Outcome {
    let Some(mail) = mail else {
        return Outcome::Unread;
    };
    match mail.message {
        Message::Empty => Outcome::Empty,
        Message::Exit if slot.clean => Outcome::Left,
        Message::Exit => Outcome::Exit,
        Message::Test | Message::Reset | Message::Off | Message::Crashdump => Outcome::Waits,
    }
}

/// Lets so many milliseconds pass: waits at a port at which nothing comes.
pub fn pause<R: Net>(rt: &R, milliseconds: u64) -> Result<(), Trouble> {
    let socket = UdpSocket::bind(rt, (Ipv4Addr::LOCALHOST, 0)).map_err(Trouble::System)?;
    socket
        .set_read_timeout(Some(Duration::from_millis(milliseconds)))
        .map_err(Trouble::System)?;
    let _ = socket.recv_from(&mut [0; 1]);
    Ok(())
}
