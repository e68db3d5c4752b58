//! What an operator asks of the node of this host, and what becomes of it.
ghost use Rattle.std.specs.Prelude.{◌≡◌};
ghost use Rattle.qn_control.specs.Asking.{decide, has_company, has_left, has_missing, has_no_name, is_missing, is_present, is_taken, move_progress, names_nobody, no_move, progress_of, said_of, standby_progress, taken_progress};

use qn_base::NodeId;
use qn_shown::{Candidate, Heard, HostStanding, Peer, Shown};
use qn_verdict::{is_held, is_live, members, miss_time};
use std::alloc::{AllocError, Global};
use std::fmt;

/// What an operator asks of the node of this host.
#[derive(Clone, Copy)]
pub enum Request {
    /// That it never holds the resource, from now on and after each boot.
    Standby,
    /// That it may hold it again.
    Unstandby,
    /// That it may hold it now, after its host said that it may not.
    Fit,
    /// That it holds it.
    Move,
    /// That a move to it ends.
    CallOff,
}

/// What becomes of a request.
#[derive(Clone, Copy)]
pub enum Decision {
    /// It is written down.
    Write,
    /// The node holds the resource already, and nothing is written.
    Holds,
    /// Nothing is written, for this reason.
    Refused(Refusal),
}

/// Why a request is refused.
#[derive(Clone, Copy)]
pub enum Refusal {
    NotRunning,
    /// No other node is in the view.
    Alone,
    /// The node is a standby.
    Standby,
    Unfit,
    NotInView,
    /// The view names nobody: one of its members knows no names.
    Unnamed,
    /// The node is asked for already.
    UnderWay,
    /// A configured node is neither in the view nor has it left.
    Missing,
}

/// A request that was written down.
#[derive(Clone, Copy)]
pub struct Written {
    pub request: Request,
    /// Whether the node held the resource then.
    pub held: bool,
    /// For how many milliseconds it has stood there.
    pub waited: u64,
}

/// How far a request is that was written down.
#[derive(Clone, Copy)]
pub enum Progress {
    Waits,
    Done,
    /// The view of the standby says that nobody may hold the resource.
    NobodyMay,
    /// The node did not start the resource in its time.
    GaveUp,
    /// The node does not say that it took the request.
    NotTaken,
    /// The node does not run.
    Ended,
}

impl fmt::Display for Refusal {
    fn fmt<W: fmt::Write>(&self, f: &mut fmt::Formatter<W>) -> fmt::Result {
        f.write_str(match self {
            Refusal::NotRunning => "it does not run",
            Refusal::Alone => "no other node is in its view, so nobody would hold; --yes does it",
            Refusal::Standby => "it is a standby; quorumctl unstandby ends that",
            Refusal::Unfit => "it is unfit; quorumctl fit ends that",
            Refusal::NotInView => "it is in no view",
            Refusal::Unnamed => "a node of its view runs a program that knows no moves",
            Refusal::UnderWay => "a move to it is under way; quorumctl move --off ends that",
            Refusal::Missing => {
                "a node is neither in the view nor has left: it would be reset once more, and the service would wait for that; stop it there, or --yes does it:"
            }
        })
    }
}

impl Request {
    /// The line of the words of a node's host that says so, in two parts.
    pub fn line(self) -> (&'static str, &'static str) {
        match self {
            Request::Standby => ("standby", "on"),
            Request::Unstandby => ("standby", "off"),
            Request::Fit => ("fit", "yes"),
            Request::Move => ("pull", "on"),
            Request::CallOff => ("pull", "off"),
        }
    }

    /// What is said of the node at the end, and the exit status.
    pub fn said(self, progress: Progress) -> (&'static str, u8) {
        match (progress, self) {
            (Progress::NobodyMay, _) => ("is a standby, and nobody may hold", 1),
            (Progress::GaveUp, _) => ("did not start within 60 loops, and is asked for no more", 1),
            (Progress::NotTaken, _) => (
                "does not take it: another command took it back, or it runs without --standing-file",
                1,
            ),
            (Progress::Ended, Request::Move) => ("ended before it held", 1),
            (Progress::Ended, _) => ("does not run: it goes by that from its next start on", 0),
            (Progress::Waits | Progress::Done, Request::Standby) => ("is a standby", 0),
            (Progress::Waits | Progress::Done, Request::Unstandby) => ("may hold again", 0),
            (Progress::Waits | Progress::Done, Request::Fit) => ("is fit", 0),
            (Progress::Waits | Progress::Done, Request::Move) => ("holds", 0),
            (Progress::Waits | Progress::Done, Request::CallOff) => ("is asked for no more", 0),
        }
    }
}

/// The words of a node's host with this line in place of one that begins with the same word. What begins with no word of theirs is left out.
pub fn words_with(
    alloc: Global,
    words: &str,
    (word, value): (&str, &str),
) -> Result<String, AllocError> {
    let mut text = format!(in alloc; "{word} {value}\n")?;
    for line in words.lines() {
        let first = line.split(' ').next().unwrap_or("");
        if first != word && matches!(first, "standby" | "fit" | "pull" | "weight") {
            text.push_str(line)?;
            text.push('\n')?;
        }
    }
    Ok(text)
}

/// What the host of a node says of it.
fn said_of(node: &Shown) -> HostStanding
    ensures { result ≡ said_of node.now }
{
    match node.standing {
        Some(standing) => standing,
        None => HostStanding {
            fit: true,
            pull: false,
            standby: false,
            weight: 0,
        },
    }
}

/// Whether a node counts that one as present.
fn is_present(node: &Shown, id: NodeId) -> bool
    ensures { result ≡ is_present node.now id }
{
    members(node).iter().any(|member| member.0 == id.0)
}

/// Whether a node told last that it leaves.
fn has_left(heard: Heard) -> bool
    ensures { result ≡ has_left heard }
{
    match heard {
        Heard::Unsaid | Heard::Nothing => false,
        Heard::Said(told, _) => told.leaving,
    }
}

/// Whether a configured node is neither in the view nor has it left: who starts the resource has to reset it.
pub fn is_missing(node: &Shown, peer: &Peer) -> bool
    ensures { result ≡ is_missing node.now peer.now }
{
    !(is_present(node, peer.id) || has_left(peer.told))
}

fn has_missing(node: &Shown) -> bool
    ensures { result ≡ has_missing node.now }
{
    node.peers
        .as_slice()
        .iter()
        .any(|peer| is_missing(node, peer))
}

/// Whether another node is in the view of this one.
fn has_company(node: &Shown) -> bool
    ensures { result ≡ has_company node.now }
{
    node.peers
        .as_slice()
        .iter()
        .any(|peer| is_present(node, peer.id))
}

/// Whether the view names nobody in particular, as beside a node that knows no names.
fn has_no_name(node: &Shown) -> bool
    ensures { result ≡ has_no_name node.now.view }
{
    match &node.view {
        Some(view) => matches!(view.candidate, Candidate::Unsaid | Candidate::Unnamed),
        None => true,
    }
}

/// Whether the view says that none of its members may start.
fn names_nobody(node: &Shown) -> bool
    ensures { result ≡ names_nobody node.now.view }
{
    match &node.view {
        Some(view) => matches!(view.candidate, Candidate::Nobody),
        None => false,
    }
}

/// Why a node that runs is not asked to hold the resource.
fn no_move(is_sure: bool, node: &Shown) -> Option<Refusal>
    ensures { result ≡ no_move is_sure node.now }
{
    let said = said_of(node);
    if said.standby {
        Some(Refusal::Standby)
    } else if !said.fit {
        Some(Refusal::Unfit)
    } else if !is_present(node, node.id) {
        Some(Refusal::NotInView)
    } else if has_no_name(node) {
        Some(Refusal::Unnamed)
    } else if said.pull {
        Some(Refusal::UnderWay)
    } else if !is_sure && has_missing(node) {
        Some(Refusal::Missing)
    } else {
        None
    }
}

/// What becomes of a request to a node, by its status file, at a moment of its host's monotonic clock in milliseconds. `is_sure`: the operator
/// knows that nobody may hold then, or that another node is reset.
pub fn decide(request: Request, is_sure: bool, now: u64, node: &Shown) -> Decision
    ensures { result ≡ decide request is_sure now node.now }
{
    match request {
        Request::Unstandby | Request::Fit | Request::CallOff => Decision::Write,
        Request::Standby if is_live(now, node) && !has_company(node) && !is_sure => {
            Decision::Refused(Refusal::Alone)
        }
        Request::Standby => Decision::Write,
        Request::Move if !is_live(now, node) => Decision::Refused(Refusal::NotRunning),
        Request::Move if node.holds => Decision::Holds,
        Request::Move => match no_move(is_sure, node) {
            Some(reason) => Decision::Refused(reason),
            None => Decision::Write,
        },
    }
}

/// Whether the node says of itself what was written.
fn is_taken(request: Request, node: &Shown) -> bool
    ensures { result ≡ is_taken request node.now }
{
    let said = said_of(node);
    match request {
        Request::Standby => said.standby,
        Request::Unstandby => !said.standby,
        Request::Fit => said.fit,
        Request::Move => node.holds || said.pull,
        Request::CallOff => !said.pull,
    }
}

fn standby_progress(written: &Written, now: u64, files: &[Shown], node: &Shown) -> Progress
    ensures { result ≡ standby_progress written.now now files.now node.now }
{
    if !written.held {
        Progress::Done
    } else if node.holds {
        Progress::Waits
    } else if is_held(now, files) {
        Progress::Done
    } else if names_nobody(node) && 2 * miss_time(node) <= written.waited {
        Progress::NobodyMay
    } else {
        Progress::Waits
    }
}

fn move_progress(written: &Written, node: &Shown) -> Progress
    ensures { result ≡ move_progress written.now node.now }
{
    if node.holds {
        Progress::Done
    } else if 20 * miss_time(node) <= written.waited {
        Progress::GaveUp
    } else {
        Progress::Waits
    }
}

/// How far a request is that was written down, by the status files of this host, of which one is that of its node. A standby that held is waited
/// for until another node holds, or its view has said for six loops that nobody may; a move for sixty loops at most.
pub fn progress_of(written: &Written, now: u64, files: &[Shown], node: &Shown) -> Progress
    ensures { result ≡ progress_of written.now now files.now node.now }
{
    if !is_live(now, node) {
        Progress::Ended
    } else if is_taken(written.request, node) {
        taken_progress(written, now, files, node)
    } else if miss_time(node) + 5000 < written.waited {
        Progress::NotTaken
    } else {
        Progress::Waits
    }
}

fn taken_progress(written: &Written, now: u64, files: &[Shown], node: &Shown) -> Progress
    ensures { result ≡ taken_progress written.now.request written.now now files.now node.now }
{
    match written.request {
        Request::Standby => standby_progress(written, now, files, node),
        Request::Move => move_progress(written, node),
        Request::Unstandby | Request::Fit | Request::CallOff => Progress::Done,
    }
}
