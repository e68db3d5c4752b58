//! The events of a world.
use crate::clocks::Clocks;
use crate::disk::Message;
use qn_base::{Rank, View};

/// What happens in a world: one event, of one node or of the time that all nodes share (this project's
/// profile). Ranks and members are configured.
#[derive(Drop)]
pub enum Event {
    /// `dt` true milliseconds pass, 1 to 1000000000; each clock that is named advances by so much, every
    /// other clock of a running node by 100 a millisecond.
    Pass { dt: u64, clocks: Clocks },
    /// The node boots, and its clock starts at this base, in hundredths of a millisecond: at most
    /// 1000000000000000.
    Boot(Rank, u64),
    /// The node boots as a clean start; the base is as at Boot.
    BootClean(Rank, u64),
    /// The node is off at once.
    Crash(Rank),
    /// The disk operation that is out takes effect.
    Land(Rank),
    /// The disk operation that is out is answered.
    Done(Rank),
    /// The disk operation that is out fails.
    Fail(Rank),
    /// The leftover write of that number takes effect, from 1 to 200000.
    Late(Rank, u64),
    /// The node is handed a view.
    View(Rank, View),
    /// The node is handed the packet of that number, from 0.
    Deliver(Rank, u64),
    /// The quorum device answers the node.
    Device(Rank, bool),
    /// Time comes to the node.
    Tick(Rank),
    /// The Stop that is unanswered succeeded.
    Stopped(Rank),
    /// The Stop that is unanswered failed.
    Unstopped(Rank),
    /// The node is told to leave.
    Leave(Rank),
    /// The last feed that the node decided takes effect.
    Feed(Rank),
    /// An operator writes the message to the mailbox of that node, running or off.
    Operator(Rank, Message),
}
