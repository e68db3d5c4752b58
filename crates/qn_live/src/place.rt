//! Where a running node stands between two calls.
use crate::live_end::LiveEnd;
use qn_base::{Said, Standing, View};
use qn_model::{Packet, What};
use qn_safety::{Poll, Reply};

/// What a turn takes, before its tick is known.
#[derive(Clone, Copy)]
pub enum Choice {
    /// This entry.
    Whole(What),
    /// The packet that came is none for the node itself, or none came: the view maker hears it and looks.
    Open(Option<Packet>),
    /// The arbiter's reply came: at the tick of the turn it is the device's answer, or nothing.
    Answer(Reply),
}

/// The answers that wait for a turn: that of a Stop, whether it stopped, and that of a disk operation.
#[derive(Clone, Copy)]
pub struct Waits {
    pub stopped: Option<bool>,
    pub disk: Option<What>,
}

/// What a node sends to every other node where a Hello is due.
#[derive(Clone, Copy)]
pub enum Greeting {
    /// A Hello, with what the last look found and what the node says of itself.
    Hello { said: Said, standing: Standing },
    /// The view that the node announces.
    Announce(View),
}

/// The call that comes next.
#[derive(Clone, Copy)]
pub enum Place {
    /// The turn takes no answer: a packet is received.
    Receive,
    /// The turn has its choice, and the clock is looked at.
    Now(Choice),
    /// The output of that place is performed.
    Act { at: usize },
    /// The poll is sent to the arbiter, and then the greetings, where a Hello is due.
    Poll { poll: Poll, greets: bool },
    /// The greeting is sent to that rank.
    Greet { greeting: Greeting, to: u8 },
    /// The farewell of a node that left clean is sent to that rank: this view, announced.
    Part { view: View, to: u8 },
    /// None: the run is over.
    Over(LiveEnd),
}
