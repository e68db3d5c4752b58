//! The resource of a node: a file that says whether it is held, or an agent that starts and stops it.
use crate::agent::Agent;
use crate::named_file::{Absent, FromStart, NamedFile};
use qn_exchange::{Obeyed, Order, put_order};
use std::fs::File;
use std::io;
use std::net::Net;
use std::rt::Files;
use std::time::Clock;

/// What stands before the path of an agent's socket.
const SOCKET: &str = "unix:";

/// The resource of a node.
#[derive(Drop)]
pub(crate) enum Resource {
    /// A file that begins with `held` or `free`.
    File(NamedFile),
    /// An agent behind a Unix stream socket.
    Agent(Agent),
}

impl Resource {
    ghost use Rattle.std.specs.Prelude.{◌≡◌, IfOk};
    ghost use Rattle.qn_exchange.specs.declared.order.Order.TheVariants.{Stop};

    /// Opens the resource that the word names, and has it stopped: `unix:PATH` is an agent, any other word the
    /// path of a file, which is made where it is absent and that is
    /// wanted.
    pub(crate) fn open<R: Files<File = File> + Net + Clock>(
        rt: &R,
        word: &str,
        absent: Absent,
    ) -> io::Result<(Resource, Obeyed)>
        ensures { IfOk result (λ opened. opened.1 ≡ Stop) }
    {
        let resource = match word.strip_prefix(SOCKET) {
            Some(path) => Resource::Agent(Agent::new(path)?),
            None => Resource::File(NamedFile::open(rt, word, absent)?),
        };
        let obeyed = resource.order(rt, Order::Stop)?;
        Ok((resource, obeyed))
    }

    /// The path of its file or of its agent's socket.
    pub(crate) fn path(&self) -> &str {
        match self {
            Resource::File(file) => file.path(),
            Resource::Agent(agent) => agent.path(),
        }
    }

    /// Has it started or stopped. A file takes the word at its first byte; an agent has to answer that it is
    /// done.
    pub(crate) fn order<R: Net + Clock>(&self, rt: &R, order: Order) -> io::Result<Obeyed>
        ensures { IfOk result (λ obeyed. obeyed ≡ order) }
    {
        match self {
            Resource::File(file) => put_order(order, &mut FromStart::of(file)),
            Resource::Agent(agent) => agent.ask(rt, order),
        }
    }
}
