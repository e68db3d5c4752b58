//! The agent of a resource: a program behind a Unix stream socket, which starts and stops it.
use crate::deadline::{Deadline, is_late};
use arrayvec::ArrayString;
use qn_exchange::{Line, Obeyed, Order, ask_agent, read_again, write_whole};
use std::io::{self, ErrorKind, Read};
use std::net::Net;
use std::os::unix::net::UnixStream;
use std::time::Clock;

/// How long an agent may take to answer, in milliseconds.
const LIMIT: u64 = 20_000;

/// The most bytes of a socket's path.
const SOCKET_PATH: usize = 108;

/// The agent behind the socket of that path.
#[derive(Drop)]
pub(crate) struct Agent {
    path: ArrayString<SOCKET_PATH>,
}

impl Agent {
    ghost use Rattle.std.specs.Prelude.{◌≡◌, IfOk};

    /// The agent behind the socket of that path, which is not looked at yet.
    pub(crate) fn new(path: &str) -> io::Result<Agent> {
        let mut kept = ArrayString::new();
        match kept.try_push_str(path) {
            Ok(()) => Ok(Agent { path: kept }),
            Err(_) => Err(io::Error::new(ErrorKind::InvalidInput, "path too long for a socket")),
        }
    }

    /// The path of its socket.
    pub(crate) fn path(&self) -> &str {
        self.path.as_str()
    }

    /// Sends it the line of the order on a connection of its own and waits for the answer. It is done only where the answer
    /// is the line `ok` and comes within 20 seconds.
    pub(crate) fn ask<R: Net + Clock>(&self, rt: &R, order: Order) -> io::Result<Obeyed>
        ensures { IfOk result (λ obeyed. obeyed ≡ order) }
    {
        let end = Deadline::after(rt, LIMIT)?;
        let stream = UnixStream::connect(rt, self.path.as_str())?;
        let line = AgentLine {
            stream,
            clock: rt,
            end,
        };
        let (_line, obeyed) = ask_agent(order, line)?;
        match end.left(rt)? {
            Some(_) => Ok(obeyed),
            None => Err(late()),
        }
    }
}

/// A connection to an agent that is read up to a moment of the clock. It tells none of its bytes.
#[derive(Drop)]
struct AgentLine<'a, C: Clock> {
    stream: UnixStream,
    clock: &'a C,
    end: Deadline,
}

impl<'a, C: Clock> Read for AgentLine<'a, C> {
    fn read(&mut self, buf: &mut [u8]) -> io::Result<usize> {
        let Some(left) = self.end.left(self.clock)? else {
            return Err(late());
        };
        self.stream.set_read_timeout(Some(left))?;
        let mut stream = &self.stream;
        match stream.read(buf) {
            Err(error) if is_late(&error) => Err(late()),
            done => done,
        }
    }
}

impl<'a, C: Clock> Line for AgentLine<'a, C> {
    fn send(&mut self, from: &[u8]) -> io::Result<()> {
        write_whole(&mut &self.stream, from)
    }

    fn fill(&mut self, into: &mut [u8]) -> io::Result<()> {
        self.read_exact(into)
    }

    fn read_some(&mut self, into: &mut [u8]) -> io::Result<usize> {
        read_again(self, into)
    }
}

/// No answer came in time.
fn late() -> io::Error {
    io::Error::new(ErrorKind::TimedOut, "no answer within 20 seconds")
}
