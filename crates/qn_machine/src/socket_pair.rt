//! The sockets of a node on two networks. Neither is waited for by itself, and a send that would wait is lost, so that a network that stands still
//! does not hold up the other one.
ghost use Rattle.std.specs.Prelude.{◌≤◌, IfOk, IfSome};

use crate::deadline::is_late;
use crate::socket::{Came, open_socket, send_to};
use crate::waiting::Waiting;
use qn_io::PACKET;
use qn_links::Ring;
use qn_peers::Destination;
use std::io::{self, ErrorKind};
use std::net::{Net, SocketAddr, UdpSocket};
use std::os::fd::AsRawFd;
use std::time::Duration;

/// The socket of a node on one of two networks.
#[derive(Drop)]
struct OneOfTwo {
    at: SocketAddr,
    /// None where it is not open.
    socket: Option<UdpSocket>,
}

impl OneOfTwo {
    /// One that is not open.
    fn closed(at: SocketAddr) -> OneOfTwo {
        OneOfTwo { at, socket: None }
    }

    /// Opens it where it is not open. Whether it is: it is not where this host does not have the address.
    fn open<R: Net>(&mut self, rt: &R, waiting: &Waiting) -> io::Result<bool> {
        if self.socket.is_some() {
            return Ok(true);
        }
        let socket = match open_socket(rt, self.at) {
            Ok(socket) => socket,
            Err(error) if error.kind() == ErrorKind::AddrNotAvailable => return Ok(false),
            Err(error) => return Err(error),
        };
        socket.set_nonblocking(true)?;
        waiting.add_input(socket.as_raw_fd())?;
        self.socket = Some(socket);
        Ok(true)
    }

    /// The next datagram that is there. A socket that fails is closed.
    fn take(&mut self, datagram: &mut [u8; PACKET]) -> Option<Came>
        ensures { IfSome result (λ came. came.0 ≤ 129) }
    {
        let socket = self.socket.as_ref()?;
        match socket.recv_from(datagram) {
            Ok(came) => Some(came),
            Err(error) if is_late(&error) => None,
            Err(_) => {
                self.socket = None;
                None
            }
        }
    }

    /// Sends a datagram.
    fn send(&self, bytes: &[u8], to: SocketAddr) -> io::Result<()> {
        match &self.socket {
            Some(socket) => send_to(socket, bytes, to),
            None => Err(io::Error::from(ErrorKind::NotConnected)),
        }
    }
}

/// The sockets of a node on two networks.
#[derive(Drop)]
pub(crate) struct SocketPair {
    waiting: Waiting,
    first: OneOfTwo,
    second: OneOfTwo,
    /// Which one is asked first the next time: they take turns, so that a flood of one leaves room for the other.
    next: Ring,
    /// Whether something may be there that was not taken: the system reports each arrival once.
    has_more: bool,
}

impl SocketPair {
    /// Opens both, of which one is enough. It fails where another program holds the port of one.
    pub(crate) fn open<R: Net + AllocGlobal>(
        rt: &R,
        first: SocketAddr,
        second: SocketAddr,
    ) -> io::Result<SocketPair> {
        let mut pair = SocketPair {
            waiting: Waiting::new(rt)?,
            first: OneOfTwo::closed(first),
            second: OneOfTwo::closed(second),
            next: Ring::First,
            has_more: true,
        };
        let has_first = pair.first.open(rt, &pair.waiting)?;
        let has_second = pair.second.open(rt, &pair.waiting)?;
        if has_first || has_second {
            Ok(pair)
        } else {
            Err(io::Error::from(ErrorKind::AddrNotAvailable))
        }
    }

    /// Opens what is not open, where that can be done.
    pub(crate) fn open_again<R: Net>(&mut self, rt: &R) {
        let _ = self.first.open(rt, &self.waiting);
        let _ = self.second.open(rt, &self.waiting);
    }

    /// The address of the one that is not open, where one is not.
    pub(crate) fn closed(&self) -> Option<SocketAddr> {
        if self.first.socket.is_none() {
            Some(self.first.at)
        } else if self.second.socket.is_none() {
            Some(self.second.at)
        } else {
            None
        }
    }

    /// The next datagram that comes within that time, or is there already; up to a signal.
    pub(crate) fn receive(
        &mut self,
        time: Duration,
        datagram: &mut [u8; PACKET],
    ) -> io::Result<Option<Came>>
        ensures { IfOk result (λ came. IfSome came (λ came. came.0 ≤ 129)) }
    {
        if !self.has_more {
            self.has_more = self.waiting.wait_for_input(time)?;
        }
        if !self.has_more {
            return Ok(None);
        }
        let (next, other) = (self.next, self.next.other());
        if let Some(came) = self.take(next, datagram) {
            self.next = other;
            return Ok(Some(came));
        }
        if let Some(came) = self.take(other, datagram) {
            self.next = next;
            return Ok(Some(came));
        }
        self.has_more = false;
        Ok(None)
    }

    /// The next datagram that is there on that network.
    fn take(&mut self, ring: Ring, datagram: &mut [u8; PACKET]) -> Option<Came>
        ensures { IfSome result (λ came. came.0 ≤ 129) }
    {
        match ring {
            Ring::First => self.first.take(datagram),
            Ring::Second => self.second.take(datagram),
        }
    }

    /// Sends a datagram over each network on which its receiver is. It is sent where it went over one.
    pub(crate) fn send(&self, bytes: &[u8], to: Destination) -> io::Result<()> {
        let first = self.first.send(bytes, to.first);
        let Some(second) = to.second else {
            return first;
        };
        match self.second.send(bytes, second) {
            Ok(()) => Ok(()),
            Err(_) => first,
        }
    }
}
