//! The sockets of one node or of the arbiter: one, or one on each of two networks.
ghost use Rattle.std.specs.Prelude.{◌≤◌, IfOk, IfSome};

use crate::socket::{Came, LoneSocket};
use crate::socket_pair::SocketPair;
use qn_io::PACKET;
use qn_peers::{Destination, Outgoing};
use std::io;
use std::net::{Net, SocketAddr};
use std::time::Duration;

/// The sockets of one node or of the arbiter.
#[derive(Drop)]
pub(crate) enum Sockets {
    One(LoneSocket),
    Two(SocketPair),
}

impl Sockets {
    /// Opens those at these addresses and ports, with this wait of a read.
    pub(crate) fn open<R: Net + AllocGlobal>(
        rt: &R,
        at: Destination,
        wait: Duration,
    ) -> io::Result<Sockets> {
        match at.second {
            None => Ok(Sockets::One(LoneSocket::open(rt, at.first, wait)?)),
            Some(second) => Ok(Sockets::Two(SocketPair::open(rt, at.first, second)?)),
        }
    }

    /// Opens what is not open, where that can be done.
    pub(crate) fn open_again<R: Net>(&mut self, rt: &R) {
        match self {
            Sockets::One(_) => {}
            Sockets::Two(pair) => pair.open_again(rt),
        }
    }

    /// The address of the one of two that is not open, where one is not.
    pub(crate) fn closed(&self) -> Option<SocketAddr> {
        match self {
            Sockets::One(_) => None,
            Sockets::Two(pair) => pair.closed(),
        }
    }

    /// The next datagram that comes within that time, up to a signal.
    pub(crate) fn receive(
        &mut self,
        time: Duration,
        datagram: &mut [u8; PACKET],
    ) -> io::Result<Option<Came>>
        ensures { IfOk result (λ came. IfSome came (λ came. came.0 ≤ 129)) }
    {
        match self {
            Sockets::One(socket) => socket.receive(time, datagram),
            Sockets::Two(pair) => pair.receive(time, datagram),
        }
    }

    /// Sends a packet over each network on which its receiver is. It is sent where it went over one.
    pub(crate) fn send(&self, packet: &Outgoing, to: Destination) -> io::Result<()> {
        match self {
            Sockets::One(socket) => socket.send(packet.as_slice(), to.first),
            Sockets::Two(pair) => pair.send(packet.as_slice(), to),
        }
    }
}
