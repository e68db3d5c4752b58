//! A UDP socket of a node, and that of a node on one network.
ghost use Rattle.std.specs.Prelude.{◌≤◌, IfOk, IfSome};

use crate::deadline::is_late;
use crate::named_file::FIRST_OF_A_FILE;
use qn_exchange::TRIES;
use qn_io::PACKET;
use std::io::{self, ErrorKind};
use std::net::{Net, SocketAddr, UdpSocket};
use std::os::fd::AsRawFd;
use std::time::Duration;

/// A datagram that came: how many bytes it has in the buffer, and where it came from.
pub(crate) type Came = (usize, SocketAddr);

/// Opens a socket at that address and port. Its descriptor is above those of the standard streams.
pub(crate) fn open_socket<R: Net>(rt: &R, at: SocketAddr) -> io::Result<UdpSocket> {
    let socket = UdpSocket::bind(rt, at)?;
    if socket.as_raw_fd() < FIRST_OF_A_FILE {
        return socket.try_clone();
    }
    Ok(socket)
}

/// Sends a datagram, again after each interruption.
pub(crate) fn send_to(socket: &UdpSocket, bytes: &[u8], address: SocketAddr) -> io::Result<()> {
    'tries: for _ in 0..TRIES {
        match socket.send_to(bytes, address) {
            Ok(count) if count == bytes.len() => return Ok(()),
            Ok(_) => return Err(io::Error::from(ErrorKind::WriteZero)),
            Err(error) if error.kind() == ErrorKind::Interrupted => {}
            Err(error) => return Err(error),
        }
    }
    Err(io::Error::from(ErrorKind::Interrupted))
}

/// The socket of a node on one network.
#[derive(Drop)]
pub(crate) struct LoneSocket {
    socket: UdpSocket,
    /// How long the system lets a read of the socket wait.
    wait: Duration,
}

impl LoneSocket {
    /// Opens it, with this wait of a read.
    pub(crate) fn open<R: Net>(rt: &R, at: SocketAddr, wait: Duration) -> io::Result<LoneSocket> {
        let socket = open_socket(rt, at)?;
        socket.set_read_timeout(Some(wait))?;
        Ok(LoneSocket { socket, wait })
    }

    /// The next datagram that comes within that time, up to a signal.
    pub(crate) fn receive(
        &mut self,
        time: Duration,
        datagram: &mut [u8; PACKET],
    ) -> io::Result<Option<Came>>
        ensures { IfOk result (λ came. IfSome came (λ came. came.0 ≤ 129)) }
    {
        self.set_wait(time)?;
        match self.socket.recv_from(datagram) {
            Ok(came) => Ok(Some(came)),
            Err(error) if error.kind() == ErrorKind::Interrupted || is_late(&error) => Ok(None),
            Err(error) => Err(error),
        }
    }

    /// Has a read of the socket wait so long. The system is told where that changes alone: a node at rest asks it for nothing but packets.
    fn set_wait(&mut self, time: Duration) -> io::Result<()> {
        if time != self.wait {
            self.socket.set_read_timeout(Some(time))?;
            self.wait = time;
        }
        Ok(())
    }

    /// Sends a datagram.
    pub(crate) fn send(&self, bytes: &[u8], to: SocketAddr) -> io::Result<()> {
        send_to(&self.socket, bytes, to)
    }
}
