//! A connection to a server, over which each call has until a moment of the clock.

use crate::deadline::{Deadline, is_late};
use crate::image_word::ServerAt;
use crate::named_file::FIRST_OF_A_FILE;
use qn_exchange::{Line, read_again, write_again, write_whole};
use std::io::{self, ErrorKind, Read, Write};
use std::net::{Net, TcpStream};
use std::os::fd::AsRawFd;
use std::os::unix::net::UnixStream;
use std::time::{Clock, Duration};

/// A connection to a server. Its descriptor is above those of the standard streams.
#[derive(Drop)]
pub(crate) enum Connection {
    Tcp(TcpStream),
    Unix(UnixStream),
}

impl Connection {
    /// Connects to a server. Over TCP that ends at that moment; over a Unix socket the system waits while the queue of the server is full.
    pub(crate) fn open<R: Net<Stream = TcpStream> + Clock>(
        rt: &R,
        at: ServerAt<'_>,
        end: Deadline,
    ) -> io::Result<Connection> {
        match at {
            ServerAt::Tcp(address) => {
                let left = end.left(rt)?.ok_or_else(late)?;
                let stream = TcpStream::connect_timeout(rt, &address, left)?;
                stream.set_nodelay(true)?;
                Ok(Connection::Tcp(tcp_apart(stream)?))
            }
            ServerAt::Unix(path) => {
                let stream = UnixStream::connect(rt, path)?;
                Ok(Connection::Unix(unix_apart(stream)?))
            }
        }
    }

    /// The connection up to that moment.
    pub(crate) fn until<'a, C: Clock>(&'a self, clock: &'a C, end: Deadline) -> Timed<'a, C> {
        Timed {
            connection: self,
            clock,
            end,
        }
    }

    fn limit_read(&self, left: Duration) -> io::Result<()> {
        match self {
            Connection::Tcp(stream) => stream.set_read_timeout(Some(left)),
            Connection::Unix(stream) => stream.set_read_timeout(Some(left)),
        }
    }

    fn limit_write(&self, left: Duration) -> io::Result<()> {
        match self {
            Connection::Tcp(stream) => stream.set_write_timeout(Some(left)),
            Connection::Unix(stream) => stream.set_write_timeout(Some(left)),
        }
    }
}

/// The same stream under a descriptor above those of the standard streams.
fn tcp_apart(stream: TcpStream) -> io::Result<TcpStream> {
    if stream.as_raw_fd() < FIRST_OF_A_FILE {
        return stream.try_clone();
    }
    Ok(stream)
}

/// The same of a Unix socket.
fn unix_apart(stream: UnixStream) -> io::Result<UnixStream> {
    if stream.as_raw_fd() < FIRST_OF_A_FILE {
        return stream.try_clone();
    }
    Ok(stream)
}

/// A connection that is read and written up to a moment of the clock, however slowly its bytes come.
#[derive(Drop)]
pub(crate) struct Timed<'a, C: Clock> {
    connection: &'a Connection,
    clock: &'a C,
    end: Deadline,
}

impl<'a, C: Clock> Timed<'a, C> {
    /// The time that is left.
    fn left(&self) -> io::Result<Duration> {
        self.end.left(self.clock)?.ok_or_else(late)
    }
}

impl<'a, C: Clock> Read for Timed<'a, C> {
    fn read(&mut self, buf: &mut [u8]) -> io::Result<usize> {
        let left = self.left()?;
        self.connection.limit_read(left)?;
        let done = match self.connection {
            Connection::Tcp(stream) => read_again(&mut &*stream, buf),
            Connection::Unix(stream) => read_again(&mut &*stream, buf),
        };
        match done {
            Ok(0) if !buf.is_empty() => Err(closed()),
            Err(error) if is_late(&error) => Err(late()),
            done => done,
        }
    }
}

impl<'a, C: Clock> Write for Timed<'a, C> {
    fn write(&mut self, buf: &[u8]) -> io::Result<usize> {
        let left = self.left()?;
        self.connection.limit_write(left)?;
        let done = match self.connection {
            Connection::Tcp(stream) => write_again(&mut &*stream, buf),
            Connection::Unix(stream) => write_again(&mut &*stream, buf),
        };
        match done {
            Err(error) if is_late(&error) => Err(late()),
            done => done,
        }
    }

    fn flush(&mut self) -> io::Result<()> {
        Ok(())
    }
}

/// The server did not answer in time.
pub(crate) fn late() -> io::Error {
    io::Error::new(ErrorKind::TimedOut, "the server does not answer in time")
}

/// The server closed the connection.
fn closed() -> io::Error {
    io::Error::new(ErrorKind::UnexpectedEof, "the server closed the connection")
}

/// A connection that a client of a server is handed, up to a moment of the clock. It tells none of its bytes.
#[derive(Drop)]
pub(crate) struct TimedLine<'a, C: Clock> {
    pub(crate) connection: Connection,
    clock: &'a C,
    end: Deadline,
}

impl<'a, C: Net<Stream = TcpStream> + Clock> TimedLine<'a, C> {
    /// A connection of its own to a server up to that moment.
    pub(crate) fn open(rt: &'a C, at: ServerAt<'_>, end: Deadline) -> io::Result<TimedLine<'a, C>> {
        Ok(TimedLine::new(Connection::open(rt, at, end)?, rt, end))
    }
}

impl<'a, C: Clock> TimedLine<'a, C> {
    /// The connection up to that moment.
    pub(crate) fn new(connection: Connection, clock: &'a C, end: Deadline) -> TimedLine<'a, C> {
        TimedLine {
            connection,
            clock,
            end,
        }
    }
}

impl<'a, C: Clock> Line for TimedLine<'a, C> {
    fn send(&mut self, from: &[u8]) -> io::Result<()> {
        write_whole(&mut self.connection.until(self.clock, self.end), from)
    }

    fn fill(&mut self, into: &mut [u8]) -> io::Result<()> {
        self.connection.until(self.clock, self.end).read_exact(into)
    }

    fn read_some(&mut self, into: &mut [u8]) -> io::Result<usize> {
        read_again(&mut self.connection.until(self.clock, self.end), into)
    }
}
