//! Waits of the system that end at a time: for room at standard error, for packets, and for nothing.
use crate::named_file::FIRST_OF_A_FILE;
use mio::unix::SourceFd;
use mio::{Events, Interest, Poll, Token};
use std::alloc::Global;
use std::io;
use std::net::Net;
use std::os::fd::{AsRawFd, RawFd};
use std::time::Duration;

/// The descriptor of standard error.
const ERRORS: RawFd = 2;

/// How many sources are waited for at most: the sockets of two networks.
const SOURCES: usize = 2;

/// What the system is asked for waits with. It takes memory once.
#[derive(Drop)]
pub(crate) struct Waiting {
    poll: Poll,
    events: Events<Global>,
}

impl Waiting {
    /// One that waits for nothing. Its descriptor is above those of the standard streams.
    pub(crate) fn new<R: Net + AllocGlobal>(rt: &R) -> io::Result<Waiting> {
        let mut lower = [None, None, None, None];
        for place in &mut lower {
            let poll = Poll::new(rt)?;
            if poll.as_raw_fd() >= FIRST_OF_A_FILE {
                let events = Events::with_capacity(rt.alloc(), SOURCES)?;
                return Ok(Waiting { poll, events });
            }
            *place = Some(poll);
        }
        Err(io::Error::other("no descriptor above the standard streams"))
    }

    /// One that can tell whether standard error has room. It fails where that is a file, which always has.
    pub(crate) fn for_errors<R: Net + AllocGlobal>(rt: &R) -> io::Result<Waiting> {
        let waiting = Waiting::new(rt)?;
        let registry = waiting.poll.registry();
        registry.register(&mut SourceFd(&ERRORS), Token(0), Interest::WRITABLE)?;
        Ok(waiting)
    }

    /// Whether standard error has room for a line now. The system reports each change once, so it is asked anew.
    pub(crate) fn has_room(&mut self) -> io::Result<bool> {
        let registry = self.poll.registry();
        registry.reregister(&mut SourceFd(&ERRORS), Token(0), Interest::WRITABLE)?;
        self.poll.poll(&mut self.events, Some(Duration::ZERO))?;
        Ok(self.events.iter().any(|event| event.is_writable()))
    }

    /// From now on it waits for what comes there too. The system reports each arrival once.
    pub(crate) fn add_input(&self, source: RawFd) -> io::Result<()> {
        let registry = self.poll.registry();
        registry.register(&mut SourceFd(&source), Token(0), Interest::READABLE)
    }

    /// Waits for so long, or up to an arrival or a signal; whether something came.
    pub(crate) fn wait_for_input(&mut self, time: Duration) -> io::Result<bool> {
        self.poll.poll(&mut self.events, Some(time))?;
        Ok(self.events.iter().any(|event| event.is_readable()))
    }

    /// Waits for so long, or up to a signal.
    pub(crate) fn wait(&mut self, time: Duration) {
        let _ = self.poll.poll(&mut self.events, Some(time));
    }
}
