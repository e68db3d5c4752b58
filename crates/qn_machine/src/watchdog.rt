//! The watchdog: a device, a pipe or a file that takes a byte at each feed, and one more where it is disarmed.
use crate::named_file::{Absent, NamedFile};
use qn_exchange::{feed_once, write_again};
use std::fs::File;
use std::io;
use std::rt::Files;

/// The byte that has a watchdog device stop once it is closed.
const DISARM: u8 = b'V';

/// A watchdog that is open: a device is then armed.
#[derive(Drop)]
pub(crate) struct Watchdog {
    opened: NamedFile,
}

impl Watchdog {
    ghost use Rattle.std.specs.Prelude.{◌+◌, ◌<◌, ◌≤◌, IsSomeAnd, OnOk};
    ghost use Rattle.qn_exchange.specs.Feeds.{feed_limit};

    /// Opens the watchdog of that path, and makes a file where there is none and that is wanted.
    pub(crate) fn open<R: Files<File = File>>(
        rt: &R,
        path: &str,
        absent: Absent,
    ) -> io::Result<Watchdog> {
        let opened = NamedFile::open(rt, path, absent)?;
        Ok(Watchdog { opened })
    }

    /// The path that it was opened by.
    pub(crate) fn path(&self) -> &str {
        self.opened.path()
    }

    /// Feeds it, where that is in time at that tick after the last answer of `now`. The byte stands after those before it: a device and
    /// a pipe take no write at a place of a file.
    pub(crate) fn feed(&self, last_tick: Option<u64>, tick: u64, feed_delay: u64) -> io::Result<()>
        ensures { OnOk result (IsSomeAnd last_tick
            (λ last. (last ≤ tick) × (tick < last + feed_limit feed_delay))) }
    {
        feed_once(last_tick, tick, feed_delay, &mut &self.opened.file)
    }

    /// Disarms it.
    pub(crate) fn disarm(&self) -> io::Result<()> {
        write_again(&mut &self.opened.file, &[DISARM])?;
        Ok(())
    }
}
