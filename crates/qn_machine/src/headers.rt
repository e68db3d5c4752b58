//! What the outside of a node takes of the headers of its images.
ghost use Rattle.std.specs.Prelude.{◌≡◌};
ghost use Rattle.qn_sector.specs.Reading.{header_of};
ghost use Rattle.qn_machine.specs.Headers.{header_times, header_fault, times_fault, times_of};

use qn_model::{Timing, timing_safe};
use qn_outside::Times;
use qn_sector::get_header;
use std::fmt;
use std::fmt::Display;

/// The least feed delay at which a feed can be in time, in milliseconds.
const LEAST_FEED_DELAY: u64 = 2;

/// Why a node is not opened beside an image.
#[derive(Clone, Copy, PartialEq, Eq)]
pub(crate) enum HeaderFault {
    /// Its first sector is no header of version 2.
    NoHeader,
    /// It is one of so many nodes, and the settings text has so many.
    OtherNodes(u32, u32),
    /// Its times are not safe.
    UnsafeTimes,
    /// Its feed delay is so short, in milliseconds, that no feed is in time.
    NoFeed(u64),
}

impl Display for HeaderFault {
    fn fmt<W: fmt::Write>(&self, f: &mut fmt::Formatter<W>) -> fmt::Result {
        match self {
            HeaderFault::NoHeader => {
                f.write_str("no image: its first sector is no header of version 2")
            }
            HeaderFault::OtherNodes(image, text) => {
                write!(f, "an image of {image} nodes, and the text has {text}")
            }
            HeaderFault::UnsafeTimes => f.write_str("its times are not safe"),
            HeaderFault::NoFeed(feed_delay) => {
                write!(f, "feed delay {feed_delay}: no feed is in time")
            }
        }
    }
}

/// What the outside of a node keeps by, of the times of a header.
pub(crate) fn header_times(timing: &Timing) -> Times
    ensures { result ≡ header_times timing.now }
{
    Times {
        watchdog: timing.watchdog,
        feed_delay: timing.feed_delay,
    }
}

/// The times that sector 0 of an image says, where a node of a text of so many nodes is to be opened there; else why it is not.
pub(crate) fn times_of(sector: &[u8; 512], text: Option<u32>) -> Result<Times, HeaderFault>
    ensures { result ≡ times_of text (header_of sector.now) }
{
    let Some((nodes, timing)) = get_header(sector) else {
        return Err(HeaderFault::NoHeader);
    };
    match header_fault(text, nodes, &timing) {
        None => Ok(header_times(&timing)),
        Some(fault) => Err(fault),
    }
}

/// Why a node of a text of so many nodes is not opened beside a header.
fn header_fault(text: Option<u32>, nodes: u32, timing: &Timing) -> Option<HeaderFault>
    ensures { result ≡ header_fault text nodes timing.now }
{
    match text {
        Some(text) if text != nodes => Some(HeaderFault::OtherNodes(nodes, text)),
        Some(_) | None => times_fault(timing),
    }
}

/// Why the times of a header are not taken.
fn times_fault(timing: &Timing) -> Option<HeaderFault>
    ensures { result ≡ times_fault timing.now }
{
    if !timing_safe(timing) {
        return Some(HeaderFault::UnsafeTimes);
    }
    if timing.feed_delay < LEAST_FEED_DELAY {
        return Some(HeaderFault::NoFeed(timing.feed_delay));
    }
    None
}
