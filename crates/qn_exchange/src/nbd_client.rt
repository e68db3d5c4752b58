//! A client of a block server (NBD): the sectors of an image over lines that are each given up at the first doubt.
ghost use Rattle.std.specs.Prelude.{◌≡◌, ◌++◌, [], IfOk, OnOk};
ghost use Rattle.qn_nbd.specs.Requests.{request_bytes};
ghost use Rattle.qn_exchange.specs.Clients.{answer_for};

use crate::etcd_exchange::strange;
use crate::line::Line;
use arrayvec::ArrayVec;
use qn_io::SECTOR;
use qn_nbd::{ANSWER, Answer, Command, answer_to, put_request};
use std::io;

/// The most bytes from the place of a sector to that of the next one.
pub const MOST_PLACE: usize = 4096;

/// From the place of a sector to that of the next one.
#[derive(Clone, Copy, PartialEq, Eq)]
pub enum Stride {
    /// 512 bytes.
    Short,
    /// 4096 bytes, of which the first 512 are used.
    Long,
}

/// How many bytes of a long place are not used.
const UNUSED: usize = 3584;

impl Stride {
    ghost use Rattle.std.specs.Prelude.{◌≡◌, OnOk, replicate};
    ghost use Rattle.qn_exchange.specs.Clients.{place_at, place_bytes, Skips, unused_bytes};

    /// It in bytes.
    pub fn bytes(self) -> usize
        ensures { result ≡ place_bytes self }
    {
        match self {
            Stride::Short => SECTOR,
            Stride::Long => MOST_PLACE,
        }
    }

    /// The place of a sector.
    pub fn place_of(self, sector: u32) -> u64
        ensures { result ≡ place_at self sector }
    {
        u64::from(sector) * self.bytes() as u64
    }

    /// What stands in a place after its sector.
    fn unused(self) -> &'static [u8]
        ensures { result.now ≡ replicate (unused_bytes self) 0 }
    {
        match self {
            Stride::Short => &[],
            Stride::Long => &[0; UNUSED],
        }
    }

    /// Reads what stands in a place after its sector.
    fn skip<L: Line>(self, line: &mut L) -> io::Result<()>
        ensures { OnOk result (Skips (L.written line.old) (L.written line.new)
            (L.unread line.old) (L.unread line.new) (unused_bytes self)) }
    {
        match self {
            Stride::Short => Ok(()),
            Stride::Long => {
                let mut unused = [0; UNUSED];
                line.fill(&mut unused)
            }
        }
    }
}

/// What a client of a block server keeps: how far apart the sectors stand, and the number of its last request, over all lines.
#[derive(Clone, Copy, PartialEq, Eq)]
pub struct NbdClient {
    pub stride: Stride,
    pub number: u64,
}

/// A request to a server: a command for the place of a sector, and what stands after it.
#[derive(Clone, Copy)]
struct Wish<'a> {
    command: Command,
    sector: u32,
    bytes: &'a [u8],
    unused: &'a [u8],
}

impl NbdClient {
    ghost use Rattle.std.specs.Prelude.{◌≡◌, ◌++◌, [], IfOk};
    ghost use Rattle.qn_nbd.specs.Requests.{request_bytes};
    ghost use Rattle.qn_exchange.specs.Clients.{Exchanged, next_number, place_at, place_bytes, ReadsSector, WritesSector};

    /// A client that has asked for nothing.
    pub fn new(stride: Stride) -> NbdClient
        ensures { result ≡ record { stride = stride; number = 0 } }
    {
        NbdClient { stride, number: 0 }
    }

    /// Reads a sector over a line, and gives the line back with whether the server could do it. Where what came is no answer to this very
    /// request, or did not come, the line is given up.
    pub fn read<L: Line + Drop>(
        &mut self,
        line: L,
        sector: u32,
        into: &mut [u8; SECTOR],
    ) -> io::Result<(L, bool)>
        ensures next { self.new ≡ record self.old { number = next_number self.old.number } }
        ensures read { IfOk result (λ r. ReadsSector self.new sector
            (L.written line) (L.written r.0) (L.unread line) (L.unread r.0) r.1 into.new) }
    {
        self.number = self.number.wrapping_add(1);
        let mut line = line;
        let wish = Wish {
            command: Command::Read,
            sector,
            bytes: &[],
            unused: &[],
        };
        let done = is_done(self.ask(&mut line, wish)?)?;
        if done {
            line.fill(into)?;
            self.stride.skip(&mut line)?;
        }
        Ok((line, done))
    }

    /// Writes a sector over a line, and gives the line back with whether the server did it, so that it lasts. Where what came is no answer to
    /// this very request, or did not come, the line is given up.
    pub fn write<L: Line + Drop>(
        &mut self,
        line: L,
        sector: u32,
        from: &[u8; SECTOR],
    ) -> io::Result<(L, bool)>
        ensures next { self.new ≡ record self.old { number = next_number self.old.number } }
        ensures wrote { IfOk result (λ r. WritesSector self.new sector
            (L.written line) (L.written r.0) (L.unread line) (L.unread r.0) r.1 from.now) }
    {
        self.number = self.number.wrapping_add(1);
        let mut line = line;
        let wish = Wish {
            command: Command::Write,
            sector,
            bytes: from,
            unused: self.stride.unused(),
        };
        let done = is_done(self.ask(&mut line, wish)?)?;
        Ok((line, done))
    }

    /// Sends the request of the client's number, and reads the head of its answer.
    fn ask<L: Line>(&self, line: &mut L, wish: Wish<'_>) -> io::Result<Answer>
        ensures { IfOk result (λ answer.
            Exchanged (L.written line.old) (L.written line.new) (L.unread line.old) (L.unread line.new)
            (request_bytes wish.entry.command self.now.number (place_at self.now.stride wish.entry.sector)
            (place_bytes self.now.stride) ++ wish.entry.bytes.now ++ wish.entry.unused.now)
            self.now.number answer []) }
    {
        let mut head = ArrayVec::new();
        let at = self.stride.place_of(wish.sector);
        let count = self.stride.bytes() as u32;
        put_request(wish.command, self.number, at, count, &mut head);
        line.send(head.as_slice())?;
        line.send(wish.bytes)?;
        line.send(wish.unused)?;
        let mut answer = [0; ANSWER];
        line.fill(&mut answer)?;
        Ok(answer_to(self.number, &answer))
    }
}

/// Whether a server did what it was asked for; it fails where that is no answer to it.
fn is_done(answer: Answer) -> io::Result<bool>
    ensures { IfOk result (λ done. answer ≡ answer_for done) }
{
    match answer {
        Answer::Done => Ok(true),
        Answer::Failed => Ok(false),
        Answer::Strange => Err(strange()),
    }
}
