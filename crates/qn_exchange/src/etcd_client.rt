//! A client of a member of an etcd cluster that keeps an image: each request over a line of its own.
ghost use Rattle.std.specs.Prelude.{◌≡◌, IfOk, Ok, Some};
ghost use Rattle.qn_etcd.specs.Answers.{done_by, read_says, said_by, write_says};
ghost use Rattle.qn_exchange.specs.Etcd.{GivesSector, SaysDone};

use crate::etcd_exchange::{ANSWER, exchange, strange};
use crate::line::{Line, Spent};
use arrayvec::{ArrayString, ArrayVec};
use qn_etcd::{
    AnswerFault, Boot, MOST_PREFIX, ReadAnswer, WriteAnswer, Writer, holder_request, open_request,
    post, read_answer, read_request, release_request, sector_key, write_answer, write_request,
    writer_key,
};
use qn_io::SECTOR;
use std::alloc::{AllocError, Global};
use std::io::{self, ErrorKind};

/// The most bytes of an address and a port as they stand in a request.
pub const MOST_HOST: usize = 128;

/// What became of a sector that was asked for.
#[derive(Clone, Copy, PartialEq, Eq)]
pub enum SectorRead {
    /// The condition of the writer was not so: nothing was read.
    Refused,
    /// It was read; a key that is not there is zeros.
    Done,
    /// Its key is there, and has another length than a sector.
    OtherLength,
}

/// What a client of a cluster keeps: whom it asks, under which prefix, and as whom.
#[derive(Drop)]
pub struct EtcdClient {
    pub alloc: Global,
    pub host: ArrayString<MOST_HOST>,
    pub prefix: ArrayString<MOST_PREFIX>,
    pub writer: Writer,
}

impl EtcdClient {
    ghost use Rattle.std.specs.Prelude.{◌≡◌, ◌<◌, Some, IfOk, OnErr};
    ghost use Rattle.std.specs.String.{string_bytes};
    ghost use Rattle.qn_etcd.specs.Answers.{done_by, read_says, said_by};
    ghost use Rattle.qn_etcd.specs.Keys.{sector_key, writer_key};
    ghost use Rattle.qn_etcd.specs.Requests.{holder_text, open_text, post_text, read_text, write_text};
    ghost use Rattle.qn_exchange.specs.Etcd.{Asks, Begins, FindsHolder, IsRelease, NotesWrite, OpensBoot, ReadsKey, Releases, WritesKey};

    /// Reads a sector over a line, as the writer reads it. Where what came is no answer to it, or did not come, the line is given up.
    pub fn read<L: Line + Drop>(
        &self,
        line: L,
        sector: u32,
        into: &mut [u8; SECTOR],
    ) -> io::Result<(Spent<L>, SectorRead)>
        requires { sector < 10000 }
        ensures { IfOk result (λ r. ReadsKey self.now sector (L.written line) (L.written r.0.line)
            (L.unread line) (L.unread r.0.line) r.1 into.new) }
    {
        let mut line = line;
        let mut answer = ArrayVec::new();
        let body = self.text_to_read(sector)?;
        let text = self.ask(&mut line, body.as_str(), &mut answer)?;
        let said = self.said_of_sector(sector, text)?;
        let done = put_sector(&said, into);
        Ok((Spent { line }, done))
    }

    /// Writes a sector over a line, so that it lasts, and says whether the condition of the writer was so. Where what came is no answer to it, or
    /// did not come, the line is given up.
    pub fn write<L: Line + Drop>(
        &mut self,
        line: L,
        sector: u32,
        from: &[u8; SECTOR],
    ) -> io::Result<(Spent<L>, bool)>
        requires { sector < 10000 }
        ensures wrote { IfOk result (λ r. WritesKey self.old self.new sector
            (L.written line) (L.written r.0.line) (L.unread line) (L.unread r.0.line) r.1 from.now) }
        ensures failed { OnErr result (self.new ≡ self.old) }
    {
        let mut line = line;
        let mut answer = ArrayVec::new();
        let body = self.text_to_write(sector, from)?;
        let text = self.ask(&mut line, body.as_str(), &mut answer)?;
        let said = said_of_write(self.alloc, text)?;
        let done = self.note(sector, said);
        Ok((Spent { line }, done))
    }

    /// Reads over a line what the writer's key of that rank holds.
    pub fn find_holder<L: Line + Drop>(
        &self,
        line: L,
        rank: u8,
    ) -> io::Result<(Spent<L>, ReadAnswer)>
        ensures { IfOk result (λ r. FindsHolder self.now rank (L.written line) (L.written r.0.line)
            (L.unread line) (L.unread r.0.line) r.1) }
    {
        let mut line = line;
        let mut answer = ArrayVec::new();
        let body = self.text_to_find(rank)?;
        let text = self.ask(&mut line, body.as_str(), &mut answer)?;
        let said = self.said_of_holder(rank, text)?;
        Ok((Spent { line }, said))
    }

    /// Opens over a line for a boot, where the writer's key was changed last at that revision, and says whether that was so: then each later
    /// request is that boot's.
    pub fn open<L: Line + Drop>(
        &mut self,
        line: L,
        boot: Boot,
        revision: u64,
    ) -> io::Result<(Spent<L>, bool)>
        ensures opened { IfOk result (λ r. OpensBoot self.old self.new boot revision
            (L.written line) (L.written r.0.line) (L.unread line) (L.unread r.0.line) r.1) }
        ensures failed { OnErr result (self.new ≡ self.old) }
    {
        let mut line = line;
        let mut answer = ArrayVec::new();
        let body = self.text_to_open(&boot, revision)?;
        let text = self.ask(&mut line, body.as_str(), &mut answer)?;
        let said = said_of_write(self.alloc, text)?;
        let done = self.begin(boot, said);
        Ok((Spent { line }, done))
    }

    /// Sets the writer's key free over a line, where it holds the boot's token, and says whether that was so. It fails where the writer is none.
    pub fn release<L: Line + Drop>(&self, line: L) -> io::Result<(Spent<L>, bool)>
        ensures { IfOk result (λ r. Releases self.now (L.written line) (L.written r.0.line)
            (L.unread line) (L.unread r.0.line) r.1) }
    {
        let mut line = line;
        let mut answer = ArrayVec::new();
        let body = self.text_to_release()?;
        let text = self.ask(&mut line, body.as_str(), &mut answer)?;
        let said = said_of_write(self.alloc, text)?;
        let done = is_done(said);
        Ok((Spent { line }, done))
    }

    /// The body of a request that reads a sector.
    fn text_to_read(&self, sector: u32) -> io::Result<String>
        requires { sector < 10000 }
        ensures { IfOk result (λ text.
            string_bytes text ≡ read_text self.now.prefix.bytes self.now.writer sector) }
    {
        let prefix = self.prefix.as_str().as_bytes();
        made(read_request(self.alloc, prefix, &self.writer, sector))
    }

    /// The body of a request that writes a sector.
    fn text_to_write(&self, sector: u32, from: &[u8]) -> io::Result<String>
        requires { sector < 10000 }
        ensures { IfOk result (λ text.
            string_bytes text ≡ write_text self.now.prefix.bytes self.now.writer sector from.now) }
    {
        let prefix = self.prefix.as_str().as_bytes();
        made(write_request(self.alloc, prefix, &self.writer, sector, from))
    }

    /// The body of a request that reads the writer's key of a rank.
    fn text_to_find(&self, rank: u8) -> io::Result<String>
        ensures { IfOk result (λ text. string_bytes text ≡ holder_text self.now.prefix.bytes rank) }
    {
        made(holder_request(self.alloc, self.prefix.as_str().as_bytes(), rank))
    }

    /// The body of a request that opens for a boot.
    fn text_to_open(&self, boot: &Boot, revision: u64) -> io::Result<String>
        ensures { IfOk result (λ text. string_bytes text
            ≡ open_text self.now.prefix.bytes boot.now.rank revision boot.now.token.items) }
    {
        made(open_request(self.alloc, self.prefix.as_str().as_bytes(), boot, revision))
    }

    /// The body of a request that sets the writer's key free.
    fn text_to_release(&self) -> io::Result<String>
        ensures { IfOk result (λ text. IsRelease self.now self.now.writer (string_bytes text)) }
    {
        match &self.writer {
            Writer::Boot(boot) => {
                made(release_request(self.alloc, self.prefix.as_str().as_bytes(), boot))
            }
            Writer::Command(_) => Err(io::Error::other("no boot has opened it")),
        }
    }

    /// What the body of an answer to a read of a sector says.
    fn said_of_sector(&self, sector: u32, text: &str) -> io::Result<ReadAnswer>
        requires { sector < 10000 }
        ensures { IfOk result (λ said.
            read_says (sector_key self.now.prefix.bytes sector) text.now ≡ Some (said_by said)) }
    {
        let key = sector_key(self.prefix.as_str().as_bytes(), sector);
        said_of_read(self.alloc, key.as_slice(), text)
    }

    /// What the body of an answer to a read of the writer's key of a rank says.
    fn said_of_holder(&self, rank: u8, text: &str) -> io::Result<ReadAnswer>
        ensures { IfOk result (λ said.
            read_says (writer_key self.now.prefix.bytes rank) text.now ≡ Some (said_by said)) }
    {
        let key = writer_key(self.prefix.as_str().as_bytes(), rank);
        said_of_read(self.alloc, key.as_slice(), text)
    }

    /// Notes what the answer to a write says; whether it was done.
    fn note(&mut self, sector: u32, said: WriteAnswer) -> bool
        ensures { NotesWrite (Some (done_by said)) result sector self.old self.new }
    {
        match said {
            WriteAnswer::Refused => false,
            WriteAnswer::Done(revision) => {
                self.writer.note_write(sector, revision);
                true
            }
        }
    }

    /// Notes what the answer to the opening for a boot says; whether it was done.
    fn begin(&mut self, boot: Boot, said: WriteAnswer) -> bool
        ensures { Begins (Some (done_by said)) result boot self.old self.new }
    {
        match said {
            WriteAnswer::Refused => false,
            WriteAnswer::Done(_) => {
                self.writer = Writer::Boot(boot);
                true
            }
        }
    }

    /// Sends a request with this body, and gives the body of the answer.
    fn ask<'a, L: Line>(
        &self,
        line: &mut L,
        body: &str,
        answer: &'a mut ArrayVec<u8, ANSWER>,
    ) -> io::Result<&'a str>
        ensures { IfOk result (λ text. Asks (L.written line.old) (L.written line.new)
            (L.unread line.old) (L.unread line.new)
            (post_text self.now.host.bytes body.now) text.now) }
    {
        let request = made(post(self.alloc, self.host.as_str(), body))?;
        exchange(request.as_str().as_bytes(), line, answer)
    }
}

/// Puts what the answer to a read says into a sector; what became of it.
fn put_sector(said: &ReadAnswer, into: &mut [u8; SECTOR]) -> SectorRead
    ensures { GivesSector (Some (said_by said.now)) result into.new }
{
    match said {
        ReadAnswer::Refused => SectorRead::Refused,
        ReadAnswer::Absent => {
            into.fill(0);
            SectorRead::Done
        }
        ReadAnswer::Present(entry) => {
            let value = entry.value.as_slice();
            if value.len() != SECTOR {
                return SectorRead::OtherLength;
            }
            into.copy_from_slice(value);
            SectorRead::Done
        }
    }
}

/// Whether a write was done.
fn is_done(said: WriteAnswer) -> bool
    ensures { SaysDone (Some (done_by said)) result }
{
    match said {
        WriteAnswer::Refused => false,
        WriteAnswer::Done(_) => true,
    }
}

/// What the body of an answer to a read of a key says.
fn said_of_read(alloc: Global, key: &[u8], text: &str) -> io::Result<ReadAnswer>
    ensures { IfOk result (λ said. read_says key.now text.now ≡ Some (said_by said)) }
{
    match read_answer(alloc, key, text) {
        Ok(said) => Ok(said),
        Err(fault) => Err(no_answer(fault)),
    }
}

/// What the body of an answer to a write says.
fn said_of_write(alloc: Global, text: &str) -> io::Result<WriteAnswer>
    ensures { IfOk result (λ said. write_says text.now ≡ Some (done_by said)) }
{
    match write_answer(alloc, text) {
        Ok(said) => Ok(said),
        Err(fault) => Err(no_answer(fault)),
    }
}

/// A text, where there was memory for it.
fn made(text: Result<String, AllocError>) -> io::Result<String>
    ensures { IfOk result (λ made. text ≡ Ok made) }
{
    match text {
        Ok(text) => Ok(text),
        Err(_) => Err(io::Error::from(ErrorKind::OutOfMemory)),
    }
}

fn no_answer(fault: AnswerFault) -> io::Error {
    match fault {
        AnswerFault::NoMemory => io::Error::from(ErrorKind::OutOfMemory),
        AnswerFault::Strange => strange(),
    }
}
