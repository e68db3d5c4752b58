//! An image in an etcd cluster: each sector a key.

use crate::connection::{Connection, TimedLine};
use crate::etcd_word::EtcdAt;
use crate::image::Opener;
use crate::image_word::ServerAt;
use crate::server_times::ServerTimes;
use crate::start_ids::StartIds;
use arrayvec::ArrayString;
use qn_base::Rank;
use qn_etcd::{Boot, ReadAnswer, Writer, opening_revision, token_of};
use qn_exchange::{EtcdClient, SectorRead};
use qn_io::SECTOR;
use std::alloc::Global;
use std::fs::File;
use std::io::{self, ErrorKind};
use std::net::{Net, SocketAddr, TcpStream};
use std::rt::Files;
use std::time::Clock;

/// The most bytes of the word of an image in a cluster.
const WORD: usize = 256;

/// An image in an etcd cluster. Each request goes to a member over a connection of its own, which the client keeps, so that what came of an
/// earlier request is never taken for the answer.
#[derive(Drop)]
pub(crate) struct EtcdImage {
    word: ArrayString<WORD>,
    address: SocketAddr,
    client: EtcdClient,
    times: ServerTimes,
}

impl EtcdImage {
    ghost use Rattle.std.specs.Prelude.{◌<◌};

    /// Sees that the member of that word takes a connection.
    pub(crate) fn open<R: Net<Stream = TcpStream> + Clock + AllocGlobal>(
        rt: &R,
        word: &str,
        at: &EtcdAt<'_>,
        opener: Opener,
    ) -> io::Result<EtcdImage> {
        let image = EtcdImage::unasked(rt.alloc(), word, at, opener)?;
        let end = image.times.end(rt)?;
        let _connection = Connection::open(rt, ServerAt::Tcp(at.address), end)?;
        Ok(image)
    }

    fn unasked(
        alloc: Global,
        word: &str,
        at: &EtcdAt<'_>,
        opener: Opener,
    ) -> io::Result<EtcdImage> {
        let mut image = EtcdImage {
            word: ArrayString::new(),
            address: at.address,
            client: EtcdClient {
                alloc,
                host: ArrayString::new(),
                prefix: ArrayString::new(),
                writer: Writer::Command(None),
            },
            times: ServerTimes::of(opener),
        };
        let fits = image.word.try_push_str(word).is_ok()
            && image.client.host.try_push_str(at.host).is_ok()
            && image.client.prefix.try_push_str(at.prefix).is_ok();
        if fits { Ok(image) } else { Err(too_long()) }
    }

    /// The word that it was opened by.
    pub(crate) fn name(&self) -> &str {
        self.word.as_str()
    }

    /// Opens it for a boot of the node of that rank: from then on no earlier boot of that node reads or writes. It fails where
    /// the node is of another machine, which has not left.
    pub(crate) fn begin_boot<R: Files<File = File> + Net<Stream = TcpStream> + Clock, E: Eprint>(
        &mut self,
        rt: &R,
        errors: &E,
        rank: Rank,
    ) -> io::Result<()> {
        let ids = StartIds::read(rt, errors)?;
        let Some(token) = token_of(
            ids.machine.as_slice(),
            ids.boot.as_slice(),
            ids.start.as_slice(),
        ) else {
            return Err(too_long());
        };
        let boot = Boot {
            rank: rank.0,
            token,
        };
        let found = self.ask_holder(rt, rank)?;
        let Some(revision) = opening_revision(ids.machine.as_slice(), &found) else {
            self.say_holder(errors, rank, &found);
            return Err(io::Error::other("the node is of another machine"));
        };
        if self.ask_open(rt, boot, revision)? {
            Ok(())
        } else {
            Err(io::Error::other("another start of the node was quicker"))
        }
    }

    /// Ends the boot of a node that has left: another machine may open it then.
    pub(crate) fn end_boot<R: Net<Stream = TcpStream> + Clock>(
        &mut self,
        rt: &R,
    ) -> io::Result<()> {
        if matches!(self.client.writer, Writer::Command(_)) {
            return Ok(());
        }
        if self.ask_release(rt)? {
            Ok(())
        } else {
            Err(self.refusal())
        }
    }

    /// Reads a sector; one whose key is not there is zeros.
    pub(crate) fn read<R: Net<Stream = TcpStream> + Clock>(
        &mut self,
        rt: &R,
        sector: u32,
        into: &mut [u8; SECTOR],
    ) -> io::Result<()>
        requires { sector < 3072 }
    {
        match self.ask_read(rt, sector, into)? {
            SectorRead::Done => Ok(()),
            SectorRead::Refused => Err(self.refusal()),
            SectorRead::OtherLength => Err(io::Error::other("a key of a sector has no 512 bytes")),
        }
    }

    /// Writes a sector, which lasts when that is done.
    pub(crate) fn write<R: Net<Stream = TcpStream> + Clock>(
        &mut self,
        rt: &R,
        sector: u32,
        from: &[u8; SECTOR],
    ) -> io::Result<()>
        requires { sector < 3072 }
    {
        if self.ask_write(rt, sector, from)? {
            Ok(())
        } else {
            Err(self.refusal())
        }
    }

    /// Says on standard error of which machine the node is, and what to do.
    fn say_holder<E: Eprint>(&self, errors: &E, rank: Rank, found: &ReadAnswer) {
        let ReadAnswer::Present(entry) = found else {
            return;
        };
        let token = str::from_utf8(entry.value.as_slice()).unwrap_or("?");
        let machine = token.split_once(' ').map_or(token, |parts| parts.0);
        let (prefix, rank) = (self.client.prefix.as_str(), rank.0);
        let _ = eprintln!(errors;
            "quorumd: {prefix}/writer/{rank:02} is of machine {machine}: etcdctl del {prefix}/writer/{rank:02} once that is off"
        );
    }

    /// Why a transaction did nothing.
    fn refusal(&self) -> io::Error {
        match self.client.writer {
            Writer::Boot(_) => io::Error::other("a later start of this node reads and writes now"),
            Writer::Command(None) => io::Error::other("there are keys of this prefix already"),
            Writer::Command(Some(_)) => io::Error::other("somebody else wrote the image meanwhile"),
        }
    }

    /// Asks for a sector. Where that failed no connection is tried for a second; so it is for each request.
    fn ask_read<R: Net<Stream = TcpStream> + Clock>(
        &mut self,
        rt: &R,
        sector: u32,
        into: &mut [u8; SECTOR],
    ) -> io::Result<SectorRead>
        requires { sector < 3072 }
    {
        self.times.check_rest(rt)?;
        let asked = match self.line(rt) {
            Ok(line) => self.client.read(line, sector, into),
            Err(error) => Err(error),
        };
        let (_line, read) = self.times.noted(rt, asked)?;
        Ok(read)
    }

    /// Asks that a sector is written; whether the condition was so.
    fn ask_write<R: Net<Stream = TcpStream> + Clock>(
        &mut self,
        rt: &R,
        sector: u32,
        from: &[u8; SECTOR],
    ) -> io::Result<bool>
        requires { sector < 3072 }
    {
        self.times.check_rest(rt)?;
        let asked = match self.line(rt) {
            Ok(line) => self.client.write(line, sector, from),
            Err(error) => Err(error),
        };
        let (_line, is_done) = self.times.noted(rt, asked)?;
        Ok(is_done)
    }

    /// Asks what the writer's key of that rank holds.
    fn ask_holder<R: Net<Stream = TcpStream> + Clock>(
        &mut self,
        rt: &R,
        rank: Rank,
    ) -> io::Result<ReadAnswer> {
        self.times.check_rest(rt)?;
        let asked = match self.line(rt) {
            Ok(line) => self.client.find_holder(line, rank.0),
            Err(error) => Err(error),
        };
        let (_line, found) = self.times.noted(rt, asked)?;
        Ok(found)
    }

    /// Asks that it is opened for a boot; whether the writer's key was still as it was at that revision.
    fn ask_open<R: Net<Stream = TcpStream> + Clock>(
        &mut self,
        rt: &R,
        boot: Boot,
        revision: u64,
    ) -> io::Result<bool> {
        self.times.check_rest(rt)?;
        let asked = match self.line(rt) {
            Ok(line) => self.client.open(line, boot, revision),
            Err(error) => Err(error),
        };
        let (_line, is_open) = self.times.noted(rt, asked)?;
        Ok(is_open)
    }

    /// Asks that the writer's key is set free; whether the boot still had it.
    fn ask_release<R: Net<Stream = TcpStream> + Clock>(&mut self, rt: &R) -> io::Result<bool> {
        self.times.check_rest(rt)?;
        let asked = match self.line(rt) {
            Ok(line) => self.client.release(line),
            Err(error) => Err(error),
        };
        let (_line, is_free) = self.times.noted(rt, asked)?;
        Ok(is_free)
    }

    /// A connection of its own to the member, for one request.
    fn line<'a, R: Net<Stream = TcpStream> + Clock>(
        &self,
        rt: &'a R,
    ) -> io::Result<TimedLine<'a, R>> {
        let end = self.times.end(rt)?;
        TimedLine::open(rt, ServerAt::Tcp(self.address), end)
    }
}

fn too_long() -> io::Error {
    io::Error::new(
        ErrorKind::InvalidInput,
        "too long for an image in a cluster",
    )
}
