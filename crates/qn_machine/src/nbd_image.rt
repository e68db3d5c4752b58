//! An image on a block server (NBD).
ghost use Rattle.std.specs.Prelude.{◌≤◌, length};

use crate::connection::{Connection, TimedLine};
use crate::deadline::Deadline;
use crate::image::Opener;
use crate::image_word::{ImageWord, Place};
use crate::server_times::ServerTimes;
use arrayvec::{ArrayString, ArrayVec};
use qn_exchange::{NbdClient, Stride};
use qn_io::SECTOR;
use qn_nbd::{Export, GREETING, MOST_NAME, REPLY, Reply, Unfit, greeting_of, put_option, reply_of};
use std::io::{self, ErrorKind, Read, Write};
use std::net::{Net, TcpStream};
use std::time::Clock;

/// How many sectors an export has room for.
const ROOM: u64 = 1024;

/// How many replies to an option are looked at.
const REPLIES: u32 = 16;

/// The most bytes of what a server tells of an export in one reply.
const TOLD: usize = 4096;

/// The most bytes of the word of an image on a server.
const WORD: usize = 512;

/// An image on a block server, over one connection, which is made anew where it failed.
#[derive(Drop)]
pub(crate) struct NbdImage {
    word: ArrayString<WORD>,
    /// It counts its requests over all connections.
    client: NbdClient,
    times: ServerTimes,
    is_read_only: bool,
    connection: Option<Connection>,
}

impl NbdImage {
    /// Connects to the server of that word and looks at the export. One that can only be read is opened where that is enough.
    pub(crate) fn open<R: Net<Stream = TcpStream> + Clock>(
        rt: &R,
        word: &str,
        stride: Stride,
        opener: Opener,
    ) -> io::Result<NbdImage> {
        let mut kept = ArrayString::new();
        if kept.try_push_str(word).is_err() {
            return Err(wrong("too long for an image on a server"));
        }
        let mut image = NbdImage {
            word: kept,
            client: NbdClient::new(stride),
            times: ServerTimes::of(opener),
            is_read_only: false,
            connection: None,
        };
        let end = image.times.end(rt)?;
        image.connection = Some(image.connect(rt, end)?);
        match opener {
            Opener::Node(_) if image.is_read_only => Err(read_only()),
            Opener::Node(_) | Opener::Command | Opener::Reader => Ok(image),
        }
    }

    /// How far apart its sectors stand.
    pub(crate) fn stride(&self) -> Stride {
        self.client.stride
    }

    /// The word that it was opened by.
    pub(crate) fn name(&self) -> &str {
        self.word.as_str()
    }

    /// Reads a sector.
    pub(crate) fn read<R: Net<Stream = TcpStream> + Clock>(
        &mut self,
        rt: &R,
        sector: u32,
        into: &mut [u8; SECTOR],
    ) -> io::Result<()> {
        let end = self.times.end(rt)?;
        let line = TimedLine::new(self.ready(rt, end)?, rt, end);
        let done = self.client.read(line, sector, into);
        self.keep(rt, done)
    }

    /// Writes a sector, which lasts when that is done.
    pub(crate) fn write<R: Net<Stream = TcpStream> + Clock>(
        &mut self,
        rt: &R,
        sector: u32,
        from: &[u8; SECTOR],
    ) -> io::Result<()> {
        if self.is_read_only {
            return Err(read_only());
        }
        let end = self.times.end(rt)?;
        let line = TimedLine::new(self.ready(rt, end)?, rt, end);
        let done = self.client.write(line, sector, from);
        self.keep(rt, done)
    }

    /// The connection, which is made anew where the last one failed; but not sooner than a second after that.
    fn ready<R: Net<Stream = TcpStream> + Clock>(
        &mut self,
        rt: &R,
        end: Deadline,
    ) -> io::Result<Connection> {
        if let Some(connection) = self.connection.take() {
            return Ok(connection);
        }
        self.times.check_rest(rt)?;
        let made = self.connect(rt, end);
        self.times.noted(rt, made)
    }

    /// Keeps the connection that the client gave back, where the server answered, also that it failed; else tries none for a second.
    fn keep<R: Clock>(
        &mut self,
        rt: &R,
        done: io::Result<(TimedLine<'_, R>, bool)>,
    ) -> io::Result<()> {
        let (line, is_done) = self.times.noted(rt, done)?;
        self.connection = Some(line.connection);
        if is_done {
            Ok(())
        } else {
            Err(wrong("the server could not do it"))
        }
    }

    /// Connects to the server, and looks at the export.
    fn connect<R: Net<Stream = TcpStream> + Clock>(
        &mut self,
        rt: &R,
        end: Deadline,
    ) -> io::Result<Connection> {
        let Place::Block(at, name) = ImageWord::read(self.word.as_str())?.place else {
            return Err(wrong("no block server"));
        };
        if name.len() > MOST_NAME {
            return Err(wrong("the name of the export is too long"));
        }
        let connection = Connection::open(rt, at, end)?;
        let export = export_of(name.as_bytes(), &mut connection.until(rt, end))?;
        let place = self.client.stride.bytes();
        if let Some(unfit) = export.unfit(place as u32, place as u64 * ROOM) {
            return Err(unfit_export(unfit));
        }
        self.is_read_only = export.is_read_only();
        Ok(connection)
    }
}

/// Asks for the export of that name on a new connection, and takes what the server tells of it.
fn export_of<S: Read + Write>(name: &[u8], stream: &mut S) -> io::Result<Export>
    requires { length name.now ≤ 255 }
{
    let mut greeting = [0; GREETING];
    stream.read_exact(&mut greeting)?;
    let Some(flags) = greeting_of(&greeting) else {
        return Err(wrong("no block server of fixed newstyle"));
    };
    let mut wish = ArrayVec::new();
    put_option(flags, name, &mut wish);
    stream.write_all(wish.as_slice())?;
    let mut export = Export::default();
    'replies: for _ in 0..REPLIES {
        let mut head = [0; REPLY];
        stream.read_exact(&mut head)?;
        match reply_of(&head) {
            Reply::Granted => return Ok(export),
            Reply::Tells(count) => take_told(count as usize, stream, &mut export)?,
            Reply::Refused => return Err(wrong("the server refuses the export")),
            Reply::Strange => return Err(wrong("not the reply to the wish for an export")),
        }
    }
    Err(wrong("the replies of the server do not end"))
}

/// Takes what a reply of so many bytes tells of an export.
fn take_told<S: Read>(count: usize, stream: &mut S, export: &mut Export) -> io::Result<()> {
    let mut told = [0; TOLD];
    let Some(bytes) = told.get_mut(..count) else {
        return Err(wrong("a reply that is too long"));
    };
    stream.read_exact(bytes)?;
    export.take(bytes);
    Ok(())
}

/// What is wrong with a server or its export.
fn wrong(what: &'static str) -> io::Error {
    io::Error::other(what)
}

/// An export that can only be read.
fn read_only() -> io::Error {
    io::Error::new(ErrorKind::ReadOnlyFilesystem, "the export can only be read")
}

/// Why no image can lie on an export.
fn unfit_export(unfit: Unfit) -> io::Error {
    match unfit {
        Unfit::NotLasting => wrong("its writes do not last: the server takes no FUA"),
        Unfit::Short => wrong("the export is shorter than 1024 sectors"),
        Unfit::LongBlocks => wrong("its blocks are longer than a sector: write IMAGE@4096"),
    }
}
