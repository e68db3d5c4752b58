//! The word of an image: where the image lies, and how far apart its sectors stand.

use crate::etcd_word::{CLUSTER, EtcdAt};
use qn_exchange::Stride;
use std::io::{self, ErrorKind};
use std::net::SocketAddr;

/// What stands before the place of a block server.
const BLOCK_SERVER: &str = "nbd:";

/// What stands before the path of a server's socket.
const SOCKET: &str = "unix:";

/// What stands between that path and the name of an export, as QEMU writes it.
const EXPORT: &str = ":exportname=";

/// What stands after an image whose sectors have places of 4096 bytes.
pub(crate) const LONG: &str = "@4096";

/// Where a server is.
#[derive(Clone, Copy)]
pub(crate) enum ServerAt<'w> {
    Tcp(SocketAddr),
    /// The path of a Unix socket.
    Unix(&'w str),
}

/// Where an image lies.
#[derive(Clone, Copy)]
pub(crate) enum Place<'w> {
    /// A file of that path.
    File(&'w str),
    /// An export of a block server, by its name.
    Block(ServerAt<'w>, &'w str),
    /// Keys of an etcd cluster.
    Cluster(EtcdAt<'w>),
}

/// What the word of an image says.
#[derive(Clone, Copy)]
pub(crate) struct ImageWord<'w> {
    pub(crate) place: Place<'w>,
    pub(crate) stride: Stride,
}

impl<'w> ImageWord<'w> {
    /// Reads the word: `PATH`, `nbd:HOST:PORT`, `nbd:HOST:PORT/NAME`, `nbd:unix:PATH` or `nbd:unix:PATH:exportname=NAME`, each perhaps with
    /// `@4096` after it; or `etcd:HOST:PORT/PREFIX`. HOST is a literal address, one of IPv6 in brackets.
    pub(crate) fn read(word: &'w str) -> io::Result<ImageWord<'w>> {
        let (place, stride) = match word.strip_suffix(LONG) {
            Some(place) => (place, Stride::Long),
            None => (word, Stride::Short),
        };
        let place = match (place.strip_prefix(BLOCK_SERVER), word.strip_prefix(CLUSTER)) {
            (Some(server), _) => block_server(server)?,
            (None, Some(cluster)) => Place::Cluster(EtcdAt::read(cluster)?),
            (None, None) => Place::File(place),
        };
        Ok(ImageWord { place, stride })
    }
}

/// Reads what stands after `nbd:`.
fn block_server(word: &str) -> io::Result<Place<'_>> {
    if let Some(socket) = word.strip_prefix(SOCKET) {
        let (path, name) = socket.split_once(EXPORT).unwrap_or((socket, ""));
        return Ok(Place::Block(ServerAt::Unix(path), name));
    }
    let (address, name) = word.split_once('/').unwrap_or((word, ""));
    match address.parse::<SocketAddr>() {
        Ok(address) => Ok(Place::Block(ServerAt::Tcp(address), name)),
        Err(_) => Err(io::Error::new(
            ErrorKind::InvalidInput,
            "no address and port of a block server",
        )),
    }
}
