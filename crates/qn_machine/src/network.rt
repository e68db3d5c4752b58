//! The network of the nodes and of their arbiter: a UDP socket each, at the port of its rank on its address, which is 127.0.0.1 where nothing
//! else is said; and on two networks two sockets of each node, over which each packet is sent.
use crate::deadline::Deadline;
use crate::edge::Edge;
use crate::error_lines::Lines;
use crate::leave_file::{LeaveFile, REQUEST};
use crate::refusals::Refusals;
use crate::socket::open_socket;
use crate::sockets::Sockets;
use crate::standing_file::StandingFile;
use crate::voices::Telling;
use arrayvec::ArrayVec;
use qn_base::Rank;
use qn_io::PACKET;
use qn_links::{ArbiterPlace, Networks};
use qn_peers::{
    ARBITER, Admission, Admitted, Destination, Dispatch, Peers, Reason, Sender, is_double,
};
use qn_seal::Refused;
use qn_shown::{get_told, put_told};
use std::fs::File;
use std::io::{self, ErrorKind};
use std::net::{IpAddr, Ipv4Addr, Net, SocketAddr, UdpSocket};
use std::rt::Files;
use std::time::{Clock, Duration};

/// How long a packet is waited for, in milliseconds. The system rounds a wait up to a step of its own clock, which
/// is 10 ms at most, so that the whole call takes 50 ms at most.
const WAIT: u64 = 40;

/// How many datagrams a call looks at.
const LOOKS: u32 = 10_000;

/// The sockets of one node or of the arbiter, and what is between them and it.
#[derive(Drop)]
pub(crate) struct Network {
    sockets: Sockets,
    /// The same port of this host, where the node has another address: the lock on the node, of which nothing is read.
    _lock: Option<UdpSocket>,
    admission: Admission,
    dispatch: Dispatch,
    refusals: Refusals,
    /// With what this host asks its node to leave.
    leave: Option<LeaveFile>,
    /// With what this host says whether its node may hold the resource.
    standing: StandingFile,
}

impl Network {
    /// Opens the port of that rank, or of the arbiter as rank 32, at its address, on two networks at each, of which one is enough. Where none is
    /// 127.0.0.1, the same port of 127.0.0.1 is opened before it. It fails where another program holds that port: so no two programs run as one
    /// node on one host.
    pub(crate) fn open<R: Net + Clock + AllocGlobal>(
        rt: &R,
        edge: &Edge,
        first_port: u16,
        rank: Rank,
    ) -> io::Result<Network> {
        let peers = peers_of(edge, first_port, rank);
        let (own, arbiter) = places_of(edge, &peers, first_port, rank)?;
        let host = IpAddr::V4(Ipv4Addr::LOCALHOST);
        let is_on_host = own.first.ip() == host || own.second.is_some_and(|at| at.ip() == host);
        let lock = if is_on_host {
            None
        } else {
            Some(open_socket(rt, SocketAddr::new(host, own.first.port()))?)
        };
        let sockets = Sockets::open(rt, own, Duration::from_millis(WAIT))?;
        let guarding = edge.guarding();
        let dispatch = Dispatch::new(rt, rank, &guarding)?;
        Ok(Network {
            sockets,
            _lock: lock,
            admission: Admission::new(peers, arbiter, &guarding),
            dispatch,
            refusals: Refusals::default(),
            leave: path_of(rt, &edge.leave)?.map(LeaveFile::at),
            standing: StandingFile::at(path_of(rt, &edge.standing_file)?, edge.standing),
        })
    }

    /// The next packet, the first 129 bytes of a longer one; None where none came in time. What is not for the node is passed over, and
    /// the call goes on with the time that is left; so it does after an interruption. Where this host asks its node to leave, that
    /// comes first, and then what this host says anew of it.
    pub(crate) fn receive<R: Files<File = File> + Net + Clock + Eprint>(
        &mut self,
        rt: &R,
        lines: &Lines,
    ) -> io::Result<Option<Admitted>> {
        if let Some(leave) = &mut self.leave {
            if leave.has_come(rt)? {
                return Ok(Admitted::of_host(&REQUEST));
            }
        }
        if let Some(word) = self.standing.news(rt, lines)? {
            return Ok(Admitted::of_host(&word));
        }
        if let Some(telling) = lines.voices().take_due() {
            self.sockets.open_again(rt);
            self.tell(telling);
        }
        let end = Deadline::after(rt, WAIT)?;
        let mut left = Duration::from_millis(WAIT);
        'looks: for _ in 0..LOOKS {
            if let Some(packet) = self.take_within(rt, lines, left)? {
                return Ok(Some(packet));
            }
            left = match end.left(rt)? {
                Some(left) => left,
                None => return Ok(None),
            };
        }
        Ok(None)
    }

    /// Takes the next datagram that comes within that time, where it is for the node.
    fn take_within<C: Clock>(
        &mut self,
        clock: &C,
        lines: &Lines,
        time: Duration,
    ) -> io::Result<Option<Admitted>> {
        let mut datagram = [0; PACKET];
        let Some((count, from)) = self.sockets.receive(time, &mut datagram)? else {
            return Ok(None);
        };
        let tick = u64::try_from(clock.monotonic()?.as_millis()).unwrap_or(u64::MAX);
        Ok(self.take(tick, lines, from, &datagram[..count]))
    }

    /// The packet in a datagram of that address, where it is for the node.
    fn take(
        &mut self,
        tick: u64,
        lines: &Lines,
        from: SocketAddr,
        bytes: &[u8],
    ) -> Option<Admitted> {
        if let Some(vote) = self.admission.take_vote(from, bytes) {
            return Some(vote);
        }
        let sender = self.admission.sender_of(from);
        match self.admission.take(tick, from, bytes) {
            Ok(packet) => {
                self.note_arrival(lines, sender, tick);
                let said = get_told(packet.as_slice());
                match said {
                    Some((teller, told)) => {
                        if is_rank(sender, teller) {
                            lines.voices().hear(teller, told, tick);
                        }
                        None
                    }
                    None => Some(packet),
                }
            }
            Err(reason) if is_double(&self.admission.peers, sender, reason) => {
                self.note_arrival(lines, sender, tick);
                None
            }
            Err(reason) => {
                self.refuse(lines, sender, reason);
                None
            }
        }
    }

    /// Notes over which of two networks a packet of a node came.
    fn note_arrival(&self, lines: &Lines, sender: Option<Sender>, tick: u64) {
        if let Some(Sender::Rank(rank, ring)) = sender
            && self.admission.peers.networks.second.is_some()
        {
            lines.voices().arrive(rank, ring, tick);
        }
    }

    /// Counts a datagram that is not handed on, which came from the address of that sender.
    fn refuse(&mut self, lines: &Lines, sender: Option<Sender>, reason: Reason) {
        self.refusals.count(reason);
        lines.count_refused();
        if let (Some(sender), Reason::Sealed(Refused::Unsealed)) = (sender, reason) {
            lines.voices().refuse(sender.seat());
        }
    }

    /// Tells each other node how this one is, where that is due. A node that leaves sends its farewell after that, and receives nothing any more.
    pub(crate) fn tell_due(&mut self, lines: &Lines) {
        if let Some(telling) = lines.voices().take_due() {
            self.tell(telling);
        }
    }

    /// Tells each other node how this one is. What cannot be sent is lost, as any packet may be.
    fn tell(&mut self, telling: Telling) {
        let own = Rank(self.admission.peers.own);
        let mut spelling = ArrayVec::new();
        put_told(own, telling.told, &mut spelling);
        'ranks: for rank in 0..self.admission.peers.count().min(telling.nodes) {
            if rank != own.0 {
                let _ = self.send(Rank(rank), spelling.as_slice());
            }
        }
    }

    /// Says on standard error, at most once a minute, how many datagrams were passed over.
    pub(crate) fn say_refusals<R: Clock + Eprint>(&mut self, rt: &R, lines: &Lines, tick: u64) {
        self.refusals.say(rt, lines, tick);
    }

    /// Where the arbiter is that the node polls, where it has one.
    pub(crate) fn arbiter(&self) -> Option<SocketAddr> {
        self.admission.arbiter
    }

    /// The address of the node on the one of two networks where it is not open, since this host does not have it.
    pub(crate) fn closed(&self) -> Option<SocketAddr> {
        self.sockets.closed()
    }

    /// Sends a packet to the node of that rank, or to the arbiter as rank 32, whether it is there or not. What is for an arbiter of which nobody
    /// knows where it is, is lost: the opening of the node has said so.
    pub(crate) fn send(&mut self, to: Rank, bytes: &[u8]) -> io::Result<()> {
        let Some(destination) = self.destination_of(to)? else {
            return Ok(());
        };
        let packet = self.dispatch.packet(to, bytes)?;
        self.sockets.send(&packet, destination)
    }

    /// Where packets for the node of that rank are sent, or for the arbiter as rank 32, which is on the first network alone.
    fn destination_of(&self, to: Rank) -> io::Result<Option<Destination>> {
        if to.0 == ARBITER {
            return Ok(self.admission.arbiter.map(at_first));
        }
        match self.admission.peers.destination_of(to.0) {
            Some(destination) => Ok(Some(destination)),
            None => Err(io::Error::new(ErrorKind::InvalidInput, "no address of that node")),
        }
    }
}

/// That address and port on the first network alone.
fn at_first(at: SocketAddr) -> Destination {
    Destination {
        first: at,
        second: None,
    }
}

/// Whether it is the node of that rank.
fn is_rank(sender: Option<Sender>, rank: Rank) -> bool {
    matches!(sender, Some(Sender::Rank(of, _)) if of == rank.0)
}

/// Where the nodes are. An arbiter knows them on the first network alone.
fn peers_of(edge: &Edge, first_port: u16, rank: Rank) -> Peers {
    let everywhere = Networks {
        first: [Some(IpAddr::V4(Ipv4Addr::LOCALHOST)); 32],
        second: None,
    };
    let mut networks = edge.networks.unwrap_or(everywhere);
    if rank.0 == ARBITER {
        networks.second = None;
    }
    Peers {
        networks,
        first_port,
        own: rank.0,
    }
}

/// Where the node of that rank is, or the arbiter as rank 32; and where the arbiter is that this node polls.
fn places_of(
    edge: &Edge,
    peers: &Peers,
    first_port: u16,
    rank: Rank,
) -> io::Result<(Destination, Option<SocketAddr>)> {
    let arbiter = address_of_arbiter(edge, first_port);
    let (own, polled) = if rank.0 == ARBITER {
        (arbiter.map(at_first), None)
    } else {
        (peers.destination_of(rank.0), arbiter)
    };
    match own {
        Some(own) => Ok((own, polled)),
        None => Err(io::Error::new(ErrorKind::InvalidInput, "no address of this node")),
    }
}

/// A copy of a path, where there is one.
fn path_of<R: AllocGlobal>(rt: &R, path: &Option<String>) -> io::Result<Option<String>> {
    let Some(path) = path else {
        return Ok(None);
    };
    match String::from_str(rt.alloc(), path.as_str()) {
        Ok(path) => Ok(Some(path)),
        Err(_) => Err(io::Error::from(ErrorKind::OutOfMemory)),
    }
}

/// Where the arbiter is, where there is one: on 127.0.0.1 where all nodes are there.
fn address_of_arbiter(edge: &Edge, first_port: u16) -> Option<SocketAddr> {
    let at = match edge.networks {
        Some(_) => edge.arbiter?,
        None => ArbiterPlace {
            address: IpAddr::V4(Ipv4Addr::LOCALHOST),
            port: None,
        },
    };
    let port = match at.port {
        Some(port) => port,
        None => first_port.checked_add(u16::from(ARBITER))?,
    };
    Some(SocketAddr::new(at.address, port))
}
