//! The machine of a node as it is: what each deed is at its devices, its files and its network.

use crate::disk::Disk;
use crate::edge::Edge;
use crate::error_lines::Lines;
use crate::etcd_word::check_reach;
use crate::file_size_limit::refuse_file_size_limit;
use crate::halt_file::HaltFile;
use crate::image::Opener;
use crate::journal_lines::opening_line;
use crate::named_file::Absent;
use crate::network::Network;
use crate::opening::{look_after, look_before, open_halt};
use crate::reported::reported;
use crate::resource::Resource;
use crate::watchdog::Watchdog;
use qn_base::{Failed, Rank};
use qn_exchange::{Obeyed, Order};
use qn_io::{Opening, PACKET, SECTOR};
use qn_outside::{Machine, Times};
use qn_peers::Guard;
use std::fs::File;
use std::io;
use std::net::{Net, TcpStream};
use std::rt::Files;
use std::time::Clock;

/// The machine of a node over the runtime, with what was said of it before the command. It tells none of its deeds.
#[derive(Drop)]
pub(crate) struct RealMachine<
    'a,
    R: Files<File = File> + Net<Stream = TcpStream> + Clock + Eprint + AllocGlobal + Drop,
> {
    pub(crate) rt: R,
    pub(crate) lines: &'a Lines,
    pub(crate) edge: Edge,
    pub(crate) disk: Disk,
    /// The network of a node, or of an arbiter, which has nothing else open.
    pub(crate) network: Option<Network>,
    resource: Option<Resource>,
    halt: Option<HaltFile>,
    watchdog: Option<Watchdog>,
}

impl<
    'a,
    R: Files<File = File> + Net<Stream = TcpStream> + Clock + Eprint + AllocGlobal + Drop,
> RealMachine<'a, R> {
    ghost use Rattle.std.specs.Prelude.{◌<◌, ◌≤◌, IfOk, IfSome};

    /// A machine of which nothing is open.
    pub(crate) fn new(rt: R, edge: Edge, lines: &'a Lines) -> RealMachine<'a, R> {
        RealMachine {
            rt,
            lines,
            edge,
            disk: Disk::closed(),
            network: None,
            resource: None,
            halt: None,
            watchdog: None,
        }
    }

    /// Closes all that is open.
    pub(crate) fn close(&mut self) {
        self.disk = Disk::closed();
        self.network = None;
        self.resource = None;
        self.halt = None;
        self.watchdog = None;
    }

    /// The time of the monotonic clock in milliseconds, where it can be read.
    pub(crate) fn read_clock(&self) -> Option<u64> {
        let errors = self.lines.over(&self.rt);
        let time = reported(&errors, "monotonic clock", self.rt.monotonic()).ok()?;
        u64::try_from(time.as_millis()).ok()
    }

    /// Fails where the system would end a program that writes past a limit.
    fn check_file_size(&self) -> Result<(), Failed> {
        let errors = self.lines.over(&self.rt);
        reported(&errors, "file size", refuse_file_size_limit(&self.rt))
    }

    /// Opens the port of a node or of an arbiter.
    pub(crate) fn open_port(&mut self, opening: &Opening<'_>) -> Result<(), Failed> {
        let errors = self.lines.over(&self.rt);
        let opened = Network::open(&self.rt, &self.edge, opening.port, opening.rank);
        let network = reported(&errors, "port", opened)?;
        if let Some(at) = network.closed() {
            let _ = eprintln!(&errors; "quorumd: port: {at}: not there, and tried again each loop");
        }
        self.network = Some(network);
        Ok(())
    }

    /// Has what is told from here on stand beside the time of now.
    pub(crate) fn set_tick(&self) {
        if let Some(tick) = self.read_clock() {
            self.lines.set_tick(tick);
        }
    }

    /// Says on standard error, where what was opened has packets that nothing guards, that others can forge them.
    pub(crate) fn warn_of_forgery(&self, ok: bool) {
        if ok && matches!(self.edge.guard, Guard::Unsaid) {
            let errors = self.lines.over(&self.rt);
            let _ = eprintln!(&errors;
                "quorumd: packets carry no seal: any user of this host can forge them"
            );
        }
    }

    /// Takes a packet from the network, where that is open.
    pub(crate) fn receive(
        &mut self,
        tick: u64,
        packet: &mut [u8; PACKET],
    ) -> Result<Option<usize>, Failed>
        ensures { IfOk result (λ came. IfSome came (λ count. count ≤ 129)) }
    {
        let errors = self.lines.over(&self.rt);
        let network = self.network.as_mut().ok_or(Failed)?;
        let came = network.receive(&self.rt, self.lines);
        network.say_refusals(&self.rt, self.lines, tick);
        match reported(&errors, "network", came)? {
            Some(admitted) => Ok(Some(admitted.put(packet))),
            None => Ok(None),
        }
    }

    /// Sends a packet over the network, where that is open.
    pub(crate) fn send(&mut self, to: Rank, bytes: &[u8]) -> Result<(), Failed> {
        let network = self.network.as_mut().ok_or(Failed)?;
        network.tell_due(self.lines);
        let errors = self.lines.over(&self.rt);
        reported(&errors, "network", network.send(to, bytes))
    }

    /// Reads a sector of the disk.
    pub(crate) fn read(&mut self, sector: u32, into: &mut [u8; SECTOR]) -> Result<(), Failed>
        requires { sector < 3072 }
    {
        let errors = self.lines.over(&self.rt);
        self.disk.read(&self.rt, &errors, sector, into)
    }

    /// Writes a sector of the disk.
    pub(crate) fn write(&mut self, sector: u32, from: &[u8; SECTOR]) -> Result<(), Failed>
        requires { sector < 3072 }
    {
        let errors = self.lines.over(&self.rt);
        let overwrites = self.edge.overwrites;
        self.disk.write(&self.rt, &errors, sector, from, overwrites)
    }

    /// Tries again to open an image of three that is not open. That it was opened is told.
    pub(crate) fn open_again(&mut self) {
        let opened = self.disk.open_again(&self.rt, &self.lines.over(&self.rt));
        if let Some(place) = opened {
            self.lines.voices().note_opened(place);
        }
    }

    /// Tells the file for halts of a halt, where there is one.
    pub(crate) fn tell_halt(&self, code: u8) -> Result<(), Failed> {
        match &self.halt {
            Some(halt) => {
                let errors = self.lines.over(&self.rt);
                reported(&errors, halt.path(), halt.tell(code))
            }
            None => Ok(()),
        }
    }

    /// Disarms the watchdog, where that is open and the closing write was done. A write that failed may land later, which has to be before the
    /// machine is up again; so the watchdog is left armed then, and ends the machine.
    fn disarm_watchdog(&self) -> Result<(), Failed> {
        let watchdog = self.watchdog.as_ref().ok_or(Failed)?;
        let errors = self.lines.over(&self.rt);
        if !self.disk.is_written() {
            return reported(&errors, watchdog.path(), Err(left_armed()));
        }
        reported(&errors, watchdog.path(), watchdog.disarm())
    }
}

impl<
    'a,
    R: Files<File = File> + Net<Stream = TcpStream> + Clock + Eprint + AllocGlobal + Drop,
> Machine for RealMachine<'a, R> {
    ghost use Rattle.std.specs.Prelude.{None};

    ghost did = { λ _. None };

    fn tick(&mut self, last: u64) -> (u64, bool) {
        match self.read_clock() {
            Some(tick) => {
                self.lines.set_tick(tick);
                (tick, true)
            }
            None => (last, false),
        }
    }

    fn glance(&mut self) -> Option<u64> {
        self.read_clock()
    }

    fn order(&mut self, order: Order) -> Result<Obeyed, Failed> {
        let resource = self.resource.as_ref().ok_or(Failed)?;
        let done = resource.order(&self.rt, order);
        let errors = self.lines.over(&self.rt);
        reported(&errors, resource.path(), done)
    }

    fn feed(
        &mut self,
        last: Option<u64>,
        tick: Option<u64>,
        feed_delay: u64,
    ) -> Result<(), Failed> {
        let Some(tick) = tick else {
            return Err(Failed);
        };
        let watchdog = self.watchdog.as_ref().ok_or(Failed)?;
        let done = watchdog.feed(last, tick, feed_delay);
        let errors = self.lines.over(&self.rt);
        reported(&errors, watchdog.path(), done)
    }

    fn disarm(&mut self) -> Result<(), Failed> {
        let done = self.disarm_watchdog();
        if done.is_ok() {
            self.disk.end_boot(&self.rt, &self.lines.over(&self.rt));
        }
        done
    }

    fn listen(&mut self, opening: &Opening<'_>) -> Result<(), Failed> {
        self.close();
        self.check_file_size()?;
        self.open_port(opening)
    }

    fn open_images(&mut self, opening: &Opening<'_>) -> Result<(), Failed> {
        let errors = self.lines.over(&self.rt);
        reported(
            &errors,
            opening.image,
            check_reach(&self.edge, opening.image),
        )?;
        let opener = Opener::Node(opening.rank);
        let absent = self.edge.absent();
        self.disk = Disk::open(
            &self.rt,
            &errors,
            opening.images,
            opening.image,
            opener,
            absent,
        )?;
        Ok(())
    }

    fn read_headers(&mut self) -> Result<Times, Failed> {
        let errors = self.lines.over(&self.rt);
        let found = self.disk.edge_times(&self.rt, &errors, &self.edge);
        match self.edge.absent() {
            Absent::Made => Ok(found.unwrap_or(Times::longest())),
            Absent::Refused => found,
        }
    }

    fn stop_first(&mut self, opening: &Opening<'_>) -> Result<Obeyed, Failed> {
        let errors = self.lines.over(&self.rt);
        let opened = Resource::open(&self.rt, opening.resource, self.edge.absent());
        let (resource, obeyed) = reported(&errors, opening.resource, opened)?;
        self.halt = open_halt(&self.rt, &errors, &self.edge)?;
        self.resource = Some(resource);
        Ok(obeyed)
    }

    /// Where nothing was said of a machine, the watchdog is looked at once it is open.
    fn look(&mut self, opening: &Opening<'_>, watchdog: u64) -> Result<(), Failed> {
        let errors = self.lines.over(&self.rt);
        match self.edge.absent() {
            Absent::Made => Ok(()),
            Absent::Refused => look_before(&self.rt, &errors, opening.watchdog, watchdog),
        }
    }

    fn arm(&mut self, opening: &Opening<'_>) -> Result<(), Failed> {
        let errors = self.lines.over(&self.rt);
        let absent = self.edge.absent();
        let opened = Watchdog::open(&self.rt, opening.watchdog, absent);
        self.watchdog = Some(reported(&errors, opening.watchdog, opened)?);
        if absent == Absent::Made {
            look_after(&self.rt, &errors, opening.watchdog);
        }
        Ok(())
    }

    fn say_opening(&mut self, opening: &Opening<'_>, ok: bool) {
        if !ok {
            self.close();
        }
        if let Some(network) = &self.network {
            self.lines.voices().set_arbiter(network.arbiter());
        }
        self.set_tick();
        let line = opening_line(self.lines.moment(&self.rt), opening, ok);
        self.lines.say(&self.rt, &line);
        self.warn_of_forgery(ok);
    }
}

/// The closing write of a node was not done.
fn left_armed() -> io::Error {
    io::Error::other("left armed, since the closing write was not done: it resets the machine")
}
