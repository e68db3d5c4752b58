//! The real outside of a node: images, the monotonic clock, a port, a watchdog, a resource and a file for halts; and that of an arbiter,
//! which has the clock and a port alone.

use crate::disk::Disk;
use crate::edge::Edge;
use crate::error_lines::Lines;
use crate::etcd_word::check_reach;
use crate::image::Opener;
use crate::named_file::Absent;
use crate::real_machine::RealMachine;
use crate::reported::reported;
use crate::waiting::Waiting;
use qn_base::{Failed, Rank};
use qn_io::{Env, Got, Opening, PACKET, SECTOR};
use qn_outside::Outside;
use std::fs::File;
use std::marker::Model;
use std::net::{Net, TcpStream};
use std::rt::Files;
use std::time::{Clock, Duration};

/// How long a node waits after a packet could not be received, in milliseconds.
const REST: u64 = 40;

/// The outside of a node over the runtime: one image file or three, the monotonic clock in milliseconds, UDP, a
/// watchdog, a resource and a file for halts. It does not tell its calls, and is seen as its count of faults. Of each call that failed
/// a line on standard error says why, and one says what a node opens.
#[derive(Drop)]
pub struct RealEnv<
    'a,
    R: Files<File = File> + Net<Stream = TcpStream> + Clock + Eprint + AllocGlobal + Drop,
> {
    /// The machine, with the deeds that a node has it do.
    outside: Outside<RealMachine<'a, R>>,
    /// With what it waits where the network fails at once, once a node was opened.
    waiting: Option<Waiting>,
}

impl<
    'a,
    R: Files<File = File> + Net<Stream = TcpStream> + Clock + Eprint + AllocGlobal + Drop,
> Model for RealEnv<'a, R> {
    ghost use Rattle.std.specs.Prelude.{ℕ};

    ghost Value = { ℕ };

    ghost view = { λ e. e.outside.faults };
}

impl<
    'a,
    R: Files<File = File> + Net<Stream = TcpStream> + Clock + Eprint + AllocGlobal + Drop,
> RealEnv<'a, R> {
    ghost use Rattle.std.specs.Prelude.{◌≡◌, ◌≤◌, IfOk, IfSome, OnErr};
    ghost use Rattle.qn_io.specs.Outside.{HasRisen};

    /// An outside over this runtime with what was said of it before the command, and these lines, with nothing opened and no fault so far.
    pub fn new(rt: R, edge: Edge, lines: &'a Lines) -> RealEnv<'a, R>
        ensures { result ≡ 0 }
    {
        RealEnv {
            outside: Outside::new(RealMachine::new(rt, edge, lines)),
            waiting: None,
        }
    }

    /// Opens the image of that word for a command.
    fn open_disk(&self, word: &str) -> Result<Disk, Failed> {
        let machine = &self.outside.machine;
        let errors = machine.lines.over(&machine.rt);
        reported(&errors, word, check_reach(&machine.edge, word))?;
        Disk::open(&machine.rt, &errors, 1, word, Opener::Command, Absent::Made)
    }

    /// Opens the port of an arbiter, which has nothing else.
    fn open_arbiter(&mut self, opening: &Opening<'_>) -> Result<(), Failed>
        ensures { self.new ≡ self.old }
    {
        let machine = &mut self.outside.machine;
        machine.close();
        let done = machine.open_port(opening);
        machine.set_tick();
        machine.warn_of_forgery(done.is_ok());
        done
    }

    /// Waits a little where a call failed at once, so that a node whose network is gone does not run through its turns.
    fn rest(&mut self)
        ensures { self.new ≡ self.old }
    {
        if let Some(waiting) = &mut self.waiting {
            waiting.wait(Duration::from_millis(REST));
        }
    }

    /// Counts a fault where one of three images is lost.
    fn count_lost(&mut self)
        ensures { self.old ≤ self.new }
    {
        if self.outside.machine.disk.has_lost() {
            self.outside.faults = self.outside.faults.saturating_add(1);
        }
    }

    /// Counts a fault where the call failed.
    fn counted(&mut self, done: Result<(), Failed>) -> Result<(), Failed>
        ensures same { result ≡ done }
        ensures never_falls { self.old ≤ self.new }
        ensures cause { OnErr result (HasRisen self.old self.new) }
    {
        if done.is_err() {
            self.outside.faults = self.outside.faults.saturating_add(1);
        }
        done
    }

    /// Takes a packet from the network, where that is open.
    fn take_packet(&mut self, packet: &mut [u8; PACKET]) -> Result<Option<usize>, Failed>
        ensures within { IfOk result (λ came. IfSome came (λ count. count ≤ 129)) }
        ensures same { self.new ≡ self.old }
    {
        let tick = self.outside.last_tick().unwrap_or(0);
        self.outside.machine.receive(tick, packet)
    }
}

impl<'a, R: Files<File = File> + Net<Stream = TcpStream> + Clock + Eprint + AllocGlobal + Drop> Env
    for RealEnv<'a, R> {
    ghost use Rattle.std.specs.Prelude.{None};

    ghost faults = { λ e. e };

    ghost calls = { λ _. None };

    /// Opens the file of that path for reading and writing, under a shared lock that is held while it is
    /// open. Where it is absent its sectors are zeros, and it is made where sector 0 is written.
    fn open_image(&mut self, path: &str) -> Result<(), Failed> {
        self.outside.machine.disk = Disk::closed();
        let done = match self.open_disk(path) {
            Ok(disk) => {
                self.outside.machine.disk = disk;
                Ok(())
            }
            Err(failed) => Err(failed),
        };
        self.counted(done)
    }

    /// Opens the port, the images, the resource, which is stopped, the file for halts and the watchdog, in this order. Where one of
    /// them fails the others are closed, and those after it are not touched. Of three images one may fail, which is
    /// counted, and each later call on it fails until it is opened after all. Of an arbiter, which has no image, the port alone is opened.
    fn open_node(&mut self, opening: &Opening<'_>) -> Result<(), Failed> {
        let machine = &self.outside.machine;
        machine.lines.wait_for_nobody(&machine.rt);
        self.waiting = Waiting::new(&machine.rt).ok();
        if is_of_arbiter(opening) {
            let done = self.open_arbiter(opening);
            return self.counted(done);
        }
        let done = self.outside.open_node(opening);
        self.count_lost();
        done
    }

    /// The time of the monotonic clock. Where it cannot be read, the last answer, and a fault.
    fn now(&mut self) -> u64 {
        self.outside.now()
    }

    /// Waits at most 50 ms in all.
    fn receive(&mut self, packet: &mut [u8; PACKET]) -> Got {
        match self.take_packet(packet) {
            Ok(Some(count)) => Got::Packet(count),
            Ok(None) => Got::Nothing,
            Err(failed) => {
                self.rest();
                let _ = self.counted(Err(failed));
                Got::Failed
            }
        }
    }

    /// Reads the sector; what lies past the end of the file reads as zeros.
    fn read(&mut self, sector: u32, into: &mut [u8; SECTOR]) -> Result<(), Failed> {
        let done = self.outside.machine.read(sector, into);
        self.counted(done)
    }

    /// Writes the sector and has it pushed to the disk. Sector 0 is written only under the exclusive lock,
    /// which is then held while the image is open; where that lock is not to be had, or something stands there that is not to be written
    /// over, the image is closed.
    fn write(&mut self, sector: u32, from: &[u8; SECTOR]) -> Result<(), Failed> {
        let done = self.outside.machine.write(sector, from);
        self.counted(done)
    }

    /// Feeds the watchdog. Later than half the feed delay of the images, and than 500 ms, after the last answer of `now` nothing is fed,
    /// and the call has failed. After it, once a loop, an image of three that is not open is tried again.
    fn feed(&mut self) -> Result<(), Failed> {
        let done = self.outside.feed();
        self.outside.machine.open_again();
        done
    }

    /// Has the resource started. An agent has 20 seconds to answer.
    fn start(&mut self) -> Result<(), Failed> {
        self.outside.start()
    }

    /// Has the resource stopped. An agent has 20 seconds to answer.
    fn stop(&mut self) -> Result<(), Failed> {
        self.outside.stop()
    }

    /// Sends the packet, whether a node is there or not.
    fn send(&mut self, to: Rank, bytes: &[u8]) -> Result<(), Failed> {
        let done = self.outside.machine.send(to, bytes);
        self.counted(done)
    }

    fn disarm(&mut self) -> Result<(), Failed> {
        self.outside.disarm()
    }

    /// Tells the file for halts, where there is one.
    fn halt(&mut self, code: u8) {
        let _ = self.outside.machine.tell_halt(code);
    }
}

/// Whether it is the opening of an arbiter, which has no image.
fn is_of_arbiter(opening: &Opening<'_>) -> bool {
    opening.images == 0
}
