//! The host with a clock that nothing sets and nothing slews.

use std::alloc::{Allocator, Global};
use std::fmt::Display;
use std::fs::{File, Metadata, OpenOptions};
use std::io;
use std::net::{Net, SocketAddr, TcpListener, TcpStream, UdpSocket};
use std::os::unix::net;
use std::os::unix::net::UnixStream;
use std::rt::Files;
use std::time::{Clock, Duration};

/// CLOCK_MONOTONIC_RAW of Linux (clock_gettime(2)): neither NTP nor adjtime(3) makes it run faster or slower.
const RAW: i32 = 4;

/// The time of that clock since its start.
pub fn steady_time() -> io::Result<Duration> {
    let mut time = libc::types::timespec {
        tv_sec: 0,
        tv_nsec: 0,
    };
    if libc::clock_gettime(RAW, &mut time) != 0 {
        return Err(io::Error::other("the raw monotonic clock cannot be read"));
    }
    let (Ok(seconds), Ok(nanos)) = (u64::try_from(time.tv_sec), u64::try_from(time.tv_nsec)) else {
        return Err(io::Error::other("the raw monotonic clock is before its start"));
    };
    Ok(Duration::from_secs(seconds).saturating_add(Duration::from_nanos(nanos)))
}

/// The host, whose monotonic clock is the raw one.
#[derive(Drop)]
pub struct SteadyHost<'a> {
    host: &'a HostRuntime,
}

impl<'a> SteadyHost<'a> {
    /// This host.
    pub fn new(host: &'a HostRuntime) -> SteadyHost<'a> {
        SteadyHost { host }
    }
}

impl<'a> Clock for SteadyHost<'a> {
    fn monotonic(&self) -> io::Result<Duration> {
        steady_time()
    }

    fn since_1970(&self) -> io::Result<Duration> {
        self.host.since_1970()
    }
}

impl<'a> Net for SteadyHost<'a> {
    type Stream = TcpStream;

    type Listener = TcpListener;

    fn bind(&self, addr: SocketAddr) -> io::Result<TcpListener> {
        self.host.bind(addr)
    }

    fn connect(&self, addr: SocketAddr) -> io::Result<TcpStream> {
        self.host.connect(addr)
    }

    fn connect_timeout(&self, addr: SocketAddr, timeout: Duration) -> io::Result<TcpStream> {
        self.host.connect_timeout(addr, timeout)
    }

    fn bind_udp(&self, addr: SocketAddr) -> io::Result<UdpSocket> {
        self.host.bind_udp(addr)
    }

    fn connect_unix(&self, addr: &net::SocketAddr) -> io::Result<UnixStream> {
        self.host.connect_unix(addr)
    }
}

impl<'a> Alloc for SteadyHost<'a> {
    type A = Global;

    fn alloc(&self) -> Global {
        self.host.alloc()
    }
}

impl<'a> Eprint for SteadyHost<'a> {
    fn eprint<D: Display + Drop>(&self, value: D) -> io::Result<()> {
        self.host.eprint(value)
    }

    fn eprintln<D: Display + Drop>(&self, value: D) -> io::Result<()> {
        self.host.eprintln(value)
    }
}

impl<'a> Files for SteadyHost<'a> {
    type File = File;

    type Dir = File;

    fn open_file(&self, how: &OpenOptions, path: &str) -> io::Result<File> {
        self.host.open_file(how, path)
    }

    /// No folder is read here.
    fn open_dir(&self, _path: &str) -> io::Result<File> {
        Err(io::Error::from(io::ErrorKind::Unsupported))
    }

    fn metadata(&self, path: &str) -> io::Result<Metadata> {
        self.host.metadata(path)
    }

    fn symlink_metadata(&self, path: &str) -> io::Result<Metadata> {
        self.host.symlink_metadata(path)
    }

    fn copy(&self, from: &str, to: &str) -> io::Result<u64> {
        self.host.copy(from, to)
    }

    fn rename(&self, from: &str, to: &str) -> io::Result<()> {
        self.host.rename(from, to)
    }

    fn remove_file(&self, path: &str) -> io::Result<()> {
        self.host.remove_file(path)
    }

    fn create_dir(&self, path: &str) -> io::Result<()> {
        self.host.create_dir(path)
    }

    fn remove_dir(&self, path: &str) -> io::Result<()> {
        self.host.remove_dir(path)
    }

    fn remove_dir_all<B: Allocator>(&self, alloc: B, path: &str) -> io::Result<()> {
        self.host.remove_dir_all(alloc, path)
    }
}
