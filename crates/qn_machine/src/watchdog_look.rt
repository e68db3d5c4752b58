//! A look at a watchdog before it is opened, since an opening arms it.
ghost use Rattle.std.specs.Prelude.{◌≡◌};
ghost use Rattle.qn_machine.specs.Watchdogs.{finding_of, is_odd_digit, is_one, knows_magic_close};

use crate::named_file::NamedFile;
use arrayvec::{ArrayString, ArrayVec};
use qn_exchange::{is_time_safe, read_again, seconds_of};
use std::fmt::{Display, Write};
use std::fs::{self, File, FileType};
use std::os::unix::fs::{FileTypeExt, MetadataExt};
use std::rt::Files;
use std::{fmt, io};

/// /dev/watchdog, which is the first watchdog under another name.
const FIRST: (u64, u64) = (10, 130);

/// Where sysfs is mounted.
pub const SYS: &str = "/sys";

/// The most bytes of a file in sysfs that are read.
const SAID: usize = 64;

/// The most bytes of a path in sysfs.
const PATH: usize = 512;

/// The text of a file in sysfs.
type Text = ArrayVec<u8, SAID>;

/// What was found at a look at a watchdog.
#[derive(Clone, Copy)]
pub enum Finding {
    /// A file or a pipe.
    File,
    /// Neither a device nor a file.
    Strange,
    /// A device that says no time.
    NoTime,
    /// It resets its machine after so many seconds, and the image says so many milliseconds.
    Time(u64, u64),
    /// It goes on after a clean end.
    NoWayOut,
    /// It stops where the program is killed.
    NoMagicClose,
}

impl Finding {
    /// Whether such a watchdog is not opened where the outside is that of a machine.
    pub fn is_refused(self) -> bool {
        match self {
            Finding::File | Finding::NoWayOut => false,
            Finding::Strange | Finding::NoTime | Finding::Time(..) | Finding::NoMagicClose => true,
        }
    }
}

impl Display for Finding {
    fn fmt<W: fmt::Write>(&self, f: &mut fmt::Formatter<W>) -> fmt::Result {
        match self {
            Finding::File => f.write_str("a file or a pipe: it resets nothing"),
            Finding::Strange => f.write_str("neither a device nor a file"),
            Finding::NoTime => f.write_str(
                "its time cannot be read: perhaps it is no watchdog, and resets nothing",
            ),
            Finding::Time(seconds, watchdog) => {
                write!(f, "its time is {seconds} s, the image says {watchdog} ms")
            }
            Finding::NoWayOut => f.write_str(
                "nowayout is 1: also after a node that left, it resets the machine",
            ),
            Finding::NoMagicClose => f.write_str(
                "it has no magic close: it stops where the program is killed",
            ),
        }
    }
}

/// What stands at a path that is given for a watchdog.
#[derive(Clone, Copy)]
pub enum WatchdogLook {
    Device(WatchdogSeen),
    /// A file or a pipe.
    File,
    /// Neither a device nor a file.
    Strange,
}

/// What the kernel says of a watchdog in its folder of sysfs (Linux, Documentation/ABI/testing/sysfs-class-watchdog).
#[derive(Clone, Copy)]
pub struct WatchdogSeen {
    /// What its driver calls it (`identity`); empty where that cannot be read.
    pub driver: ArrayString<SAID>,
    /// After how many seconds without a byte it resets its machine (`timeout`); None where that cannot be read.
    pub seconds: Option<u64>,
    /// Whether it cannot be stopped once it was armed (`nowayout`).
    pub has_no_way_out: bool,
    /// Whether only the byte `V` stops it as its file is closed (WDIOF_MAGICCLOSE of `options`). Where the
    /// kernel does not say it, it is taken to be so.
    pub has_magic_close: bool,
}

impl WatchdogLook {
    /// What is to be said of it beside an image whose watchdog's time is so many milliseconds; None where nothing is.
    pub fn finding(&self, watchdog: u64) -> Option<Finding> {
        match self {
            WatchdogLook::Device(seen) => seen.finding(watchdog),
            WatchdogLook::File => Some(Finding::File),
            WatchdogLook::Strange => Some(Finding::Strange),
        }
    }
}

impl WatchdogSeen {
    /// The same of a device.
    fn finding(&self, watchdog: u64) -> Option<Finding>
        ensures { result ≡ finding_of self.now watchdog }
    {
        let Some(seconds) = self.seconds else {
            return Some(Finding::NoTime);
        };
        if !is_time_safe(seconds, watchdog) {
            return Some(Finding::Time(seconds, watchdog));
        }
        if self.has_no_way_out {
            return Some(Finding::NoWayOut);
        }
        if self.has_magic_close {
            None
        } else {
            Some(Finding::NoMagicClose)
        }
    }
}

/// Looks at the watchdog of that path, where sysfs is mounted at `sys`.
pub fn look<R: Files<File = File>>(rt: &R, sys: &str, path: &str) -> io::Result<WatchdogLook> {
    let about = fs::metadata(rt, path)?;
    let kind: FileType = about.file_type();
    Ok(if kind.is_char_device() {
        WatchdogLook::Device(see(rt, sys, about.rdev()))
    } else if kind.is_file() || kind.is_fifo() {
        WatchdogLook::File
    } else {
        WatchdogLook::Strange
    })
}

/// What the kernel says of a device of that number.
fn see<R: Files<File = File>>(rt: &R, sys: &str, device: u64) -> WatchdogSeen {
    let folder = folder_of(sys, device);
    WatchdogSeen {
        driver: driver_of(said_of(rt, &folder, "identity")),
        seconds: said_of(rt, &folder, "timeout").and_then(|text| seconds_of(text.as_slice())),
        has_no_way_out: said_of(rt, &folder, "nowayout").is_some_and(|text| is_one(
            text.as_slice(),
        )),
        has_magic_close: said_of(rt, &folder, "options").is_none_or(|text| knows_magic_close(
            text.as_slice(),
        )),
    }
}

/// The folder of a device in sysfs, as its number has it: 12 bits of the major number from bit 8 on, 8 of the minor one from bit 0 on, and
/// higher ones of both above. It is cut, and so there is none, where it has more bytes than a path may have here.
fn folder_of(sys: &str, device: u64) -> ArrayString<PATH> {
    let major = device >> 8 & 0xfff | device >> 32 & 0xffff_f000;
    let minor = device & 0xff | device >> 12 & 0xffff_ff00;
    let mut folder = ArrayString::new();
    let _ = if (major, minor) == FIRST {
        write!(folder, "{sys}/class/watchdog/watchdog0")
    } else {
        write!(folder, "{sys}/dev/char/{major}:{minor}")
    };
    folder
}

/// The first bytes of a file in that folder, where it is there.
fn said_of<R: Files<File = File>>(rt: &R, folder: &ArrayString<PATH>, name: &str) -> Option<Text> {
    let mut path = *folder;
    path.try_push_str("/").ok()?;
    path.try_push_str(name).ok()?;
    let opened = NamedFile::open_to_read(rt, path.as_str()).ok()?;
    let mut bytes = [0; SAID];
    let count = read_again(&mut &opened.file, &mut bytes).ok()?;
    let mut said = Text::new();
    let _ = said.try_extend_from_slice(&bytes[..count]);
    Some(said)
}

/// What a driver calls its device, without the end of the line.
fn driver_of(text: Option<Text>) -> ArrayString<SAID> {
    let mut driver = ArrayString::new();
    if let Some(text) = text {
        let name = str::from_utf8(text.as_slice()).unwrap_or("");
        let _ = driver.try_push_str(name.trim_end());
    }
    driver
}

/// Whether the text of `nowayout` says that it is on.
fn is_one(text: &[u8]) -> bool
    ensures { result ≡ is_one text.now }
{
    text == b"1\n".as_slice()
}

/// Whether the text of `options`, a number of hexadecimal digits as `0x8180`, has the bit 0x100 (WDIOF_MAGICCLOSE): the third of its digits
/// from the last is odd.
fn knows_magic_close(text: &[u8]) -> bool
    ensures { result ≡ knows_magic_close text.now }
{
    let Some(place) = text.len().checked_sub(4) else {
        return false;
    };
    text.starts_with(b"0x") && place >= 2 && is_odd_digit(text[place])
}

/// Whether a byte is an odd hexadecimal digit, as the kernel writes them.
fn is_odd_digit(byte: u8) -> bool
    ensures { result ≡ is_odd_digit byte }
{
    matches!(byte, b'1' | b'3' | b'5' | b'7' | b'9' | b'b' | b'd' | b'f')
}
