//! `watchdog`: what the kernel says of a watchdog, and whether a node may arm it.
use crate::trouble::{Trouble, say};
use qn_base::{LONGEST_PERIOD, read_decimal};
use qn_machine::{Finding, SYS, WatchdogLook, WatchdogSeen, look};
use qn_usage::value_of;
use std::alloc::{AllocError, Global};
use std::fs::File;
use std::rt::Files;

/// The status of a watchdog that no node may arm.
const UNFIT: u8 = 1;

/// `watchdog`: one line of the watchdog of that path. It is looked at and not opened, since an opening arms it.
pub fn watchdog<R: Files<File = File> + Print + AllocGlobal>(
    rt: &R,
    path: &str,
    options: &[String],
) -> Result<u8, Trouble> {
    let alloc = rt.alloc();
    let sys = value_of(options, "--sys").unwrap_or(SYS);
    let time = value_of(options, "--watchdog").and_then(|word| read_decimal(word.as_bytes()));
    let looked = match look(rt, sys, path) {
        Ok(looked) => looked,
        Err(error) => return Err(Trouble::of_file(alloc, path, error)),
    };
    let finding = looked.finding(time.unwrap_or(LONGEST_PERIOD));
    say(rt, line_of(alloc, &looked, finding)?.as_str())?;
    Ok(match finding {
        None | Some(Finding::NoWayOut) => 0,
        Some(
            Finding::File
            | Finding::Strange
            | Finding::NoTime
            | Finding::Time(..)
            | Finding::NoMagicClose,
        ) => UNFIT,
    })
}

/// The line: what the kernel says, where it is a device, and what is to be said of that.
fn line_of(
    alloc: Global,
    looked: &WatchdogLook,
    finding: Option<Finding>,
) -> Result<String, AllocError> {
    let mut line = match looked {
        WatchdogLook::Device(seen) => device_words(alloc, seen)?,
        WatchdogLook::File | WatchdogLook::Strange => String::new(alloc),
    };
    match finding {
        Some(finding) => line.push_str(format!(in alloc; "{finding}\n")?.as_str())?,
        None => line.push_str("good\n")?,
    }
    Ok(line)
}

/// What the kernel says of a device whose time can be read: its driver, its time and whether it can be stopped.
fn device_words(alloc: Global, seen: &WatchdogSeen) -> Result<String, AllocError> {
    let Some(seconds) = seen.seconds else {
        return Ok(String::new(alloc));
    };
    let driver = match seen.driver.as_str() {
        "" => "-",
        driver => driver,
    };
    let nowayout = u8::from(seen.has_no_way_out);
    format!(in alloc; "driver {driver}, time {seconds} s, nowayout {nowayout}: ")
}
