//! The commands on times and on a corosync.conf.
ghost use Rattle.std.specs.Prelude.{IsTrue};
ghost use Rattle.qn_model.specs.Timing.{has_periods};

use crate::input::{is_memory, read_input};
use crate::trouble::{Trouble, say};
use qn_base::{LONGEST_PERIOD, read_decimal};
use qn_conf::read_tree;
use qn_control::{
    NetworksSeen, TextConcern, concerns_of, device_concerns_of, differences_of,
    has_byte_order_mark, least_msgwait, lines_of_key, longest_take_over, look_at_networks,
    network_lines, node_concerns_of, pairs_of, settings_text, slowest_disk, text_concerns_of,
    unbounded_on, wrong_lines,
};
use qn_exchange::ShortFeedDelay;
use qn_links::{NodeSection, StandingFault, sections_of, standing_of};
use qn_model::{Settings, Timing};
use qn_settings::{TextFault, settings_of_text};
use qn_usage::value_of;
use std::fmt::Display;
use std::fs::File;
use std::rt::Files;

/// The status where something is risky.
const RISKY: u8 = 1;

/// The status where a settings text is at fault.
const BAD_CONF: u8 = 3;

/// The status where no times are safe.
const UNSAFE_TIMING: u8 = 10;

/// `settings`: what was read, and what of it is risky or read otherwise by Corosync.
pub fn settings<R: Files<File = File> + Input + Print + Eprint + AllocGlobal>(
    rt: &R,
) -> Result<u8, Trouble> {
    let text = read_input(rt)?;
    match settings_of_text(rt.alloc(), text.as_slice()) {
        Ok(settings) => say_settings(rt, text.as_slice(), &settings),
        Err(fault) => {
            let status = say_fault(rt, text.as_slice(), &fault)?;
            advise(rt);
            Ok(status)
        }
    }
}

/// Says where the lines of a text at fault are explained; that it cannot be said is no fault.
fn advise(rt: &impl Eprint) {
    let _ = eprintln!(rt;
        "quorumctl: standard input: mend these lines; SETTINGS.md of the documentation has each key and its range"
    );
}

/// Says what settings are, and what of them and of their text is risky or read otherwise by Corosync.
fn say_settings(
    rt: &(impl Print + AllocGlobal),
    text: &[u8],
    settings: &Settings,
) -> Result<u8, Trouble> {
    let alloc = rt.alloc();
    let tree = read_tree(alloc, text).map_err(|_| Trouble::NoMemory)?;
    let pairs = pairs_of(alloc, &tree)?;
    let pairs = pairs.as_slice();
    let sections = sections_of(alloc, &tree)?;
    let sections = sections.as_slice();
    if let Some(fault) = standing_fault(settings, sections) {
        return say_standing_fault(rt, text, fault);
    }
    let lines = settings_text(alloc, settings, pairs)?;
    say(rt, lines.as_str())?;
    let networks = look_at_networks(alloc, settings, &tree)?;
    say(rt, network_lines(alloc, &networks)?.as_str())?;
    let concerns = concerns_of(alloc, settings, pairs)?;
    let of_nodes = node_concerns_of(alloc, settings, sections)?;
    let of_device = device_concerns_of(alloc, settings, &tree, pairs)?;
    let differences = differences_of(alloc, settings, pairs)?;
    let of_text = text_concerns_of(alloc, text, &tree, pairs)?;
    say_warnings(rt, concerns.as_slice())?;
    say_warnings(rt, of_nodes.as_slice())?;
    say_warnings(rt, of_device.as_slice())?;
    say_warnings(rt, differences.as_slice())?;
    say_warnings(rt, of_text.as_slice())?;
    let is_plain = concerns.is_empty() && of_nodes.is_empty() && of_device.is_empty();
    let is_plain = is_plain && !matches!(networks, NetworksSeen::Unknown { .. });
    let is_alike = differences.is_empty() && of_text.is_empty();
    Ok(if is_plain && is_alike { 0 } else { RISKY })
}

/// The first fault of what the sections of the nodes say of whether they may hold.
fn standing_fault(settings: &Settings, sections: &[NodeSection<'_>]) -> Option<StandingFault> {
    for node in settings.nodes.as_slice() {
        if let Err(fault) = standing_of(sections, node.id) {
            return Some(fault);
        }
    }
    None
}

/// Says that no node starts with a text, and the lines that this speaks of.
fn say_standing_fault(
    rt: &(impl Print + AllocGlobal),
    text: &[u8],
    fault: StandingFault,
) -> Result<u8, Trouble> {
    let key = match fault {
        StandingFault::Standby => "standby",
        StandingFault::LocationScore => "location_score",
    };
    let lines = lines_of_key(rt.alloc(), text, key)?;
    let line = format!(in rt.alloc(); "fault: {fault}\n{lines}")?;
    say(rt, line.as_str())?;
    Ok(BAD_CONF)
}

/// A line for each warning.
fn say_warnings<T: Display>(
    rt: &(impl Print + AllocGlobal),
    warnings: &[T],
) -> Result<(), Trouble> {
    for warning in warnings {
        let line = format!(in rt.alloc(); "warning: {warning}\n")?;
        say(rt, line.as_str())?;
    }
    Ok(())
}

/// Says why a text gives no settings, and the lines that this speaks of.
pub fn say_fault(
    rt: &(impl Print + AllocGlobal),
    text: &[u8],
    fault: &TextFault,
) -> Result<u8, Trouble> {
    if is_memory(fault) {
        return Err(Trouble::NoMemory);
    }
    let alloc = rt.alloc();
    let lines = wrong_lines(alloc, text, fault)?;
    let line = format!(in alloc; "fault: {fault}\n{lines}")?;
    say(rt, line.as_str())?;
    if has_byte_order_mark(text) {
        say_warnings(rt, &[TextConcern::ByteOrderMark])?;
    }
    Ok(BAD_CONF)
}

/// `timing`: the least msgwait, how long a take-over takes with it, and whether the feed delay is short.
pub fn timing(rt: &(impl Print + AllocGlobal), options: &[String]) -> Result<u8, Trouble> {
    let mut timing = Timing {
        watchdog: number_of(options, "--watchdog"),
        msgwait: 0,
        loop_ms: number_of(options, "--loop"),
        read_limit: number_of(options, "--read-limit"),
        feed_delay: number_of(options, "--feed-delay"),
    };
    let Some(msgwait) = least_msgwait(&timing) else {
        say(
            rt,
            "fault: no msgwait up to 3600000 is safe with these times\n",
        )?;
        return Ok(UNSAFE_TIMING);
    };
    timing.msgwait = msgwait;
    if !timing.has_periods() {
        return Ok(UNSAFE_TIMING);
    }
    let least = format!(in rt.alloc(); "least msgwait {msgwait}\n")?;
    say(rt, least.as_str())?;
    let measured = match value_of(options, "--disk") {
        Some(word) => Some(read_decimal(word.as_bytes()).unwrap_or(0)),
        None => None,
    };
    say_take_over(rt, &timing, measured)?;
    let short = ShortFeedDelay::of(timing.feed_delay);
    say_warnings(rt, short.as_slice())?;
    Ok(0)
}

/// Says on which disk a take-over has a bound, and which: on the slowest such disk, or on the one that was measured.
fn say_take_over(
    rt: &(impl Print + AllocGlobal),
    timing: &Timing,
    measured: Option<u64>,
) -> Result<(), Trouble>
    requires { IsTrue (has_periods timing.now) }
{
    let Some(slowest) = slowest_disk(timing) else {
        return match unbounded_on(timing, 1) {
            Some(reason) => say_no_bound(rt, reason.of_times()),
            None => Ok(()),
        };
    };
    let line = format!(in rt.alloc(); "slowest disk {slowest}\n")?;
    say(rt, line.as_str())?;
    let disk = measured.unwrap_or(slowest).min(LONGEST_PERIOD);
    match unbounded_on(timing, disk) {
        Some(reason) => say_no_bound(rt, reason.of_disk()),
        None => {
            let longest = longest_take_over(timing, disk, 1);
            let line = format!(in rt.alloc(); "longest take-over {longest}\n")?;
            say(rt, line.as_str())
        }
    }
}

/// Says that a take-over has no bound, and why.
fn say_no_bound(rt: &(impl Print + AllocGlobal), reason: &str) -> Result<(), Trouble> {
    let line = format!(in rt.alloc(); "longest take-over none: {reason}\n")?;
    say(rt, line.as_str())
}

/// The number of an option that stands there, and is one.
fn number_of(options: &[String], name: &str) -> u64 {
    match value_of(options, name) {
        Some(word) => read_decimal(word.as_bytes()).unwrap_or(0),
        None => 0,
    }
}
