//! What an operator can do at the end of a command that met a fault: where it is, what it is, and what mends it.
use crate::before::is_node;
use qn_usage::value_of;
use std::fmt;

/// The fault that a command ended with. It prints as one line.
#[derive(Clone, Copy)]
pub struct Advice<'words> {
    command: &'words str,
    /// What was said of the fault on standard output.
    fault: &'words str,
    /// The value of `--image`; empty where there is none.
    image: &'words str,
    /// The value of `--id`; empty where there is none.
    id: &'words str,
}

impl<'words> Advice<'words> {
    /// What can be done where the command of these words ended with this fault; None where it ended with none, or where its journal says it.
    pub fn of(words: &'words [String], fault: &'words str) -> Option<Advice<'words>> {
        let [command, options @ ..] = words else {
            return None;
        };
        let advice = Advice {
            command: command.as_str(),
            fault,
            image: value_of(options, "--image").unwrap_or(""),
            id: value_of(options, "--id").unwrap_or(""),
        };
        match advice.name() {
            "" | "Usage" | "ReadFault" | "SelfReset" | "ClockBack" => None,
            "EnvFault" if advice.image.is_empty() || is_node(advice.command) => None,
            _ => Some(advice),
        }
    }

    /// The name of the fault.
    fn name(&self) -> &'words str {
        self.fault.split(' ').next().unwrap_or("")
    }

    /// The number of this place in the line of the fault, from 0 at the name.
    fn number(&self, place: usize) -> &'words str {
        self.fault.split(' ').nth(place).unwrap_or("")
    }
}

impl fmt::Display for Advice<'_> {
    fn fmt<W: fmt::Write>(&self, f: &mut fmt::Formatter<W>) -> fmt::Result {
        let (image, fault) = (self.image, self.fault);
        match self.name() {
            "BadConf" => write!(
                f,
                "standard input: {fault}: quorumctl settings < FILE shows its lines, and what they may say"
            ),
            "NoArbiter" => f.write_str(
                "standard input: the text has no quorum device with a host: quorum { device { model: net; net { host: ADDRESS } } }, a line each",
            ),
            "BadSchedule" => write!(
                f,
                "standard input: {fault}: FORMATS.md of the documentation has the lines that may stand there"
            ),
            "NotAllowed" => write!(
                f,
                "standard input: {fault}: SCHEDULES.md of the documentation has the rules, by number"
            ),
            "EnvFault" => self.write_perhaps(f),
            "BadImage" => write!(
                f,
                "{image}: {fault}: quorumctl check --image {image} says what is there"
            ),
            "UnsafeTiming" => self.write_timing(f),
            "UnsafeLease" => write!(
                f,
                "standard input: {fault}: VOTES.md of the documentation says how a lease is chosen"
            ),
            "BootHalted" => self.write_halted(f),
            "DeadlyThere" => self.write_deadly(f),
            "UnknownNode" => self.write_unknown(f),
            "NotARun" => write!(
                f,
                "standard input: {fault}: the record is of another node, text or words, or the program did another thing than its definition"
            ),
            "NoMemory" => f.write_str(
                "out of memory: end another program, or give a smaller input",
            ),
            _ => f.write_str(fault),
        }
    }
}

impl<'words> Advice<'words> {
    /// A call on the image failed, of which a line before says how.
    fn write_perhaps<W: fmt::Write>(&self, f: &mut fmt::Formatter<W>) -> fmt::Result {
        let image = self.image;
        write!(
            f,
            "{image}: mend what the line before this one names, and give the command again; "
        )?;
        match self.command {
            "create" | "message" | "migrate" => write!(
                f,
                "it is perhaps done: quorumctl list --image {image} shows it"
            ),
            _ => f.write_str("quorumd list --help has the forms of an image"),
        }
    }

    /// The times are not safe: which words name the least msgwait for the others.
    fn write_timing<W: fmt::Write>(&self, f: &mut fmt::Formatter<W>) -> fmt::Result {
        let place = if self.command == "create" {
            "--timing"
        } else {
            "standard input"
        };
        let (fault, watchdog, period) = (self.fault, self.number(1), self.number(3));
        let (limit, delay) = (self.number(4), self.number(5));
        write!(f, "{place}: {fault}: the least msgwait is named by ")?;
        write!(
            f,
            "quorumctl timing --watchdog {watchdog} --loop {period} --read-limit {limit} --feed-delay {delay}"
        )
    }

    /// The boot of a node was halted, for this cause.
    fn write_halted<W: fmt::Write>(&self, f: &mut fmt::Formatter<W>) -> fmt::Result {
        let (image, id, fault) = (self.image, self.id, self.fault);
        write!(f, "{image}: {fault}: node {id} did not boot: ")?;
        match self.number(1) {
            "1" => f.write_str("the image is not read: look at its disk or server"),
            "2" => f.write_str("it is no image of this settings text: quorumctl check shows it"),
            "3" => f.write_str("its times are not safe: quorumctl check shows them"),
            "4" | "5" => f.write_str("the image is not written: look at its disk or server"),
            "6" => f.write_str("no further boot can be counted: all nodes off, then create --anew"),
            _ => write!(
                f,
                "a message is in its mailbox, and --start-mode is 1: quorumd message --image {image} --id {id} --kind clear"
            ),
        }
    }

    /// A deadly message is in the mailbox of a node, which did not read it yet.
    fn write_deadly<W: fmt::Write>(&self, f: &mut fmt::Formatter<W>) -> fmt::Result {
        let (image, id, fault) = (self.image, self.id, self.fault);
        write!(
            f,
            "{image}: {fault}: node {id} has not read it, and it is not replaced: quorumctl wait --image {image} --id {id}; "
        )?;
        write!(
            f,
            "only where it is off: quorumd message --image {image} --id {id} --kind clear"
        )
    }

    /// No node has the id that was given.
    fn write_unknown<W: fmt::Write>(&self, f: &mut fmt::Formatter<W>) -> fmt::Result {
        let (image, fault) = (self.image, self.fault);
        if self.command == "message" {
            return write!(
                f,
                "{image}: {fault}: quorumctl list --image {image} has the ids of its nodes"
            );
        }
        write!(
            f,
            "standard input: {fault}: --id is a nodeid of the text: quorumctl settings < FILE has them"
        )
    }
}
