//! The file in which the host of a node says whether the node may hold the resource, and how gladly it is to.
use crate::error_lines::Lines;
use crate::journal_lines::{refused_standing_line, standing_line};
use crate::named_file::NamedFile;
use crate::standing_text::{MOST, NOTHING, StandingFault, StandingText, packet_of};
use qn_shown::HostStanding;
use std::fs::{self, File};
use std::io::{self, ErrorKind};
use std::os::unix::fs::FileExt;
use std::rt::Files;
use std::time::Clock;

/// Milliseconds between two looks at it.
const LOOK: u64 = 500;

/// One byte more than a file has that is none too long.
const ROOM: usize = MOST + 1;

/// What the host of a node says of it, by a file and by keys of the settings text.
#[derive(Drop)]
pub(crate) struct StandingFile {
    /// The path of the file, where there is one.
    path: Option<String>,
    /// What the text says.
    keys: HostStanding,
    /// When the file is looked at next, in milliseconds.
    next: u64,
    /// What was handed to the node last.
    handed: [u8; 5],
    /// Whether the file was refused at the last look.
    is_refused: bool,
    /// Whether each look so far found that the node is to ask for the resource: that is of before its start, and over.
    has_old_pull: bool,
}

impl StandingFile {
    /// The file of that path, which was not looked at yet, beside these keys.
    pub(crate) fn at(path: Option<String>, keys: HostStanding) -> StandingFile {
        StandingFile {
            path,
            keys,
            next: 0,
            handed: packet_of(NOTHING),
            is_refused: false,
            has_old_pull: true,
        }
    }

    /// What is handed to the node, where the host says something else than it did. The file is looked at twice a second at most.
    pub(crate) fn news<R: Files<File = File> + Clock + Eprint>(
        &mut self,
        rt: &R,
        lines: &Lines,
    ) -> io::Result<Option<[u8; 5]>> {
        let now = u64::try_from(rt.monotonic()?.as_millis()).unwrap_or(u64::MAX);
        if now < self.next {
            return Ok(None);
        }
        self.next = now.saturating_add(LOOK);
        let said = self.look(rt, lines);
        let packet = packet_of(said);
        if packet == self.handed {
            return Ok(None);
        }
        self.handed = packet;
        lines
            .voices()
            .stand((packet != packet_of(NOTHING)).then_some(said));
        lines.say(rt, &standing_line(lines.moment(rt), said));
        Ok(Some(packet))
    }

    /// What the host says now. A file that is refused makes the node unfit, and the first of such looks in a row tells why.
    fn look<R: Files<File = File> + Clock + Eprint>(
        &mut self,
        rt: &R,
        lines: &Lines,
    ) -> HostStanding {
        let mut said = match self.read(rt) {
            Ok(text) => {
                self.is_refused = false;
                text.over(self.keys)
            }
            Err(fault) => {
                if !self.is_refused {
                    lines.say(rt, &refused_standing_line(lines.moment(rt), fault));
                }
                self.is_refused = true;
                HostStanding {
                    fit: false,
                    ..self.keys
                }
            }
        };
        self.has_old_pull = self.has_old_pull && said.pull;
        said.pull = said.pull && !self.has_old_pull;
        said
    }

    /// What the file says; where there is none, nothing.
    fn read<R: Files<File = File>>(&self, rt: &R) -> Result<StandingText, StandingFault> {
        let Some(path) = &self.path else {
            return Ok(StandingText::default());
        };
        let mut bytes = [0; ROOM];
        match read_front(rt, path.as_str(), &mut bytes) {
            Ok(count) => StandingText::read(&bytes[..count.min(ROOM)]),
            Err(error) if error.kind() == ErrorKind::NotFound => Ok(StandingText::default()),
            Err(_) => Err(StandingFault::File),
        }
    }
}

/// The first bytes of the regular file of that path, and how many these are. No other file is opened, since that could wait.
fn read_front<R: Files<File = File>>(
    rt: &R,
    path: &str,
    bytes: &mut [u8; ROOM],
) -> io::Result<usize> {
    if !fs::metadata(rt, path)?.is_file() {
        return Err(io::Error::from(ErrorKind::InvalidInput));
    }
    let opened = NamedFile::open_to_read(rt, path)?;
    opened.file.read_at(bytes, 0)
}
