//! The words before the command: `--links CONF`, `--key FILE` up to three times, `--open`, `--seal-meaning`, `--halt FILE`, `--status FILE`,
//! `--leave-file FILE`, `--standing-file FILE`, `--group FILE`, `--blank` and `--anew`, in any order.
use crate::edge::ARBITER;
use std::fmt;
use std::fmt::Display;

/// The most words of `--key`.
pub const MOST_KEYS: usize = 3;

/// The most words that may stand before the command: two for each but `--open`, `--seal-meaning`, `--blank` and `--anew`.
const MOST_WORDS: u32 = 22;

/// What the words before the command say.
#[derive(Clone, Copy, Default)]
pub struct Before<'words> {
    pub links: Option<&'words str>,
    pub keys: [Option<&'words str>; MOST_KEYS],
    pub is_open: bool,
    pub seals_meaning: bool,
    pub halt: Option<&'words str>,
    pub status: Option<&'words str>,
    pub leave: Option<&'words str>,
    pub standing: Option<&'words str>,
    pub group: Option<&'words str>,
    pub is_blank: bool,
    pub is_anew: bool,
    /// How many words these are.
    pub count: usize,
}

/// What is wrong with them.
#[derive(Clone, Copy)]
pub enum WordFault<'words> {
    Twice(&'words str),
    NoValue(&'words str),
    FourthKey,
    OpenBesideKey,
    NeitherKeyNorOpen,
    MeaningWithoutNode,
    MeaningWithoutText,
    StatusWithoutNode,
    StatusPath,
    /// That word, which says something of a node.
    WithoutNode(&'static str),
    BlankWithoutCreate,
    AnewWithoutCreate,
}

impl<'words> Display for WordFault<'words> {
    fn fmt<W: fmt::Write>(&self, f: &mut fmt::Formatter<W>) -> fmt::Result {
        match self {
            WordFault::Twice(word) => write!(f, "{word}: given twice"),
            WordFault::NoValue(word) => write!(f, "{word}: its value is missing"),
            WordFault::FourthKey => f.write_str("--key: more than three; leave out the oldest"),
            WordFault::OpenBesideKey => f.write_str(
                "--open beside --key; one of them, and a key where strangers reach the network",
            ),
            WordFault::NeitherKeyNorOpen => f.write_str(
                "--links wants --key or --open; --key FILE seals what the nodes say",
            ),
            WordFault::MeaningWithoutNode => {
                f.write_str("--seal-meaning stands before a node or an arbiter alone")
            }
            WordFault::MeaningWithoutText => {
                f.write_str("--seal-meaning wants --links and --key")
            }
            WordFault::StatusWithoutNode => {
                f.write_str("--status stands before a node or an arbiter alone")
            }
            WordFault::StatusPath => f.write_str("--status: a path has 1 to 4090 bytes"),
            WordFault::WithoutNode(word) => write!(f, "{word} stands before a node alone"),
            WordFault::BlankWithoutCreate => f.write_str("--blank stands before create alone"),
            WordFault::AnewWithoutCreate => f.write_str("--anew stands before create alone"),
        }
    }
}

/// One of the words before the command.
#[derive(Clone, Copy, PartialEq, Eq)]
enum Word {
    Links,
    Key,
    Open,
    SealMeaning,
    Halt,
    Status,
    LeaveFile,
    StandingFile,
    Group,
    Blank,
    Anew,
}

impl Word {
    /// The word that a text is.
    fn of(text: &str) -> Option<Word> {
        match text {
            "--links" => Some(Word::Links),
            "--key" => Some(Word::Key),
            "--open" => Some(Word::Open),
            "--seal-meaning" => Some(Word::SealMeaning),
            "--halt" => Some(Word::Halt),
            "--status" => Some(Word::Status),
            "--leave-file" => Some(Word::LeaveFile),
            "--standing-file" => Some(Word::StandingFile),
            "--group" => Some(Word::Group),
            "--blank" => Some(Word::Blank),
            "--anew" => Some(Word::Anew),
            _ => None,
        }
    }
}

impl<'words> Before<'words> {
    /// Reads the words at the front, up to the first that is none of them.
    pub fn read(words: &'words [String]) -> Result<Before<'words>, WordFault<'words>> {
        let mut before = Before::default();
        'words: for _ in 0..MOST_WORDS {
            let Some(text) = words.get(before.count) else {
                break 'words;
            };
            let Some(word) = Word::of(text.as_str()) else {
                break 'words;
            };
            before.take(word, text.as_str(), words)?;
        }
        let command = words.get(before.count).map_or("", String::as_str);
        before.judged(command)
    }

    /// Takes the word, which stands at the place that is counted, and its value after it.
    fn take(
        &mut self,
        word: Word,
        text: &'words str,
        words: &'words [String],
    ) -> Result<(), WordFault<'words>> {
        self.count = self.count.saturating_add(1);
        match word {
            Word::Open => return say_once(&mut self.is_open, text),
            Word::SealMeaning => return say_once(&mut self.seals_meaning, text),
            Word::Blank => return say_once(&mut self.is_blank, text),
            Word::Anew => return say_once(&mut self.is_anew, text),
            Word::Links
            | Word::Key
            | Word::Halt
            | Word::Status
            | Word::LeaveFile
            | Word::StandingFile
            | Word::Group => {}
        }
        let value = words.get(self.count).map(String::as_str);
        let Some(value) = value.filter(|value| Word::of(value).is_none()) else {
            return Err(WordFault::NoValue(text));
        };
        self.count = self.count.saturating_add(1);
        match word {
            Word::Links => put_once(&mut self.links, text, value),
            Word::Halt => put_once(&mut self.halt, text, value),
            Word::Status => put_once(&mut self.status, text, value),
            Word::LeaveFile => put_once(&mut self.leave, text, value),
            Word::StandingFile => put_once(&mut self.standing, text, value),
            Word::Group => put_once(&mut self.group, text, value),
            Word::Key => self.key(value),
            Word::Open | Word::SealMeaning | Word::Blank | Word::Anew => Ok(()),
        }
    }

    fn key(&mut self, file: &'words str) -> Result<(), WordFault<'words>> {
        match self.keys.iter_mut().find(|key| key.is_none()) {
            Some(place) => {
                *place = Some(file);
                Ok(())
            }
            None => Err(WordFault::FourthKey),
        }
    }

    /// The first of the words that stand before a node alone.
    fn word_of_node(&self) -> Option<&'static str> {
        if self.leave.is_some() {
            Some("--leave-file")
        } else if self.standing.is_some() {
            Some("--standing-file")
        } else {
            self.group.map(|_| "--group")
        }
    }

    /// The same, where they go together and with the command.
    fn judged(self, command: &str) -> Result<Before<'words>, WordFault<'words>> {
        if self.status.is_some() && !is_running(command) {
            return Err(WordFault::StatusWithoutNode);
        }
        if let Some(word) = self.word_of_node()
            && !is_node(command)
        {
            return Err(WordFault::WithoutNode(word));
        }
        if self.seals_meaning && !is_running(command) {
            return Err(WordFault::MeaningWithoutNode);
        }
        if self.is_blank && command != "create" {
            return Err(WordFault::BlankWithoutCreate);
        }
        if self.is_anew && command != "create" {
            return Err(WordFault::AnewWithoutCreate);
        }
        let first = self.keys[0];
        let has_key = first.is_some();
        if self.is_open && has_key {
            return Err(WordFault::OpenBesideKey);
        }
        if self.links.is_some() && !self.is_open && !has_key {
            return Err(WordFault::NeitherKeyNorOpen);
        }
        if self.seals_meaning && (self.links.is_none() || !has_key) {
            return Err(WordFault::MeaningWithoutText);
        }
        Ok(self)
    }
}

/// Whether a command runs a node or an arbiter.
pub fn is_running(command: &str) -> bool {
    is_node(command) || command == ARBITER
}

/// Whether a command runs a node.
pub fn is_node(command: &str) -> bool {
    matches!(command, "node" | "node3" | "node-logged" | "node3-logged")
}

/// Takes a word without a value, which may stand once.
fn say_once<'words>(is_said: &mut bool, text: &'words str) -> Result<(), WordFault<'words>> {
    if *is_said {
        return Err(WordFault::Twice(text));
    }
    *is_said = true;
    Ok(())
}

/// Puts the value of a word that may stand once.
fn put_once<'words>(
    place: &mut Option<&'words str>,
    text: &'words str,
    value: &'words str,
) -> Result<(), WordFault<'words>> {
    if place.is_some() {
        return Err(WordFault::Twice(text));
    }
    *place = Some(value);
    Ok(())
}
