//! What the host of a node says of it in a file: whether the node may hold the resource, and how gladly it is to.
ghost use Rattle.std.specs.Prelude.{◌≡◌};
ghost use Rattle.qn_machine.specs.StandingTexts.{packet_of, weight_in, word_in};

use qn_base::read_decimal;
use qn_peers::WORD;
use qn_shown::HostStanding;

/// The most bytes of the file.
pub(crate) const MOST: usize = 256;

/// The greatest weight.
const MOST_WEIGHT: u64 = 254;

/// What a host that says nothing says of its node.
pub(crate) const NOTHING: HostStanding = HostStanding {
    fit: true,
    pull: false,
    standby: false,
    weight: 0,
};

/// Why a file is none that a host says something in.
#[derive(Clone, Copy)]
pub(crate) enum StandingFault {
    /// The line of that number, from 1, has no such word, or has again what a line before it has.
    Line(u64),
    /// It has more than 256 bytes.
    Length,
    /// It is no regular file, or cannot be read.
    File,
}

/// What a line of the file says.
#[derive(Clone, Copy)]
pub(crate) enum Word {
    /// `standby on` or `standby off`
    Standby(bool),
    /// `fit yes` or `fit no`
    Fit(bool),
    /// `pull on` or `pull off`
    Pull(bool),
    /// `weight N`
    Weight(u8),
}

/// What a file says: each of its words once at most.
#[derive(Clone, Copy, Default)]
pub(crate) struct StandingText {
    standby: Option<bool>,
    fit: Option<bool>,
    pull: Option<bool>,
    weight: Option<u8>,
}

impl StandingText {
    /// What these bytes say, or the first fault. Empty lines say nothing.
    pub(crate) fn read(bytes: &[u8]) -> Result<StandingText, StandingFault> {
        if bytes.len() > MOST {
            return Err(StandingFault::Length);
        }
        let mut text = StandingText::default();
        let mut number: u64 = 0;
        for line in bytes.split(|byte| *byte == b'\n') {
            number = number.saturating_add(1);
            if !line.is_empty() && !text.take(line) {
                return Err(StandingFault::Line(number));
            }
        }
        Ok(text)
    }

    /// Takes a line, and gives whether it is one that did not stand before.
    fn take(&mut self, line: &[u8]) -> bool {
        match word_in(line) {
            Some(Word::Standby(standby)) => self.standby.replace(standby).is_none(),
            Some(Word::Fit(fit)) => self.fit.replace(fit).is_none(),
            Some(Word::Pull(pull)) => self.pull.replace(pull).is_none(),
            Some(Word::Weight(weight)) => self.weight.replace(weight).is_none(),
            None => false,
        }
    }

    /// What the host says by this file, and where that is silent by these keys of the settings text.
    pub(crate) fn over(self, keys: HostStanding) -> HostStanding {
        HostStanding {
            fit: self.fit.unwrap_or(keys.fit),
            pull: self.pull.unwrap_or(keys.pull),
            standby: self.standby.unwrap_or(keys.standby),
            weight: self.weight.unwrap_or(keys.weight),
        }
    }
}

/// The word that a line is, or none.
#[tactic(auto, unfolding(crate::specs::StandingTexts::word_in))]
fn word_in(line: &[u8]) -> Option<Word>
    ensures { result ≡ word_in line.now }
{
    if line == b"standby on".as_slice() {
        Some(Word::Standby(true))
    } else if line == b"standby off".as_slice() {
        Some(Word::Standby(false))
    } else if line == b"fit yes".as_slice() {
        Some(Word::Fit(true))
    } else if line == b"fit no".as_slice() {
        Some(Word::Fit(false))
    } else if line == b"pull on".as_slice() {
        Some(Word::Pull(true))
    } else if line == b"pull off".as_slice() {
        Some(Word::Pull(false))
    } else {
        weight_in(line)
    }
}

/// The weight that a line says, or none.
fn weight_in(line: &[u8]) -> Option<Word>
    ensures { result ≡ weight_in line.now }
{
    let digits = line.strip_prefix(b"weight ")?;
    let weight = read_decimal(digits)?;
    if weight <= MOST_WEIGHT {
        Some(Word::Weight(weight as u8))
    } else {
        None
    }
}

/// What is handed to a node of which its host says this: `QN`, a kind that no packet of a network has, flags (1 barred, 2 unfit, 4 asks for
/// the resource) and the weight.
pub(crate) fn packet_of(said: HostStanding) -> [u8; 5]
    ensures { result ≡ packet_of said }
{
    let barred = if said.standby { 1 } else { 0 };
    let unfit = if said.fit { 0 } else { 2 };
    let pulls = if said.pull { 4 } else { 0 };
    [b'Q', b'N', WORD, barred + unfit + pulls, said.weight]
}
