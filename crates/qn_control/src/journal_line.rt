//! A line of the journal of a node, as `quorumd` writes it to standard error.
ghost use Rattle.std.specs.Prelude.{◌≤◌, IfSome};

use qn_base::read_decimal;

/// What such a line begins with. Before it may stand what a log adds, as a date and a host.
const BEGIN: &str = "quorumd: node=";

/// A line that a node wrote: words KEY=VALUE, separated by blanks. A value in quotes may have blanks in it.
#[derive(Clone, Copy)]
pub(crate) struct JournalLine<'line> {
    words: &'line str,
    /// The id of the node.
    pub(crate) node: u64,
    /// The wall clock of its host, in milliseconds since 1970.
    pub(crate) time: u64,
    /// What happened.
    pub(crate) event: &'line str,
}

impl<'line> JournalLine<'line> {
    /// The line of a node that stands in this line of a file; None where there is none.
    pub(crate) fn of(line: &'line str) -> Option<JournalLine<'line>> {
        let (_before, rest) = line.split_once(BEGIN)?;
        let (node, words) = rest.split_once(' ')?;
        Some(JournalLine {
            words,
            node: read_decimal(node.as_bytes())?,
            time: milliseconds_of(word_of(words, "time")?)?,
            event: word_of(words, "event")?,
        })
    }

    /// The value of this key, without its quotes; None where it does not stand there.
    pub(crate) fn word(&self, key: &str) -> Option<&'line str> {
        word_of(self.words, key)
    }
}

/// The value of the first word with this key.
fn word_of<'line>(words: &'line str, key: &str) -> Option<&'line str> {
    let mut rest = words;
    for _ in 0..words.len() {
        let (name, value, after) = first_word(rest)?;
        if name == key {
            return Some(value);
        }
        rest = after;
    }
    None
}

/// The key and the value of the first word, and what follows it.
fn first_word(words: &str) -> Option<(&str, &str, &str)> {
    let (name, rest) = words.split_once('=')?;
    if let Some(quoted) = rest.strip_prefix('"') {
        let (value, after) = quoted.split_once('"')?;
        return Some((name, value, after.trim_start()));
    }
    match rest.split_once(' ') {
        Some((value, after)) => Some((name, value, after)),
        None => Some((name, rest, "")),
    }
}

/// Seconds with three digits behind the point, in milliseconds.
fn milliseconds_of(time: &str) -> Option<u64> {
    let (seconds, thousandths) = time.split_once('.')?;
    let seconds = read_decimal(seconds.as_bytes())?;
    let [hundreds, tens, ones] = thousandths.as_bytes() else {
        return None;
    };
    let thousandths = 100 * digit(*hundreds)? + 10 * digit(*tens)? + digit(*ones)?;
    seconds.checked_mul(1000)?.checked_add(thousandths)
}

/// The value of a decimal digit.
fn digit(byte: u8) -> Option<u64>
    ensures { IfSome result (λ value. value ≤ 9) }
{
    if byte.is_ascii_digit() {
        Some(u64::from(byte - b'0'))
    } else {
        None
    }
}
