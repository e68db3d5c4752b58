//! The settings text on standard input, where one was read before the command too: it is the same one, byte for byte.
ghost use Rattle.std.specs.Prelude.{◌≡◌, ◌≤◌, IfOk, length};

use crate::PROGRAM;
use qn_base::Failed;
use qn_io::Source;

/// A settings text that was read before the command.
#[derive(Drop)]
pub struct Text {
    pub path: String,
    pub bytes: Vec<u8>,
}

/// A source that gives what another one gives, while that is a text that was read before. Where a byte differs, or one of the two is longer, the
/// read fails and a line on standard error says so. Without such a text it gives what the other one gives. It tells nothing.
#[derive(Drop)]
pub struct SameText<S: Source + Drop, E: Eprint + Drop> {
    source: S,
    errors: E,
    text: Option<Text>,
    /// How many bytes of the text were read.
    count: usize,
    faults: u64,
}

impl<S: Source + Drop, E: Eprint + Drop> SameText<S, E> {
    /// A source over this one, which is at its beginning.
    pub fn new(source: S, errors: E, text: Option<Text>) -> SameText<S, E> {
        SameText {
            source,
            errors,
            text,
            count: 0,
            faults: 0,
        }
    }

    /// Reads from the source into a buffer that is not empty, and nothing into an empty one. It fails where the source does, and where these are not the
    /// next bytes of the text.
    fn read_same(&mut self, into: &mut [u8]) -> Result<usize, Failed>
        ensures within { IfOk result (λ n. n ≤ length into.new) }
        ensures kept { self.new.faults ≡ self.old.faults }
    {
        if into.is_empty() {
            return Ok(0);
        }
        let count = self.source.read(into)?;
        if self.goes_on(&into[..count]) {
            Ok(count)
        } else {
            Err(Failed)
        }
    }

    /// Whether these bytes of the source are the next ones of the text; none is its end.
    fn goes_on(&mut self, bytes: &[u8]) -> bool
        ensures kept { self.new.faults ≡ self.old.faults }
    {
        let Some(text) = &self.text else {
            return true;
        };
        let past = self.count.min(text.bytes.len());
        let (_, rest) = text.bytes.as_slice().split_at(past);
        self.count = self.count.saturating_add(bytes.len());
        let is_next = rest.starts_with(bytes) && bytes.is_empty() == rest.is_empty();
        if !is_next {
            let path = text.path.as_str();
            let _ = eprintln!(&self.errors;
                "{PROGRAM}: {path}: the settings text on standard input is another one"
            );
        }
        is_next
    }
}

impl<S: Source + Drop, E: Eprint + Drop> Source for SameText<S, E> {
    ghost use Rattle.std.specs.Prelude.{◌≡◌, ◌<◌, [], None, OnErr, take};
    ghost use Rattle.std.specs.Io.KnownBytes.{IsAtEnd, prepend_known};
    ghost use Rattle.qn_io.specs.Outside.{HasRisen};

    ghost faults = { λ s. s.faults };

    ghost left = { λ _. None };

    fn read(&mut self, into: &mut [u8]) -> Result<usize, Failed>
        ensures within { IfOk result (λ n. n ≤ length into.new) }
        ensures takes { IfOk result (λ n. None ≡ prepend_known (take n into.new) None) }
        ensures end { IfOk result (λ n. n ≡ 0 → 0 < length into.new → IsAtEnd None) }
        ensures untaken { OnErr result (None ≡ prepend_known [] None) }
        ensures never_falls { self.old.faults ≤ self.new.faults }
        ensures cause { OnErr result (HasRisen self.old.faults self.new.faults) }
    {
        match self.read_same(into) {
            Ok(count) => Ok(count),
            Err(Failed) => {
                self.faults = self.faults.saturating_add(1);
                Err(Failed)
            }
        }
    }
}
