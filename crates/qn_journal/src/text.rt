//! Text that is put together in place; what has no room is left out.
use arrayvec::ArrayVec;
use qn_base::write_decimal;

/// The most bytes of the status of an arbiter: that of 32 nodes whose ids have ten digits, each of which polled with a view of all of them, is shorter where
/// its other numbers have at most twelve.
const TEXT: usize = 14_336;

/// A text while it is put together.
#[derive(Drop)]
pub(crate) struct Text {
    bytes: ArrayVec<u8, TEXT>,
}

impl Text {
    pub(crate) fn new() -> Text {
        Text {
            bytes: ArrayVec::new(),
        }
    }

    pub(crate) fn add(&mut self, text: &[u8]) {
        let _ = self.bytes.try_extend_from_slice(text);
    }

    pub(crate) fn number(&mut self, number: u64) {
        let mut digits = ArrayVec::new();
        write_decimal(number, &mut digits);
        self.add(digits.as_slice());
    }

    /// The number, or `null`.
    pub(crate) fn maybe(&mut self, number: Option<u64>) {
        match number {
            Some(number) => self.number(number),
            None => self.add(b"null"),
        }
    }

    pub(crate) fn as_slice(&self) -> &[u8] {
        self.bytes.as_slice()
    }
}
