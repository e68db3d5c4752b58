//! A text that is put together in fixed memory.
ghost use Rattle.std.specs.Prelude.{◌≡◌, ◌<◌};
ghost use Rattle.std.specs.Char.{digit_char};
ghost use Rattle.json.specs.Print.{escape_letter};

use arrayvec::ArrayVec;

/// The most bytes of a text: the status of a node of at most 32, whose names have at most 63 bytes, is shorter where no byte of them is escaped.
pub const ROOM: usize = 14_336;

/// A text while it is put together.
#[derive(Drop)]
pub(crate) struct FixedText {
    pub(crate) bytes: ArrayVec<u8, ROOM>,
    /// Whether a byte had no room.
    pub(crate) is_cut: bool,
}

impl FixedText {
    ghost use Rattle.std.specs.Prelude.{[], false};
    ghost use Rattle.json.specs.Print.{escape_byte};
    ghost use Rattle.qn_journal.specs.FixedTexts.{nothing_yet, with_byte, with_escaped, with_quoted, with_text};

    /// The empty text.
    pub(crate) fn new() -> FixedText
        ensures { result ≡ nothing_yet }
    {
        FixedText {
            bytes: ArrayVec::new(),
            is_cut: false,
        }
    }

    /// Adds a byte at the end, where it has room.
    #[tactic(auto, unfolding(crate::specs::FixedTexts::with_byte))]
    pub(crate) fn byte(&mut self, byte: u8)
        ensures { self.new ≡ with_byte self.old byte }
    {
        if self.bytes.is_full() {
            self.is_cut = true;
        } else {
            self.bytes.push(byte);
        }
    }

    /// Adds a text at the end.
    #[tactic(auto, unfolding(crate::specs::FixedTexts::with_text))]
    pub(crate) fn text(&mut self, text: &[u8])
        ensures { self.new ≡ with_text self.old text.now }
    {
        for byte in text {
            self.byte(*byte);
        }
    }

    /// Adds a text as a string of JSON (RFC 8259, section 7).
    #[tactic(auto, unfolding(crate::specs::FixedTexts::with_quoted))]
    pub(crate) fn quoted(&mut self, text: &[u8])
        ensures { self.new ≡ with_quoted self.old text.now }
    {
        self.byte(b'"');
        self.escaped(text);
        self.byte(b'"');
    }

    /// Adds what stands for a text between the quotation marks of a string.
    #[tactic(auto, unfolding(crate::specs::FixedTexts::with_escaped))]
    fn escaped(&mut self, text: &[u8])
        ensures { self.new ≡ with_escaped self.old text.now }
    {
        for byte in text {
            self.escaped_byte(*byte);
        }
    }

    /// Adds what stands for a byte in a string.
    #[tactic(auto, unfolding(json::specs::Print::escape_byte, crate::specs::FixedTexts::with_text))]
    fn escaped_byte(&mut self, byte: u8)
        ensures { self.new ≡ with_text self.old (escape_byte byte) }
    {
        let letter = escape_letter(byte);
        if letter > 0 {
            self.byte(b'\\');
            self.byte(letter);
        } else if byte < 32 {
            self.byte(b'\\');
            self.byte(b'u');
            self.byte(b'0');
            self.byte(b'0');
            self.byte(digit_char(byte / 16));
            self.byte(digit_char(byte % 16));
        } else {
            self.byte(byte);
        }
    }
}

/// The letter of the short escape of a byte, 0 where it has none.
fn escape_letter(byte: u8) -> u8
    ensures { result ≡ escape_letter byte }
{
    match byte {
        b'"' | b'\\' => byte,
        8 => b'b',
        12 => b'f',
        b'\n' => b'n',
        b'\r' => b'r',
        b'\t' => b't',
        _ => 0,
    }
}

/// The digit of a number below 16.
fn digit_char(digit: u8) -> u8
    requires { digit < 16 }
    ensures { result ≡ digit_char digit }
{
    if digit < 10 {
        b'0' + digit
    } else {
        b'a' + (digit - 10)
    }
}
