//! A text of JSON that is put together token by token.
ghost use Rattle.std.specs.Prelude.{◌≡◌};

use crate::fixed_text::FixedText;
use arrayvec::ArrayVec;
use qn_base::write_decimal;
use qn_shown::ShortString;

/// A text of JSON while it is put together, without spaces.
#[derive(Drop)]
pub(crate) struct JsonText {
    pub(crate) text: FixedText,
    /// Whether a value ended last, so that a comma stands before the next one.
    after_value: bool,
}

impl JsonText {
    ghost use Rattle.std.specs.Prelude.{ℕ, List, [], Some, option_map, decimal};
    ghost use Rattle.json.specs.Json.{boolean, null, string};
    ghost use Rattle.json.specs.Token.{begin_array, begin_object, end_array, end_object, key, number};
    ghost use Rattle.json.specs.Token.{boolean as boolean_token, null as null_token, string as string_token};
    ghost use Rattle.qn_shown.specs.Spelling.{json_or_null, whole};
    ghost use Rattle.qn_journal.specs.FixedTexts.{with_byte};
    ghost use Rattle.qn_journal.specs.JsonTexts.{begun, empty, ended, with_comma, with_entry, with_token};

    /// The empty text.
    pub(crate) fn new() -> JsonText
        ensures { result ≡ empty }
    {
        JsonText {
            text: FixedText::new(),
            after_value: false,
        }
    }

    /// The end of the line.
    pub(crate) fn end_line(&mut self)
        ensures { self.new ≡ record self.old { text = with_byte self.old.text 10 } }
    {
        self.text.byte(b'\n');
    }

    /// Whether a byte had no room.
    pub(crate) fn is_cut(&self) -> bool
        ensures { result ≡ self.now.text.is_cut }
    {
        self.text.is_cut
    }

    /// The bytes of the text.
    pub(crate) fn as_slice(&self) -> &[u8]
        ensures { result.now ≡ self.now.text.bytes.items }
    {
        self.text.bytes.as_slice()
    }

    #[tactic(auto, unfolding(crate::specs::JsonTexts::with_token))]
    pub(crate) fn begin_object(&mut self)
        ensures { self.new ≡ with_token self.old begin_object }
    {
        self.begin(b'{');
    }

    #[tactic(auto, unfolding(crate::specs::JsonTexts::with_token))]
    pub(crate) fn end_object(&mut self)
        ensures { self.new ≡ with_token self.old end_object }
    {
        self.end(b'}');
    }

    #[tactic(auto, unfolding(crate::specs::JsonTexts::with_token))]
    pub(crate) fn begin_array(&mut self)
        ensures { self.new ≡ with_token self.old begin_array }
    {
        self.begin(b'[');
    }

    #[tactic(auto, unfolding(crate::specs::JsonTexts::with_token))]
    pub(crate) fn end_array(&mut self)
        ensures { self.new ≡ with_token self.old end_array }
    {
        self.end(b']');
    }

    /// A bracket that begins a value.
    fn begin(&mut self, bracket: u8)
        ensures { self.new ≡ begun self.old bracket }
    {
        self.comma();
        self.text.byte(bracket);
        self.after_value = false;
    }

    /// A bracket that ends a value.
    fn end(&mut self, bracket: u8)
        ensures { self.new ≡ ended self.old bracket }
    {
        self.text.byte(bracket);
        self.after_value = true;
    }

    /// The name of a member, with its colon.
    #[tactic(auto, unfolding(crate::specs::JsonTexts::with_token))]
    pub(crate) fn key(&mut self, name: &[u8])
        ensures { self.new ≡ with_token self.old (key name.now) }
    {
        self.comma();
        self.text.quoted(name);
        self.text.byte(b':');
        self.after_value = false;
    }

    #[tactic(auto, unfolding(crate::specs::JsonTexts::with_token))]
    fn string_value(&mut self, text: &[u8])
        ensures { self.new ≡ with_token self.old (string_token text.now) }
    {
        self.comma();
        self.text.quoted(text);
        self.after_value = true;
    }

    /// A number of this spelling.
    #[tactic(auto, unfolding(crate::specs::JsonTexts::with_token))]
    pub(crate) fn number_value(&mut self, spelling: &[u8])
        ensures { self.new ≡ with_token self.old (number spelling.now) }
    {
        self.comma();
        self.text.text(spelling);
        self.after_value = true;
    }

    /// A whole number.
    pub(crate) fn whole_value(&mut self, value: u64)
        ensures { self.new ≡ with_token self.old (number (decimal value)) }
    {
        let mut digits = ArrayVec::new();
        write_decimal(value, &mut digits);
        self.number_value(digits.as_slice());
    }

    #[tactic(auto, unfolding(crate::specs::JsonTexts::with_token))]
    fn truth_value(&mut self, truth: bool)
        ensures { self.new ≡ with_token self.old (boolean_token truth) }
    {
        self.comma();
        if truth {
            self.text.text(b"true");
        } else {
            self.text.text(b"false");
        }
        self.after_value = true;
    }

    #[tactic(auto, unfolding(crate::specs::JsonTexts::with_token))]
    fn null_value(&mut self)
        ensures { self.new ≡ with_token self.old null_token }
    {
        self.comma();
        self.text.text(b"null");
        self.after_value = true;
    }

    /// The comma after a value that ended.
    fn comma(&mut self)
        ensures { self.new ≡ with_comma self.old }
    {
        if self.after_value {
            self.text.byte(b',');
        }
    }

    /// A member that is a whole number.
    #[tactic(auto, unfolding(crate::specs::JsonTexts::with_entry))]
    pub(crate) fn whole(&mut self, name: &[u8], value: u64)
        ensures { self.new ≡ with_entry self.old (name.now, Some (whole value)) }
    {
        self.key(name);
        self.whole_value(value);
    }

    /// The same where there is one, else `null`.
    #[tactic(auto, unfolding(crate::specs::JsonTexts::with_entry))]
    pub(crate) fn whole_or_null(&mut self, name: &[u8], value: Option<u64>)
        ensures { self.new ≡ with_entry self.old (name.now, Some (json_or_null whole value)) }
    {
        match value {
            Some(value) => self.whole(name, value),
            None => self.null(name),
        }
    }

    /// The same where there is one, else nothing.
    #[tactic(auto, unfolding(crate::specs::JsonTexts::with_entry))]
    pub(crate) fn whole_if_any(&mut self, name: &[u8], value: Option<u64>)
        ensures { self.new ≡ with_entry self.old (name.now, option_map whole value) }
    {
        if let Some(value) = value {
            self.whole(name, value);
        }
    }

    /// A member that is `true` or `false`.
    #[tactic(auto, unfolding(crate::specs::JsonTexts::with_entry))]
    pub(crate) fn truth(&mut self, name: &[u8], truth: bool)
        ensures { self.new ≡ with_entry self.old (name.now, Some (boolean truth)) }
    {
        self.key(name);
        self.truth_value(truth);
    }

    /// A member that is `null`.
    #[tactic(auto, unfolding(crate::specs::JsonTexts::with_entry))]
    pub(crate) fn null(&mut self, name: &[u8])
        ensures { self.new ≡ with_entry self.old (name.now, Some null) }
    {
        self.key(name);
        self.null_value();
    }

    /// A member that is a string.
    #[tactic(auto, unfolding(crate::specs::JsonTexts::with_entry))]
    pub(crate) fn string(&mut self, name: &[u8], text: &[u8])
        ensures { self.new ≡ with_entry self.old (name.now, Some (string text.now)) }
    {
        self.key(name);
        self.string_value(text);
    }
    /// The same where there is one, else nothing.
    #[tactic(auto, unfolding(crate::specs::JsonTexts::with_entry))]
    pub(crate) fn text_if_any(&mut self, name: &[u8], text: &Option<ShortString>)
        ensures { self.new ≡ with_entry self.old (name.now, option_map string text.now) }
    {
        if let Some(text) = text {
            self.string(name, text.as_str().as_bytes());
        }
    }

    /// The same where there is one, else `null`.
    #[tactic(auto, unfolding(crate::specs::JsonTexts::with_entry))]
    pub(crate) fn text_or_null(&mut self, name: &[u8], text: &Option<ShortString>)
        ensures { self.new ≡ with_entry self.old (name.now, Some (json_or_null string text.now)) }
    {
        match text {
            Some(text) => self.string(name, text.as_str().as_bytes()),
            None => self.null(name),
        }
    }
}
