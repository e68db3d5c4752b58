//! What one line of a settings text says: a section, a pair, an end, or nothing.
ghost use Rattle.std.specs.Prelude.{◌≡◌, ℕ, ◌+◌, ◌<◌, ◌≤◌, ◌==◌, length, position, take, drop, IfSome};
ghost use Rattle.std.specs.List.{list_any};
ghost use Rattle.qn_conf.specs.Line.{is_blank, is_name, meaning_of, pair_of, section_of, trim, trim_end, trim_start};

use crate::tree::{Item, Word};

/// What a line of a settings text says.
#[derive(Drop)]
pub(crate) enum Meaning<'text> {
    /// Nothing: the line is empty or a comment.
    PassedOver,
    /// An item of the tree.
    Says(Item<'text>),
    /// The line is of no known kind.
    Bad,
}

/// What a line says, without its end of line.
#[tactic(auto, unfolding(crate::specs::Line::meaning_of))]
pub(crate) fn read_line(line: &[u8]) -> Meaning<'_>
    ensures { result ≡ meaning_of line.now }
{
    match trim(line) {
        [] | [b'#', ..] => Meaning::PassedOver,
        b"}" => Meaning::Says(Item::Exit),
        text => match section(text).or_else(|| pair(text)) {
            Some(item) => Meaning::Says(item),
            None => Meaning::Bad,
        },
    }
}

/// The section that begins where the last byte is `{`.
#[tactic(auto, unfolding(crate::specs::Line::section_of))]
fn section(text: &[u8]) -> Option<Item<'_>>
    ensures { result ≡ section_of text.now }
{
    let (last, front) = text.split_last()?;
    let name = trim(front);
    if *last != b'{' || !is_name(name) {
        return None;
    }
    Some(Item::Enter(Word::new(name)))
}

/// The key before the first `:`, and the value after it.
#[tactic(auto, unfolding(crate::specs::Line::pair_of))]
fn pair(text: &[u8]) -> Option<Item<'_>>
    ensures { result ≡ pair_of text.now }
{
    let colon = first_colon(text)?;
    let key = trim(&text[..colon]);
    if !is_name(key) {
        return None;
    }
    Some(Item::Pair(Word::new(key), Word::new(trim(&text[colon + 1..]))))
}

fn first_colon(text: &[u8]) -> Option<usize>
    ensures place { result ≡ position (λ byte. byte == 58) text.now }
    ensures within { IfSome result (λ colon. colon < length text.now) }
{
    text.iter().position(|byte| *byte == b':')
}

fn has_blank(word: &[u8]) -> bool
    ensures { result ≡ list_any is_blank word.now }
{
    word.iter().any(|byte| is_blank(*byte))
}

/// Whether a section or a key may have this name: it is not empty and has no blank.
#[tactic(auto, unfolding(crate::specs::Line::is_name))]
fn is_name(word: &[u8]) -> bool
    ensures { result ≡ is_name word.now }
{
    !word.is_empty() && !has_blank(word)
}

/// The text without the blanks at both ends.
#[tactic(auto, unfolding(crate::specs::Line::trim))]
fn trim(text: &[u8]) -> &[u8]
    ensures { result.now ≡ trim text.now }
{
    trim_end(trim_start(text))
}

fn trim_start(text: &[u8]) -> &[u8]
    ensures { result.now ≡ trim_start text.now }
{
    let mut rest = text;
    while let [first, more @ ..] = rest
        && is_blank(*first)
    {
        rest = more;
    }
    rest
}

fn trim_end(text: &[u8]) -> &[u8]
    ensures { result.now ≡ trim_end text.now }
{
    let mut rest = text;
    while let [more @ .., last] = rest
        && is_blank(*last)
    {
        rest = more;
    }
    rest
}

/// Whether a byte is a blank: space, tab or carriage return (this project's profile).
pub fn is_blank(byte: u8) -> bool
    ensures { result ≡ is_blank byte }
{
    matches!(byte, b' ' | b'\t' | b'\r')
}
