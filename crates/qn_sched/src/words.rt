//! The words of a line, one after the other.
ghost use Rattle.std.specs.Prelude.{◌≡◌, [], ◌∷◌, ◌≤◌, ◌<◌, length, None, Ok, Err, OnOk, OnErr, IfOk, IfErr, IfSome};
ghost use Rattle.std.specs.Option.{option_copied};
ghost use Rattle.qn_model.specs.Lines.{parts, two_words};
ghost use Rattle.qn_sched.specs.Words.{one_word, parts_left, three_words};

use qn_model::LineFault;

/// The first part of a text round a byte, and the text after that byte, or none where the byte is not
/// there.
pub fn first_part(text: &[u8], byte: u8) -> (&[u8], Option<&[u8]>)
    ensures parts { parts byte text.entry.now
        ≡ result.0.now ∷ parts_left byte (option_copied result.1) }
    ensures front_fits { length result.0.now ≤ length text.entry.now }
    ensures rest_shrinks { IfSome result.1 (λ rest. length rest.now < length text.entry.now) }
{
    for (i, b) in text.iter().enumerate() {
        if *b == byte {
            let (front, rest) = text.split_at(i);
            return (front, Some(rest.split_at(1).1));
        }
    }
    (text, None)
}

/// The next word of a line of which `rest` is left, and what is left after it. BadCount where there is
/// no further word.
pub fn next_word(rest: Option<&[u8]>) -> Result<(&[u8], Option<&[u8]>), LineFault>
    ensures word { IfOk result
        (λ next. parts_left 32 (option_copied rest.entry)
        ≡ next.0.now ∷ parts_left 32 (option_copied next.1)) }
    ensures none { OnErr result (rest.entry ≡ None) }
    ensures fault { IfErr result (λ fault. fault ≡ LineFault.BadCount) }
{
    let text = rest.ok_or(LineFault::BadCount)?;
    Ok(first_part(text, b' '))
}

/// That no further word is left of a line. BadCount where there is one.
pub fn no_more_words(rest: Option<&[u8]>) -> Result<(), LineFault>
    ensures none { OnOk result (parts_left 32 (option_copied rest.entry) ≡ []) }
    ensures some { OnErr result (0 < length (parts_left 32 (option_copied rest.entry))) }
    ensures fault { IfErr result (λ fault. fault ≡ LineFault.BadCount) }
{
    match rest {
        None => Ok(()),
        Some(_) => Err(LineFault::BadCount),
    }
}

/// The one word that is left of a line. BadCount where there is none, or more than one.
pub fn one_word(rest: Option<&[u8]>) -> Result<&[u8], LineFault>
    ensures word { IfOk result
        (λ word. one_word (parts_left 32 (option_copied rest.entry)) ≡ Ok word.now) }
    ensures fault { IfErr result
        (λ fault. one_word (parts_left 32 (option_copied rest.entry)) ≡ Err fault) }
{
    let (word, rest) = next_word(rest)?;
    no_more_words(rest)?;
    Ok(word)
}

/// The two words that are left of a line. BadCount where there are fewer or more.
pub fn two_words(rest: Option<&[u8]>) -> Result<(&[u8], &[u8]), LineFault>
    ensures words { IfOk result
        (λ pair. two_words (parts_left 32 (option_copied rest.entry))
        ≡ Ok (pair.0.now, pair.1.now)) }
    ensures fault { IfErr result
        (λ fault. two_words (parts_left 32 (option_copied rest.entry)) ≡ Err fault) }
{
    let (first, rest) = next_word(rest)?;
    let (second, rest) = next_word(rest)?;
    no_more_words(rest)?;
    Ok((first, second))
}

/// The three words that are left of a line. BadCount where there are fewer or more.
pub fn three_words(rest: Option<&[u8]>) -> Result<(&[u8], &[u8], &[u8]), LineFault>
    ensures words { IfOk result
        (λ three. three_words (parts_left 32 (option_copied rest.entry))
        ≡ Ok (three.0.now, three.1.now, three.2.now)) }
    ensures fault { IfErr result
        (λ fault. three_words (parts_left 32 (option_copied rest.entry)) ≡ Err fault) }
{
    let (first, rest) = next_word(rest)?;
    let (second, rest) = next_word(rest)?;
    let (third, rest) = next_word(rest)?;
    no_more_words(rest)?;
    Ok((first, second, third))
}
