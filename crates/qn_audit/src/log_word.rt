//! Known words of a log, and texts that are to be one word.
ghost use Rattle.std.specs.Prelude.{◌≡◌, ◌==◌, IfErr, IsTrue, OnOk, Err, Ok};
ghost use Rattle.std.specs.List.{list_any};
ghost use Rattle.std.specs.Str.{bytes_eq};
ghost use Rattle.qn_model.specs.Lines.{words_of};
ghost use Rattle.qn_sched.specs.Words.{one_word};
ghost use Rattle.qn_audit.specs.Reading.{HasNoSpace};

use qn_model::LineFault;

/// Whether a word is the known one.
pub(crate) fn is_word(word: &[u8], known: &[u8]) -> bool
    ensures { result ≡ bytes_eq word.now known.now }
{
    if word.len() != known.len() {
        return false;
    }
    for i in 0..known.len() {
        if word[i] != known[i] {
            return false;
        }
    }
    true
}

/// That a text is one word. BadCount where it is more. A text that is known to have no space is not searched for one.
pub(crate) fn expect_one_word(text: &[u8], has_no_space: bool) -> Result<(), LineFault>
    requires { IsTrue has_no_space → HasNoSpace text.now }
    ensures one { OnOk result (one_word (words_of text.now) ≡ Ok text.now) }
    ensures more { IfErr result (λ fault. one_word (words_of text.now) ≡ Err fault) }
{
    if has_no_space {
        return Ok(());
    }
    if has_space(text) {
        return Err(LineFault::BadCount);
    }
    Ok(())
}

fn has_space(text: &[u8]) -> bool
    ensures { result ≡ list_any (λ byte. byte == 32) text.now }
{
    text.iter().any(|byte| *byte == b' ')
}
