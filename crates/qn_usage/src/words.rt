//! The options among the words of a command of which `refusal_of` found none that is not taken.

/// The value of this option: the word after it. A value is no option here, so no path begins with two dashes.
pub fn value_of<'words>(words: &'words [String], name: &str) -> Option<&'words str> {
    let mut after = words.iter();
    let _option = after.find(|word| word.as_str() == name)?;
    let value = after.next()?;
    Some(value.as_str())
}

/// Whether this word stands among them.
pub fn has_word(words: &[String], name: &str) -> bool {
    words.iter().any(|word| word.as_str() == name)
}
