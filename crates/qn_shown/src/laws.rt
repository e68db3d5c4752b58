//! What a reader of a status file and of a journal rests on.
ghost use Rattle.std.specs.Prelude.{◌≡◌, List, Some, true};
ghost use Rattle.qn_base.specs.declared.ids.Rank.{Rank};
ghost use Rattle.qn_shown.specs.declared.shown.Shown.{Shown};
ghost use Rattle.qn_shown.specs.declared.shown.Told.{Told};
ghost use Rattle.qn_shown.specs.Fits.{FitsTypes, ToldFits};
ghost use Rattle.qn_shown.specs.LineWords.{AreWords, LineWord, words_in, words_text};
ghost use Rattle.qn_shown.specs.Reading.{shown_in};
ghost use Rattle.qn_shown.specs.Spelling.{shown_text};
ghost use Rattle.qn_shown.specs.Telling.{is_telling, told_bytes, told_of};

/// The text of what a node shows is read as what it shows.
pub fn law_shown_read_back()
    ensures { (shown : Shown) → FitsTypes shown → shown_in (shown_text shown) ≡ Some shown }
{}

/// The words of a line of the journal are read as they were written.
pub fn law_words_read_back()
    ensures { (words : List LineWord) → AreWords words → words_in (words_text words) ≡ Some words }
{}

/// What a node tells is read as it was told, by its bytes.
pub fn law_told_read_back()
    ensures { (from : Rank) (told : Told) → is_telling from told ≡ true → ToldFits told
        → told_of (told_bytes from told) ≡ Some (from, told) }
{}
