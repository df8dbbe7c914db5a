//! Laws of the lines that show words. Each function does nothing: its contract is the law.
ghost use Rattle.block_words.specs.Laws.{ReadsWhatItShows};

/// What a line shows, read back, is its words, whatever stands beside them.
pub fn shown_words()
    ensures { ReadsWhatItShows }
{}
