//! Laws of what is shown. Each function does nothing: its contract is the law.
ghost use Rattle.shown_text.specs.Laws.{PlainIsAsItIs, QuotedIsGraphic, ReadsWhatItQuotes, ReadsWhatItShows, ShownIsGraphic};

/// What is shown has graphic characters and blanks alone: it ends no line, and no terminal takes it for a command.
pub fn shown_texts()
    ensures { ShownIsGraphic }
{}

/// A text of graphic characters and blanks without a backslash is shown as it is.
pub fn plain_texts()
    ensures { PlainIsAsItIs }
{}

/// Texts that are shown alike are the same.
pub fn one_text()
    ensures { ReadsWhatItShows }
{}

/// What is shown in a column has graphic characters alone, so neither a blank, a tab nor an end of a line.
pub fn quoted_names()
    ensures { QuotedIsGraphic }
{}

/// Names that are shown alike in a column are the same.
pub fn one_name()
    ensures { ReadsWhatItQuotes }
{}
