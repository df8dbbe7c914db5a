//! Laws of dates. Each function does nothing: its contract is the law.
ghost use Rattle.std.specs.Prelude.{◌≡◌};
ghost use Rattle.os8_dates.specs.Laws.{DatesComeBack, NumbersComeBack, OneYearOfEight, ParsesWhatItSpells, TimesComeBack, TimesKeepWords, WordsComeBack};

/// A word that is a date is the word of that date, whichever eight years are meant. A date is what its word means among eight years
/// that have its own.
pub fn words_and_dates()
    ensures words { WordsComeBack }
    ensures dates { DatesComeBack }
{}

/// Of the eight years up to the last one just one has the bits of a word, and that is the year of its date.
pub fn one_year_of_eight()
    ensures { OneYearOfEight }
{}

/// What is spelled is parsed as the date.
pub fn spelled_dates()
    ensures { ParsesWhatItSpells }
{}

/// The days count up by one from the 1st of January 1970 on, and a day is that of its time, which gives its word again.
pub fn days_and_times()
    ensures numbers { NumbersComeBack }
    ensures times { TimesComeBack }
    ensures words { TimesKeepWords }
{}
