//! A law of words that choose files. The function does nothing: its contract is the law.
ghost use Rattle.name_spelling.specs.PatternLaws.{AllAreLike, SpelledAlone};

/// A law: `*.*` chooses all files, and a word that spells a name, with no sign in it, no file of another name.
pub fn words_choose()
    ensures all { AllAreLike }
    ensures one { SpelledAlone }
{}
