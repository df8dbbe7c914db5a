//! Laws of lines. Each function does nothing: its contract is the law.
ghost use Rattle.debug_lines.specs.Laws.{BlankKeepsTexts, BlankMovesWords, CapitalSaysSame, LetterStandsForVerb, NameStandsForVerb, SmallSaysSame};

/// A line says the same whether its letters are small or capital.
pub fn letters_of_any_case()
    ensures small { SmallSaysSame }
    ensures capital { CapitalSaysSame }
{}

/// The name and the letter of each command stand for it.
pub fn names_of_verbs()
    ensures name { NameStandsForVerb }
    ensures letter { LetterStandsForVerb }
{}

/// A blank before words moves their places by one, and does nothing else.
pub fn blanks_before_words()
    ensures places { BlankMovesWords }
    ensures texts { BlankKeepsTexts }
{}
