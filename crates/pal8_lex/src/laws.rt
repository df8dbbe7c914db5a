//! Laws about the statements of a text, which hold whatever reads it. A call of one does nothing, and lets its caller use it.

ghost use Rattle.pal8_lex.specs.Laws.{StatementsStay, LinesEnd, StatementsBeginAnew, PiecesAreWhole, BlanksAfterMeanNothing, BlanksAreOne, BlanksBeforeMeanNothing};

/// The statements of a text stay whatever follows it.
pub fn statements_stay()
    ensures { StatementsStay }
{}

/// The end of a line ends a statement, whatever it stands after.
pub fn lines_end()
    ensures { LinesEnd }
{}

/// After the end of a statement the next one is a function of its own bytes.
pub fn statements_begin_anew()
    ensures { StatementsBeginAnew }
{}

/// The pieces of a statement, its blanks and comments with them, leave no byte of it out.
pub fn pieces_are_whole()
    ensures { PiecesAreWhole }
{}

/// A blank at the beginning, beside a sign, after an opening, before a closing or after a blank means nothing.
pub fn blanks_mean_nothing()
    ensures following { BlanksAfterMeanNothing }
    ensures again { BlanksAreOne }
    ensures before { BlanksBeforeMeanNothing }
{}
