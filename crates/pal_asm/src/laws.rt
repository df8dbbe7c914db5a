//! Laws about the faults and names of a source, which hold whatever assembles it. A call of one does nothing, and lets its
//! caller use it.

ghost use Rattle.pal_asm.specs.Laws.{FixedNamesKeepTheirValues, FirstFaultStays, WordFaultStays, NoWordIsTold, HasWords, LexicalFaultIsTold, NoLexicalFault, StatementsStay, NoFaultBefore, FirstStatementsTell, FirstWordsTell, NoEndIsTold};

/// A permanent name and a tag keep their values, in a source with no fault before its words are made.
pub fn fixed_names_keep_their_values()
    ensures { FixedNamesKeepTheirValues }
{}

/// The fault that the first pass meets is the fault of the text, whatever follows.
pub fn first_fault_stays()
    ensures { FirstFaultStays }
{}

/// The fault that the second pass meets is the fault of the text.
pub fn word_fault_stays()
    ensures { WordFaultStays }
{}

/// A text that has no word, and no other fault before that, has that fault.
pub fn no_word_is_told()
    ensures { NoWordIsTold }
{}

/// A text with no fault has a word.
pub fn has_words()
    ensures { HasWords }
{}

/// The first fault of the lexer is the fault that the first pass meets.
pub fn lexical_fault_is_told()
    ensures { LexicalFaultIsTold }
{}

/// The lexer has no fault where the first pass met none.
pub fn no_lexical_fault()
    ensures { NoLexicalFault }
{}

/// Bytes more end further statements, and change none.
pub fn statements_stay()
    ensures { StatementsStay }
{}

/// A source with no fault of the first pass has none in its beginning.
pub fn no_fault_before()
    ensures { NoFaultBefore }
{}

/// The fault that the first pass meets among the first statements of a join of sources is the fault of the join.
pub fn first_statements_tell()
    ensures { FirstStatementsTell }
{}

/// The fault that the second pass meets among the first statements of a join of sources is the fault of the join.
pub fn first_words_tell()
    ensures { FirstWordsTell }
{}

/// A text that has no `$`, and no other fault before that, has that fault.
pub fn no_end_is_told()
    ensures { NoEndIsTold }
{}
