//! Laws about the statements of a text, which hold whatever reads it. A call of one does nothing, and lets its caller use it.

ghost use Rattle.pal_lex.specs.Laws.{TextGrows, StatementsStay, EndsSource, FaultStays, FaultsAreOfStatements, PauseIsBad, PauseJoins, JoinGoesOn, ByteGoesOn, EndsJoin, RunsAreMaximal, RunsEnd, BlanksMeanNothing};
ghost use Rattle.pal_lex.specs.Spans.{HasSpans, HasAll, HasSourceSpans, HasAllOfSource, PauseHasSpans, PauseHasAll};

/// The bytes between the places of a token are its text, apart from those that are as if they weren't there.
pub fn spans()
    ensures { HasSpans }
{}

/// The tokens of a statement leave nothing of it out but blanks.
pub fn whole_statement()
    ensures { HasAll }
{}

/// Bytes in their order, with one after them, are a text with that byte as its newest.
pub fn text_grows()
    ensures { TextGrows }
{}

/// The statements of a text stay whatever follows it.
pub fn statements_stay()
    ensures { StatementsStay }
{}

/// After the `$` that ends the source there is no statement.
pub fn dollar_ends_source()
    ensures { EndsSource }
{}

/// The first fault of a text stays whatever follows it.
pub fn fault_stays()
    ensures { FaultStays }
{}

/// The first fault of a text is an illegal character, a bad number or a bad statement.
pub fn faults_are_of_statements()
    ensures { FaultsAreOfStatements }
{}

/// In a single source PAUSE alone is a bad statement.
pub fn pause_is_bad()
    ensures { PauseIsBad }
{}

/// At PAUSE the join goes on with the next source.
pub fn pause_joins()
    ensures { PauseJoins }
{}

/// The statements of a source so far are the first of the join, as long as none has a fault.
pub fn join_goes_on()
    ensures { JoinGoesOn }
{}

/// The statements of a source with one byte more are the first of the join, unless it ends PAUSE.
pub fn byte_goes_on()
    ensures { ByteGoesOn }
{}

/// After a source with neither PAUSE nor a fault no further source counts.
pub fn source_ends_join()
    ensures { EndsJoin }
{}

/// In one of several sources the bytes between the places of a token are its text, too.
pub fn source_spans()
    ensures { HasSourceSpans }
{}

/// In one of several sources the tokens of a statement leave nothing of it out but blanks.
pub fn whole_source_statement()
    ensures { HasAllOfSource }
{}

/// The tokens of PAUSE, which ends one of several sources, have their places, too, and leave nothing of it out but blanks.
pub fn pause_spans()
    ensures spans { PauseHasSpans }
    ensures whole { PauseHasAll }
{}

/// A blank beside a sign, at an end of a statement or after a blank means nothing: the tokens are the same without it.
pub fn blanks_mean_nothing()
    ensures { BlanksMeanNothing }
{}

/// Letters and digits that stand together are one name or number, however many.
pub fn runs_are_maximal()
    ensures { RunsAreMaximal }
{}

/// Any other character ends a name or a number, and changes nothing of it.
pub fn runs_end()
    ensures { RunsEnd }
{}
