//! Laws of the asks of words, and of what these reach. Each function does nothing: its contract is the law.

ghost use Rattle.pal8_values.specs.Laws.{LinksAreReached, LiteralsAreReached, WordsAskMore, WordsAskNear};

/// A word asks the pool of its own page and that of page zero of its field alone.
pub fn words_ask_near()
    ensures { WordsAskNear }
{}

/// A word asks after what was asked before it. That stays asked, by punched words too.
pub fn words_ask_more()
    ensures { WordsAskMore }
{}

/// The word of a memory reference whose address is a literal reaches the cell that has the literal's value, where it runs. That is at the cell's
/// offset: on the page of the place for `(`, on page zero for `[`. The operation has no bits of an address (Small Computer Handbook; PAL8, in this
/// project's profile).
pub fn literals_are_reached()
    ensures { LiteralsAreReached }
{}

/// The word of a memory reference to an address on neither page is indirect, and reaches a cell that has the address, where it runs (Small Computer
/// Handbook; PAL8, in this project's profile).
pub fn links_are_reached()
    ensures { LinksAreReached }
{}
