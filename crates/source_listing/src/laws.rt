//! Laws about listings, which hold whatever prints them. A call of one does nothing, and lets its caller use it.

ghost use Rattle.source_listing.specs.Laws.{WordsAreListed, LinesAreListed, WordsStand};

use host_sources::laws::fine_terms_have_value;
pub use host_sources::laws::symbols_have_last_values;

/// The words that stand at the lines of a listing are those of the sources, in their order and no others.
pub fn words_are_listed()
    ensures { WordsAreListed }
{
    fine_terms_have_value();
}

/// The lines of a listing are those of the sources.
pub fn lines_are_listed()
    ensures { LinesAreListed }
{}

/// Each word of a listing stands at the source and the line at which its statement ends.
pub fn words_stand()
    ensures { WordsStand }
{}
