//! A law about listings, which holds whatever prints them. A call of it does nothing, and lets its caller use it.

ghost use Rattle.pal8_listing.specs.Laws.{WordsAreListed};

/// The words at the lines of a listing, and then the cells of its pools, are the words of its tape with their cells, in their order and no others.
pub fn words_are_listed()
    ensures { WordsAreListed }
{}
