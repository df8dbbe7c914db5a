//! Laws about sources, which hold whatever assembles them. A call of one does nothing, and lets its caller use it.

ghost use Rattle.pal8_tape.specs.Laws.{HasWords, KeepsOthers};

/// A source with no fault has a word, so its tape has one.
pub fn has_words()
    ensures { HasWords }
{}

/// A text in which a statement is made harmless has as many bytes, and the others are the same at the same places.
pub fn harmless_keeps_others()
    ensures { KeepsOthers }
{}
