//! Laws of spelled names. Each function does nothing: its contract is the law.
ghost use Rattle.name_spelling.specs.Laws.{PlainAreAsTyped, PlainAreTyped, ReadsWhatItSpells, ShownAreTyped, TextsAreSafe, TextsAreShort, TypedAreShort};

/// What is shown, read, is the name: of every name that four words can be.
pub fn shown_names()
    ensures { ReadsWhatItSpells }
{}

/// What is shown has letters, digits, `_` and dots alone, none of which means anything to a shell.
pub fn safe_names()
    ensures { TextsAreSafe }
{}

/// What is shown of a file's name, typed, is that name.
pub fn typed_names()
    ensures { ShownAreTyped }
{}

/// A name of letters and digits is typed as a script has it, and shown as it was typed.
pub fn plain_names()
    ensures typed { PlainAreTyped }
    ensures shown { PlainAreAsTyped }
{}

/// A text that spells a name has at most 25 characters, and so has what is shown of a name.
pub fn short_names()
    ensures typed { TypedAreShort }
    ensures shown { TextsAreShort }
{}
