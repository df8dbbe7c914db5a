//! Laws of names. Each function does nothing: its contract is the law.

ghost use Rattle.std.specs.Prelude.{◌≡◌, ℕ, [], List, Option, Some};
ghost use Rattle.source_names.specs.Laws.{AreDifferent, AreGiven};
ghost use Rattle.source_names.specs.Names.{AreNames, IsFault, lines_from, short_name};
ghost use Rattle.source_names.specs.Said.{AreSaid, IsFirstRefused};
ghost use Rattle.source_names.specs.declared.faults.NamesFault.TheVariants.{At};
ghost use Rattle.pal_faults.specs.declared.names.LineRefusal.{LineRefusal};

/// Each name that a text gives is a name as PAL has it, no symbol of the language, and no tag. Its cell has a word, and no two cells have
/// the same name. So a listing by these names assembles to the words that it lists.
pub fn names_are_their_own()
    ensures given { (words : ℕ → Option ℕ) (text : List ℕ) (table : List (Option (List ℕ)))
        → AreNames words text table → AreGiven words table }
    ensures different { (words : ℕ → Option ℕ) (text : List ℕ) (table : List (Option (List ℕ)))
        → AreNames words text table → AreDifferent table }
{}

/// A text is taken line by line: each line is judged by those before it, and the names that are given are those that the lines say. The
/// first line that is refused is reported, with its number and why.
pub fn lines_are_judged_by_those_before()
    ensures names { (words : ℕ → Option ℕ) (text : List ℕ) (table : List (Option (List ℕ)))
        → AreNames words text table → AreSaid words (lines_from [] text) table }
    ensures fault { (words : ℕ → Option ℕ) (text : List ℕ) (number : ℕ) (why : LineRefusal)
        → IsFault words text (At number why) → IsFirstRefused words (lines_from [] text) number why }
{}

/// Short names that the assembler takes for one name are spelled alike. So a name that isn't spelled as a tag is no tag.
pub fn names_are_spelled_one_way()
    ensures { (x y : List ℕ) (number : ℕ) → short_name x ≡ Some number → short_name y ≡ Some number → x ≡ y }
{}
