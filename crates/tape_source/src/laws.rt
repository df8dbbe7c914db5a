//! Laws of the sources of tapes.

ghost use Rattle.std.specs.Prelude.{◌≡◌, ℕ, ◌<◌, ◌++◌, [], true, length, reverse, List, Option};
ghost use Rattle.bin_tape.specs.Items.{tape_map};
ghost use Rattle.bin_tape.specs.Pairs.{ArePairs};
ghost use Rattle.bin_tape.specs.Writing.{tape_of};
ghost use Rattle.pal_lex.specs.Text.{text_of};
ghost use Rattle.pal_asm.specs.Words.{pairs_of};
ghost use Rattle.source_names.specs.Names.{AreNames, has_tag_form};
ghost use Rattle.tape_source.specs.Defined.{DefinesNames, DefinesTags, TagsWhatIsNamed};
ghost use Rattle.tape_source.specs.Fewest.{AreFewest, group_1, group_2};
ghost use Rattle.tape_source.specs.Lines.{source_with};
ghost use Rattle.tape_source.specs.Looks.{AreNotes, AreOwnNames, GivesNoName, IsNaming, IsTagOf, Look, names_in, name_or_tag, with_names};
ghost use Rattle.tape_source.specs.Named.{NamesTags};
ghost use Rattle.tape_source.specs.Sources.{IsFlowFault, IsListFault, IsNamedFault, IsNamedSourceFrom, IsNamedSourceOf, IsReadAs, IsSourceFrom, IsSourceOf, IsSourceWith, SaysTheSame, words_of_tape};
ghost use Rattle.tape_source.specs.Tags.{tag};
ghost use Rattle.tape_source.specs.declared.faults.ListFault.{ListFault};

use bin_tape::laws::written_tape;
use pal_asm::laws::has_words;
use source_names::laws::{names_are_spelled_one_way, names_are_their_own};

/// The source of cells with their words assembles without a fault to just these pairs, in its order. This holds whichever are taken for instructions,
/// whatever is shown beside them, and however their tags are spelled. So the statement that is shown for a word at a place is that word there.
pub fn source_reads_back()
    ensures { (look : Look) (pairs : List (ℕ × ℕ)) → AreNotes look → IsNaming look.name
        → ArePairs pairs → 0 < length pairs → IsReadAs (source_with look pairs) (reverse pairs) }
{}

/// The tape that is written for the words of a tape's source, whatever follows it, gives each cell what the tape gave it.
pub fn tape_comes_back()
    ensures { (look : Look) (frames text rest : List ℕ) (source : IsSourceWith look frames text)
        → SaysTheSame (tape_of (pairs_of (text_of text)) ++ rest) source.items }
{
    written_tape();
    has_words();
}

/// A tape's source tags a cell just where the tape gives it a word that is named. It is named by a name of its own, or by a
/// memory reference among the instructions.
pub fn named_cells_are_tagged()
    ensures { (look : Look) (frames text : List ℕ)
        (source : IsSourceWith look frames text) → TagsWhatIsNamed look source.items }
{}

/// The tags that a tape's source defines are those of the cells that it tags, by rising cell, and each is defined once. Each
/// stands for the address of its cell, and every other name for its permanent value.
pub fn tags_are_defined_once()
    ensures { (look : Look) (frames text : List ℕ) (source : IsSourceWith look frames text)
        → DefinesTags look text (words_of_tape source.items) }
{}

/// At each instruction of a tape that is a memory reference whose cell has a tag, the statement of the tape's source there is a
/// reference by that tag. At each datum but 0 that is the address, in its own field, of a tagged cell, it is that tag.
pub fn cells_are_named_by_tags()
    ensures { (look : Look) (frames text : List ℕ)
        (source : IsSourceWith look frames text) → NamesTags look text source.items }
{}

/// The tags that are made of cells are names, no two cells have the same, and none is a permanent name or a word of the
/// language.
pub fn tags_are_names_of_their_own()
    ensures { IsNaming tag }
{}

/// Where some cells are given names of their own, these and the tags of the other cells are names of their own.
pub fn given_names_are_names_of_their_own()
    ensures { (given : ℕ → Option (List ℕ)) → AreOwnNames given → IsNaming (name_or_tag given) }
{}

/// The names that a text gives cells are names of their own.
pub fn names_of_a_text_are_names_of_their_own()
    ensures { (words : ℕ → Option ℕ) (text : List ℕ) (table : List (Option (List ℕ)))
        → AreNames words text table → AreOwnNames (names_in table) }
{
    names_are_their_own();
    names_are_spelled_one_way();
}

/// Each name that a text gives a cell of a tape is defined in the tape's source, and stands for the address of its cell.
pub fn names_are_tags_of_their_cells()
    ensures { (look : Look) (table : List (Option (List ℕ))) (frames names text : List ℕ)
        (source : IsSourceWith (with_names table look) frames text)
        → AreNames (tape_map source.items) names table → DefinesNames text table }
{
    names_are_their_own();
}

/// Just the tags that are made of cells have the form that no name of the user's own may have.
pub fn tags_have_a_form_of_their_own()
    ensures tags { (cell : ℕ) → has_tag_form (tag cell) ≡ true }
    ensures others { (name : List ℕ) → has_tag_form name ≡ true → IsTagOf name }
{}

/// Where no cell is given a name, a source with names is the source without names, as it is with an empty text. Frames that have no
/// source with an empty text have none without names.
pub fn no_names_change_nothing()
    ensures all { (frames names text : List ℕ) (source : IsNamedSourceOf frames names text)
        → GivesNoName source.table → IsSourceOf frames text }
    ensures reached { (frames starts names text : List ℕ)
        (source : IsNamedSourceFrom frames starts names text)
        → GivesNoName source.table → IsSourceFrom frames starts text }
    ensures empty { (words : ℕ → Option ℕ) (table : List (Option (List ℕ)))
        → AreNames words [] table → GivesNoName table }
    ensures all_fault { (frames : List ℕ) (fault : ListFault)
        → IsNamedFault frames [] [] fault → IsListFault frames fault }
    ensures reached_fault { (frames starts : List ℕ) (fault : ListFault)
        → IsNamedFault frames starts [] fault → IsFlowFault frames starts fault }
{}

/// A word that names of group 1 of the operates, or of group 2, make is shown by names, and by no more of them.
pub fn names_are_fewest()
    ensures group_1 { AreFewest group_1 }
    ensures group_2 { AreFewest group_2 }
{}
