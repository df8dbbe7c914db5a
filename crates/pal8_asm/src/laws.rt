//! Laws about what a text gives, which hold whatever assembles it. A call of one does nothing, and lets its caller use it.

ghost use Rattle.pal8_asm.specs.Laws.{Apart, FaultStays, NoPoolNoChange, PlacesStay, SkippedIsNothing, ValueIsFound};
ghost use Rattle.pal8_asm.specs.Reaching.{LinkIsFound, LiteralIsFound};

use pal8_pools::clash_laws::no_clash_is_apart;
use pal8_pools::laws::cells_stay;
use pal8_values::laws::{links_are_reached, literals_are_reached, words_ask_more};

/// The first fault of a text's statements is that of the text, whatever follows.
pub fn fault_stays()
    ensures { FaultStays }
{}

/// In a text without a fault no cell of a punched word is a pool's cell.
pub fn apart()
    ensures { Apart }
{
    no_clash_is_apart();
}

/// The pairs of a text whose punched words ask nothing are these words.
pub fn no_pool_no_change()
    ensures { NoPoolNoChange }
{}

/// In a text without a fault the cell that a punched word's literal or link asks for holds its value. That is the last word that the pairs give that
/// cell.
pub fn value_is_found()
    ensures { ValueIsFound }
{}

/// In a text without a fault the word of a memory reference to a literal reaches a cell where it runs, which the pairs give the literal's value. The
/// cell is on the page of the word's location for `(`, on page zero for `[`. The literal's value is the word that its steps make by themselves. The
/// operation has no bits of an address.
pub fn literal_is_found()
    ensures { LiteralIsFound }
{
    words_ask_more();
    cells_stay();
    literals_are_reached();
}

/// In a text without a fault the word of a memory reference to an address on neither page is indirect. Where it runs it reaches a cell that the pairs
/// give that address. The cell is on the page of the word's location.
pub fn link_is_found()
    ensures { LinkIsFound }
{
    words_ask_more();
    cells_stay();
    links_are_reached();
}

/// What the statements of a text leave is what those that are selected leave by themselves. Each condition is then read as nothing, and `<` and `>`
/// as `;`.
pub fn skipped_is_nothing()
    ensures { SkippedIsNothing }
{}

/// Each place, field and name, each condition, and each fault of theirs, is that of the source with each word read as the word 0. None rests on a
/// literal or a link.
pub fn places_stay()
    ensures { PlacesStay }
{}
