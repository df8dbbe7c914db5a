//! What loading a tape comes to, as laws.
ghost use Rattle.std.specs.Prelude.{◌≡◌, ℕ, Err, List, Ok};
ghost use Rattle.bin_tape.specs.Items.{Item, words_of};
ghost use Rattle.bin_tape.specs.Pairs.{IsTapeOf};
ghost use Rattle.bin_tape.specs.Tape.{IsTape};
ghost use Rattle.bin_tape.specs.declared.faults.TapeFault.{TapeFault as Fault};
ghost use Rattle.core_load.specs.Load.{IsLoaded, LoadsTape};
ghost use Rattle.tape_reports.specs.Listing.{lines_below};
ghost use Rattle.tape_reports.specs.Lists.{IsListed};
ghost use Rattle.word12.specs.declared.sizes.TheConstants.{CORE};
ghost use Rattle.program_laws.specs.Tapes.{AreLaid};

use bin_tape::laws::one_reading;

/// Loading gives each cell of core the last word that a tape has for it, and leaves each other cell as it was. So a tape that is one of certain words
/// with their cells lays these over core. Frames that are no tape change nothing, and so does want of memory.
pub fn loaded_cells()
    ensures loads { (frames old new : List ℕ) (items : List Item) → IsTape frames items → LoadsTape frames old new (Ok tt) → AreLaid (words_of items) old new }
    ensures words { (frames old new : List ℕ) (pairs : List (ℕ × ℕ)) → IsTapeOf frames pairs → LoadsTape frames old new (Ok tt) → AreLaid pairs old new }
    ensures refused { (frames old new : List ℕ) (fault : Fault) → LoadsTape frames old new (Err fault) → new ≡ old }
{
    one_reading();
}

/// A tape's listing has a line for each cell to which loading the tape gives a word, with that word.
pub fn listed_cells()
    ensures { (frames text old new : List ℕ) → IsListed frames text → (loaded : IsLoaded frames old new) → text ≡ lines_below loaded.items CORE }
{
    one_reading();
}
