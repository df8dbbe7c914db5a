//! Laws of words on pools' cells. Each function does nothing: its contract is the law.

ghost use Rattle.pal8_pools.specs.ClashLaws.{ClashIsLowest, NoClashIsApart};

/// Where no cell clashes, no word's cell is a pool's.
pub fn no_clash_is_apart()
    ensures { NoClashIsApart }
{}

/// A clash is a word's cell and a pool's, and each other such cell is above it.
pub fn clash_is_lowest()
    ensures { ClashIsLowest }
{}
