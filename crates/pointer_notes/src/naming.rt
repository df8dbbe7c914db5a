ghost use Rattle.std.specs.Prelude.{◌≡◌, ◌++◌, ℕ, List, OnOk};

use std::alloc::AllocError;
use word12::Cell;

/// How cells are named in a listing.
pub trait CellNaming {
    /// The name of a cell, or the tag that is made of it.
    ghost name: { Self → ℕ → List ℕ };

    /// Appends the name of a cell (this project's profile).
    fn put_name(&self, text: &mut Vec<u8>, cell: Cell) -> Result<(), AllocError>
        ensures { OnOk result (text.new.items ≡ text.old.items ++ name self.now cell) };
}
