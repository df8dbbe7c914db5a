//! The rules of one walk: the facts of a program, and the pointers that are followed.

ghost use Rattle.std.specs.Prelude.{◌≡◌, length};
ghost use Rattle.word12.specs.declared.sizes.TheConstants.{CORE};
ghost use Rattle.flow8.specs.Flow.{word_in};

use crate::cells::word_at;
use crate::facts::Facts;
use word12::{Cell, Word};

/// By what a program is followed.
#[derive(Clone, Copy)]
pub(crate) struct Rules<'a> {
    pub facts: &'a Facts<'a>,
    /// The word with which each pointer is followed, one or none for each cell of core.
    pub pointers: &'a [Option<Word>],
    /// A flag for each cell to which no ISZ skips.
    pub no_skip_cells: &'a [bool],
    ghost sized: { (length pointers.now ≡ CORE) × (length no_skip_cells.now ≡ CORE) },
}

impl<'a> Rules<'a> {
    /// The word with which a pointer is followed.
    pub fn pointer(&self, cell: Cell) -> Option<Word>
        ensures { result ≡ word_in self.now.pointers.now cell }
    {
        word_at(self.pointers, cell)
    }
}
