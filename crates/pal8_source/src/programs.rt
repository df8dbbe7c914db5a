ghost use Rattle.std.specs.Prelude.{◌≡◌};
ghost use Rattle.source_notes.specs.Referrers.{names_cell};
ghost use Rattle.pal8_source.specs.Pools.{refers};

use flow8::referred_cell;
use source_notes::is_reference;
use std::marker::Model;
use word12::{Cell, Word};

/// The words of a tape, one or none for each cell of core, which of them are instructions, and which are no pool's. A contract sees all three by
/// cells.
#[derive(Drop)]
pub struct Program<'p> {
    pub words: &'p [Option<Word>],
    pub code: &'p [bool],
    pub exempt: &'p [bool],
}

impl<'p> Model for Program<'p> {
    ghost use Rattle.std.specs.Prelude.{◌≡◌, length};
    ghost use Rattle.word12.specs.declared.sizes.TheConstants.{CORE};
    ghost use Rattle.pal8_source.specs.Pools as spec;

    ghost Value = { spec.Program };

    ghost view = { λ p. record { words = p.words.now; code = p.code.now; exempt = p.exempt.now } };

    ghost invariant = { λ p. (length p.words.now ≡ CORE) × (length p.code.now ≡ CORE) × (length p.exempt.now ≡ CORE) };
}

impl Program<'_> {
    /// Whether the word in a cell is an instruction that refers to another cell.
    pub fn refers(&self, cell: Cell, from: Cell) -> bool
        ensures { result ≡ refers self.now cell from }
    {
        self.code[from.index()] && names_cell(self.words[from.index()], from, cell)
    }
}

/// Whether a word in a cell is a memory reference that names another.
fn names_cell(word: Option<Word>, from: Cell, cell: Cell) -> bool
    ensures { result ≡ names_cell from word cell }
{
    match word {
        Some(word) => is_reference(from.address(), word) && referred_cell(from, word) == cell,
        None => false,
    }
}
