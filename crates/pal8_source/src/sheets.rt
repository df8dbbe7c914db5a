ghost use Rattle.std.specs.Prelude.{◌≡◌, ◌<◌};
ghost use Rattle.pal8_source.specs.Sheets.{is_datum};
ghost use Rattle.pal8_source.specs.Steps.{sheet_of};
ghost use Rattle.pal8_source.specs.Texts.{word_at};

use source_names::CellNames;
use source_notes::Notes;
use std::marker::Model;
use word12::{Cell, Word};

/// What a source shows of a tape: its words, one or none for each cell of core, and which cells are a pool's, hold instructions and are tagged. Also
/// the names that cells are given, the notes beside words, and whether a start is given.
#[derive(Drop)]
pub struct Sheet<'s> {
    pub words: &'s [Option<Word>],
    pub pools: &'s [bool],
    pub code: &'s [bool],
    pub flags: &'s [bool],
    pub names: &'s Option<CellNames>,
    pub notes: &'s Option<Notes<'s>>,
    pub has_starts: bool,
}

impl<'s> Model for Sheet<'s> {
    ghost use Rattle.std.specs.Prelude.{◌≡◌, length};
    ghost use Rattle.word12.specs.declared.sizes.TheConstants.{CORE};
    ghost use Rattle.pal8_source.specs.Steps.{SheetLists};

    ghost Value = { SheetLists };

    ghost view = { λ s. record {
      words = s.words.now;
      pools = s.pools.now;
      code = s.code.now;
      flags = s.flags.now;
      names = s.names.now;
      notes = s.notes.now;
      has_starts = s.has_starts;
    } };

    ghost invariant = { λ s. (length s.words.now ≡ CORE) × (length s.pools.now ≡ CORE) × (length s.code.now ≡ CORE) × (length s.flags.now ≡ CORE) };
}

impl Sheet<'_> {
    /// Whether a cell has a word that isn't reached from a start, has no tag and is no pool's.
    pub fn is_datum(&self, cell: Cell) -> bool
        ensures { result ≡ is_datum (sheet_of self.now) cell }
    {
        self.has_starts
            && self.words[cell.index()].is_some()
            && !self.code[cell.index()]
            && !self.flags[cell.index()]
            && !self.pools[cell.index()]
    }

    /// The number of a cell's word, or 0.
    pub fn number(&self, cell: Cell) -> u16
        ensures value { result ≡ word_at (sheet_of self.now) cell }
        ensures range { result < 0o10000 }
    {
        match self.words[cell.index()] {
            Some(word) => word.get(),
            None => 0,
        }
    }
}
