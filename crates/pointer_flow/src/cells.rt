//! Cells of core, and what tables say of them.

ghost use Rattle.std.specs.Prelude.{◌≡◌, ◌<◌, IfOk, IfSome, length, replicate, None, false};
ghost use Rattle.word12.specs.declared.sizes.TheConstants.{CORE};
ghost use Rattle.flow8.specs.Exits.{cell_after};
ghost use Rattle.flow8.specs.Flow.{word_in};
ghost use Rattle.pointer_flow.specs.Programs.{cell_before, is_auto_index, place_in};
ghost use Rattle.pointer_flow.specs.Steps.{with_flag};

use std::alloc::{AllocError, Global};
use word12::{Cell, Word};

/// The cell so many words after this one, in its field.
pub(crate) fn cell_after(cell: Cell, count: u16) -> Cell
    requires { count < 0o10000 }
    ensures value { result ≡ cell_after count cell }
    ensures range { result < CORE }
{
    Cell::at(cell.field(), Word::low(cell.address().get() + count))
}

/// The cell before this one, in its field.
pub(crate) fn cell_before(cell: Cell) -> Cell
    ensures value { result ≡ cell_before cell }
    ensures range { result < CORE }
{
    cell_after(cell, 0o7777)
}

/// Whether a cell is an auto-index, 0010 to 0017 of its field (Small Computer Handbook).
pub(crate) fn is_auto_index(cell: Cell) -> bool
    ensures { result ≡ is_auto_index cell }
{
    cell.address().get() / 0o10 == 1
}

/// The cell at an address of a field, where both are known.
pub(crate) fn place_in(field: Option<u8>, address: Option<Word>) -> Option<Cell>
    requires { IfSome field (λ number. number < 8) }
    ensures value { result ≡ place_in field address }
    ensures range { IfSome result (λ cell. cell < CORE) }
{
    match field {
        Some(number) => match address {
            Some(word) => Some(Cell::at(number, word)),
            None => None,
        },
        None => None,
    }
}

/// The word that a list gives a cell, if it gives it one.
pub(crate) fn word_at(words: &[Option<Word>], cell: Cell) -> Option<Word>
    requires { length words.now ≡ CORE }
    ensures { result ≡ word_in words.now cell }
{
    words[cell.index()]
}

/// The cell that a list gives a cell, if it gives it one.
pub(crate) fn cell_at(cells: &[Option<Cell>], cell: Cell) -> Option<Cell>
    requires { length cells.now ≡ CORE }
    ensures value { result ≡ word_in cells.now cell }
    ensures range { cell < CORE }
{
    cells[cell.index()]
}

/// Sets the flag of a cell, if there is one.
pub(crate) fn set_flag(flags: &mut [bool], cell: &Option<Cell>)
    requires { length flags.old ≡ CORE }
    ensures { flags.new ≡ with_flag flags.old cell.now }
{
    if let Some(cell) = cell {
        flags[cell.index()] = true;
    }
}

/// So many flags, none of which is set.
pub(crate) fn no_flags(alloc: Global, count: usize) -> Result<Vec<bool>, AllocError>
    ensures { IfOk result (λ flags. flags.items ≡ replicate count false) }
{
    let flags = vec![in alloc; false; count]?;
    Ok(flags)
}

/// So many words, none of which is given.
pub(crate) fn no_words(alloc: Global, count: usize) -> Result<Vec<Option<Word>>, AllocError>
    ensures { IfOk result (λ words. words.items ≡ replicate count None) }
{
    let words = vec![in alloc; None; count]?;
    Ok(words)
}

/// So many cells, none of which is known.
pub(crate) fn no_cells(alloc: Global, count: usize) -> Result<Vec<Option<Cell>>, AllocError>
    ensures { IfOk result (λ cells. cells.items ≡ replicate count None) }
{
    let cells = vec![in alloc; None; count]?;
    Ok(cells)
}
