//! The first lines of a listing: where the program starts, and what is assumed of it.

ghost use Rattle.std.specs.Prelude.{◌≡◌, ◌++◌, IfOk, OnOk, codes};
ghost use Rattle.source_notes.specs.Notes.{cells_line, note_lines};
ghost use Rattle.pointer_notes.specs.Heads.{assumed_cells, is_assumed, stores_somewhere, stores_through};
ghost use Rattle.pointer_notes.specs.Steps.{with_cell_if, view_in};

use crate::answers::Views;
use crate::comments::put_list;
use crate::remarks::is_auto_index;
use flow8::referred_cell;
use std::alloc::{AllocError, Global};
use word12::{CORE, Cell, Word};

/// ISZ, DCA and JMS through a pointer without its page bit and its offset, 2400 to 2777, 3400 to 3777 and 4400 to 4777.
const ISZ_POINTER: u16 = 5;

const DCA_POINTER: u16 = 7;

const JMS_POINTER: u16 = 0o11;

/// The instructions that store in cells that aren't known, by rising cell.
pub(crate) fn assumed_cells(alloc: Global, views: &Views<'_>) -> Result<Vec<Cell>, AllocError>
    ensures { IfOk result (λ cells. cells.items ≡ assumed_cells (view_in views.now)) }
{
    let mut cells = Vec::new(alloc);
    for number in 0u32..CORE as u32 {
        let cell = Cell::of(number);
        push_if(&mut cells, is_assumed(views, cell), cell)?;
    }
    Ok(cells)
}

fn push_if(cells: &mut Vec<Cell>, is_so: bool, cell: Cell) -> Result<(), AllocError>
    ensures { OnOk result (cells.new.items ≡ cells.old.items ++ with_cell_if is_so cell) }
{
    if is_so {
        cells.push(cell)?;
    }
    Ok(())
}

/// Whether an instruction stores in a cell that isn't known.
fn is_assumed(views: &Views<'_>, cell: Cell) -> bool
    ensures { result ≡ is_assumed (view_in views.now) cell }
{
    views.is_code(cell)
        && (!views.of(cell).is_call && stores_somewhere(views, cell, views.word(cell)))
}

/// Whether a word in a cell stores through an auto-index, or through a pointer that isn't known.
fn stores_somewhere(views: &Views<'_>, cell: Cell, word: Option<Word>) -> bool
    ensures { result ≡ stores_somewhere (view_in views.now) cell word }
{
    let Some(word) = word else {
        return false;
    };
    let pointer = referred_cell(cell, word);
    stores_through(word) && (is_auto_index(pointer) || !views.of(pointer).is_known)
}

fn stores_through(word: Word) -> bool
    ensures { result ≡ stores_through word }
{
    let operation = word.get() / 0o400;
    operation == ISZ_POINTER || (operation == DCA_POINTER || operation == JMS_POINTER)
}

/// Appends a comment line of the instructions that store in cells that aren't known, if there are any.
pub(crate) fn put_assumed(text: &mut Vec<u8>, cells: &[Cell]) -> Result<(), AllocError>
    ensures { OnOk result (text.new.items ≡ text.old.items
        ++ note_lines (cells_line (codes " ASSUMED: STORES CHANGE NO POINTER AT") cells.now)) }
{
    if cells.is_empty() {
        return Ok(());
    }
    put_list(text, b" ASSUMED: STORES CHANGE NO POINTER AT", cells)
}
