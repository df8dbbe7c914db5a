//! Cells in comments.

ghost use Rattle.std.specs.Prelude.{◌≡◌, ◌++◌, ◌∷◌, [], OnOk};
ghost use Rattle.word12.specs.Octal.{octal5};
ghost use Rattle.source_notes.specs.Notes.{note_lines, some_cells};

use std::alloc::AllocError;
use word12::Cell;

/// How many cells a comment has at most.
pub(crate) const MOST_CELLS: usize = 8;

/// Appends a cell after a blank, its field first.
pub(crate) fn put_cell(text: &mut Vec<u8>, cell: Cell) -> Result<(), AllocError>
    ensures { OnOk result (text.new.items ≡ text.old.items ++ 0o40 ∷ octal5 cell) }
{
    text.push(b' ')?;
    text.extend_from_slice(&cell.octal5())?;
    Ok(())
}

/// Appends a comment line of these words and cells, eight at most, and `..` where there are more.
pub(crate) fn put_list(text: &mut Vec<u8>, words: &[u8], cells: &[Cell]) -> Result<(), AllocError>
    ensures { OnOk result (text.new.items ≡ text.old.items
        ++ note_lines ((words.now ++ some_cells 8 cells.now) ∷ [])) }
{
    text.push(b'/')?;
    text.extend_from_slice(words)?;
    put_cells(text, cells)?;
    text.extend_from_slice(b"\r\n")?;
    Ok(())
}

/// Appends cells, eight at most, and `..` where there are more.
fn put_cells(text: &mut Vec<u8>, cells: &[Cell]) -> Result<(), AllocError>
    ensures { OnOk result (text.new.items ≡ text.old.items ++ some_cells 8 cells.now) }
{
    let mut left = MOST_CELLS;
    for cell in cells {
        if left == 0 {
            text.extend_from_slice(b" ..")?;
            return Ok(());
        }
        put_cell(text, *cell)?;
        left -= 1;
    }
    Ok(())
}
