ghost use Rattle.std.specs.Prelude.{◌≡◌, ◌++◌, if◌then◌else◌, OnOk, []};
ghost use Rattle.source_notes.specs.Notes.{note_lines};
ghost use Rattle.tape_source.specs.Lines.{line_end};
ghost use Rattle.tape_source.specs.Steps.{above_of, gap_of, remark_of};

use source_notes::Notes;
use std::alloc::AllocError;
use word12::Cell;

/// Appends the comments above a cell's line, if there are notes.
pub fn put_above(
    text: &mut Vec<u8>,
    notes: &Option<Notes<'_>>,
    cell: Cell,
) -> Result<(), AllocError>
    ensures { OnOk result (text.new.items ≡ text.old.items ++ note_lines (above_of notes.now cell)) }
{
    match notes {
        Some(notes) => notes.put_above(text, cell),
        None => Ok(()),
    }
}

/// Appends what stands in a cell's comment after its word, if there are notes.
pub fn put_remark(
    text: &mut Vec<u8>,
    notes: &Option<Notes<'_>>,
    cell: Cell,
) -> Result<(), AllocError>
    ensures { OnOk result (text.new.items ≡ text.old.items ++ remark_of notes.now cell) }
{
    match notes {
        Some(notes) => notes.put_remark(text, cell),
        None => Ok(()),
    }
}

/// Appends an empty line where one stands after a cell's.
pub fn put_gap(text: &mut Vec<u8>, notes: &Option<Notes<'_>>, cell: Cell) -> Result<(), AllocError>
    ensures { OnOk result (text.new.items ≡ text.old.items
        ++ (if gap_of notes.now cell then line_end else [])) }
{
    if has_gap(notes, cell) {
        text.extend_from_slice(b"\r\n")?;
    }
    Ok(())
}

/// Whether an empty line stands after a cell's.
fn has_gap(notes: &Option<Notes<'_>>, cell: Cell) -> bool
    ensures { result ≡ gap_of notes.now cell }
{
    match notes {
        Some(notes) => notes.has_gap(cell),
        None => false,
    }
}
