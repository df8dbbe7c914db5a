//! The text of a profile.

ghost use Rattle.std.specs.Prelude.{◌≡◌, ◌++◌, decimal, IfOk, OnOk, length};
ghost use Rattle.word12.specs.declared.sizes.TheConstants.{CORE};
ghost use Rattle.word12.specs.Octal.{octal5};
ghost use Rattle.profile8.specs.Profile.{IsProfile, count_line, count_lines, is_flagged};

use crate::cells::{count_of, fetched_cells};
use crate::unfetched::put_unfetched;
use std::alloc::{AllocError, Global};
use word12::Cell;

/// The profile of these counts, for a tape that gives the flagged cells a word (this project's profile). There are one count and
/// one flag for each of the 0o100000 cells of core.
///
/// A line for each cell that was fetched, with five octal digits and how often. The most often fetched come first, and of as many
/// the lower first. Then come `NEVER` and the first and the last cell of each run of cells of the tape, in one field, that never
/// were. Where memory is refused the answer is that error.
pub fn profile_text(alloc: Global, counts: &[u64], given: &[bool]) -> Result<Vec<u8>, AllocError>
    requires counts { length counts.now ≡ CORE }
    requires given { length given.now ≡ CORE }
    ensures { IfOk result (λ text. IsProfile counts.now (is_flagged given.now) text.items) }
{
    let cells = fetched_cells(alloc, counts)?;
    let mut text = Vec::new(alloc);
    put_counts(&mut text, counts, &cells)?;
    put_unfetched(&mut text, counts, given)?;
    Ok(text)
}

/// Puts the lines of cells.
fn put_counts(text: &mut Vec<u8>, counts: &[u64], cells: &[Cell]) -> Result<(), AllocError>
    ensures { OnOk result (text.new.items ≡ text.old.items ++ count_lines counts.now cells.now) }
{
    let mut rest = cells;
    while let [cell, others @ ..] = rest {
        put_count(text, counts, *cell)?;
        rest = others;
    }
    Ok(())
}

/// Puts the line of a cell.
fn put_count(text: &mut Vec<u8>, counts: &[u64], cell: Cell) -> Result<(), AllocError>
    ensures { OnOk result (text.new.items ≡ text.old.items ++ count_line counts.now cell) }
{
    put_cell(text, cell)?;
    text.extend_from_slice(b" ")?;
    put_number(text, count_of(counts, cell))?;
    text.extend_from_slice(b"\n")?;
    Ok(())
}

/// Puts the five octal digits of a cell.
pub(crate) fn put_cell(text: &mut Vec<u8>, cell: Cell) -> Result<(), AllocError>
    ensures { OnOk result (text.new.items ≡ text.old.items ++ octal5 cell) }
{
    text.extend_from_slice(&cell.octal5())?;
    Ok(())
}

/// Puts a number in decimal, without leading zeros.
fn put_number(text: &mut Vec<u8>, number: u64) -> Result<(), AllocError>
    ensures { OnOk result (text.new.items ≡ text.old.items ++ decimal number) }
{
    let mut digits = itoa::Buffer::new();
    text.extend_from_slice(digits.format(number).as_bytes())?;
    Ok(())
}
