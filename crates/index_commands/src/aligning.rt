//! A text whose columns line up.
ghost use Rattle.std.specs.Prelude.{◌≡◌, ◌++◌, IfOk, OnOk, replicate};
ghost use Rattle.index_commands.specs.TextColumns.{gap, text_of_byte, with_columns};

use crate::places::{TAB, cells_after, places_after};
use std::alloc::{AllocError, Global};

/// A text in which each tab is replaced by blanks: up to the width of its column, given in places of a terminal, and two more. A column
/// without a width has 0. A byte that goes on a character of UTF-8 takes no place. Linear in the bytes of the answer. Where a growth is
/// refused the answer is that error (this project's profile).
pub(crate) fn align(alloc: Global, text: &[u8], widths: &[usize]) -> Result<Vec<u8>, AllocError>
    ensures { IfOk result (λ lines. lines.items ≡ with_columns widths.now text.now) }
{
    let mut lines = Vec::new(alloc);
    let mut cells = 0;
    let mut places = 0;
    for byte in text {
        put_byte(&mut lines, widths, cells, places, *byte)?;
        cells = cells_after(cells, *byte);
        places = places_after(places, *byte);
    }
    Ok(lines)
}

/// Appends a byte, or the blanks of a tab, after so many cells of its line and so many places of its cell.
fn put_byte(
    lines: &mut Vec<u8>,
    widths: &[usize],
    cells: usize,
    places: usize,
    byte: u8,
) -> Result<(), AllocError>
    ensures { OnOk result (lines.new.items ≡ lines.old.items ++ text_of_byte widths.now cells places byte) }
{
    if byte == TAB {
        return put_gap(lines, widths, cells, places);
    }
    lines.push(byte)?;
    Ok(())
}

/// Appends the blanks after a cell of so many places.
fn put_gap(
    lines: &mut Vec<u8>,
    widths: &[usize],
    cells: usize,
    places: usize,
) -> Result<(), AllocError>
    ensures { OnOk result (lines.new.items ≡ lines.old.items ++ gap widths.now cells places) }
{
    let width = match widths.get(cells) {
        Some(width) => *width,
        None => 0,
    };
    put_blanks(lines, width.saturating_sub(places))?;
    lines.extend_from_slice(b"  ")?;
    Ok(())
}

/// Appends so many blanks.
fn put_blanks(lines: &mut Vec<u8>, count: usize) -> Result<(), AllocError>
    ensures { OnOk result (lines.new.items ≡ lines.old.items ++ replicate count 0o40) }
{
    for _ in 0..count {
        lines.push(b' ')?;
    }
    Ok(())
}
