//! How a place and a line with its mark are shown.
ghost use Rattle.std.specs.Prelude.{◌≡◌, ◌++◌, decimal, OnOk};
ghost use Rattle.source_places.specs.Showing.{place_text, with_caret, marked_line};

use crate::Place;
use crate::places::first_bytes;
use crate::showing::{put_below, shown_line};
use shown_text::put_shown;
use std::alloc::{AllocError, Global};

/// Puts `NAME:LINE:COLUMN: `: the name of a source, and the line and the column of a place of it, each from 1. The name is shown with escapes
/// where it isn't graphic. They stand so before a fault (this project's profile).
pub fn put_place(text: &mut Vec<u8>, name: &str, place: Place) -> Result<(), AllocError>
    ensures { OnOk result (text.new.items ≡ text.old.items ++ place_text name.now place) }
{
    put_shown(text, name.as_bytes())?;
    text.extend_from_slice(b":")?;
    put_number(text, place.line as u64)?;
    text.extend_from_slice(b":")?;
    put_number(text, place.column as u64)?;
    text.extend_from_slice(b": ")?;
    Ok(())
}

/// Puts the line of a source that has a place, and a caret below the column of the place, in a line of its own. A byte of the line that is
/// neither printable ASCII nor a tab is shown as `?`, and no CR (this project's profile).
pub fn put_marked_line(
    alloc: Global,
    text: &mut Vec<u8>,
    source: &[u8],
    place: Place,
) -> Result<(), AllocError>
    ensures { OnOk result (text.new.items ≡ text.old.items ++ marked_line source.now place) }
{
    let line = shown_line(alloc, source, place.line)?;
    put_caret(text, &line, place.column)
}

/// Puts a line with a caret below a column of it, from 1.
fn put_caret(text: &mut Vec<u8>, line: &[u8], column: usize) -> Result<(), AllocError>
    ensures { OnOk result (text.new.items ≡ text.old.items ++ with_caret line.now column) }
{
    text.extend_from_slice(line)?;
    text.extend_from_slice(b"\n")?;
    put_below(text, first_bytes(line, column.saturating_sub(1)))?;
    text.extend_from_slice(b"^\n")?;
    Ok(())
}

/// Puts a number in decimal, without leading zeros.
pub fn put_number(text: &mut Vec<u8>, number: u64) -> Result<(), AllocError>
    ensures { OnOk result (text.new.items ≡ text.old.items ++ decimal number) }
{
    let mut digits = itoa::Buffer::new();
    text.extend_from_slice(digits.format(number).as_bytes())?;
    Ok(())
}
