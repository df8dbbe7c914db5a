ghost use Rattle.std.specs.Prelude.{◌≡◌, ◌++◌, ◌≤◌, ◌%◌, ◌&&◌, nat_eq, not, if◌then◌else◌, OnOk, []};
ghost use Rattle.word12.specs.declared.sizes.TheConstants.{FIELD};
ghost use Rattle.bin_tape.specs.Writing.{is_next};
ghost use Rattle.pal8_source.specs.Lines.{heading, location, next_page, place_line};

use std::alloc::AllocError;
use tape_source::{is_next, put_field, put_origin};
use word12::{Cell, PAGE};

/// Appends the field where it changes, and where words go where the cell isn't the next.
pub fn put_heading(text: &mut Vec<u8>, before: Option<Cell>, cell: Cell) -> Result<(), AllocError>
    ensures { OnOk result (text.new.items ≡ text.old.items ++ heading before cell) }
{
    let again = before;
    put_field(text, before, cell)?;
    put_place(text, again, cell)?;
    Ok(())
}

/// Appends where words go where the cell isn't the next: `PAGE` where that says the same, else an origin.
fn put_place(text: &mut Vec<u8>, before: Option<Cell>, cell: Cell) -> Result<(), AllocError>
    ensures { OnOk result (text.new.items ≡ text.old.items
        ++ (if is_next before cell then [] else place_line before cell)) }
{
    let again = before;
    if says_page(before, cell) {
        text.extend_from_slice(b"PAGE\r\n")?;
        return Ok(());
    }
    put_origin(text, again, cell)
}

/// Whether a cell isn't the next, and `PAGE` leads to it.
fn says_page(before: Option<Cell>, cell: Cell) -> bool
    ensures { result ≡ (not (is_next before cell)
        && nat_eq (next_page (location before cell)) (cell % FIELD)) }
{
    let again = before;
    !is_next(before, cell) && next_page(location(again, cell)) == cell.address().get()
}

/// The location after a word for the cell before, in the field of a cell: 0200 where that begins.
fn location(before: Option<Cell>, cell: Cell) -> u16
    ensures value { result ≡ location before cell }
    ensures range { result ≤ FIELD }
{
    match before {
        Some(before) if before.field() == cell.field() => before.address().get() + 1,
        _ => 0o200,
    }
}

/// The first place of a page at a location or after it.
fn next_page(location: u16) -> u16
    requires { location ≤ FIELD }
    ensures { result ≡ next_page location }
{
    PAGE * ((location + (PAGE - 1)) / PAGE)
}
