ghost use Rattle.std.specs.Prelude.{◌≡◌, ℕ, ◌/◌, ◌++◌, nat_eq, if◌then◌else◌, OnOk, List, [], ◌∷◌, length};
ghost use Rattle.word12.specs.declared.sizes.TheConstants.{CORE, FIELD};
ghost use Rattle.bin_tape.specs.Writing.{next_field, is_next};
ghost use Rattle.tape_source.specs.Looks.{name_or_tag};
ghost use Rattle.tape_source.specs.Steps.{name_by, look_with};
ghost use Rattle.tape_source.specs.Tags.{is_flagged};
ghost use Rattle.tape_source.specs.Lines.{line_end, field_line, origin_line, comment, tag_part, word_line, cell_lines};

use crate::notes::{put_above, put_gap, put_remark};
use crate::statements::put_statement;
use crate::tags::{Tags, put_name};
use source_notes::Notes;
use std::alloc::AllocError;
use word12::{Cell, Word};

/// Appends the lines of a cell's word after a word for the cell before, where these cells hold instructions, these are tagged, and
/// these notes stand beside their words.
pub fn put_cell(
    text: &mut Vec<u8>,
    code: &[bool],
    tags: &Tags<'_>,
    notes: &Option<Notes<'_>>,
    before: Option<Cell>,
    cell: Cell,
    word: Word,
) -> Result<(), AllocError>
    requires code { length code.now ≡ CORE }
    requires tags { length tags.now.flags.now ≡ CORE }
    ensures { OnOk result (text.new.items ≡ text.old.items
        ++ cell_lines (look_with tags.now.names.now notes.now (is_flagged code.now))
        (is_flagged tags.now.flags.now) before cell word) }
{
    let again = before;
    put_field(text, before, cell)?;
    put_origin(text, again, cell)?;
    put_above(text, notes, cell)?;
    put_word(text, code, tags, notes, cell, word)?;
    put_gap(text, notes, cell)?;
    Ok(())
}

/// Appends a field where it changes.
pub fn put_field(text: &mut Vec<u8>, before: Option<Cell>, cell: Cell) -> Result<(), AllocError>
    ensures { OnOk result (text.new.items ≡ text.old.items
        ++ (if nat_eq (cell / FIELD) (next_field before) then [] else field_line cell)) }
{
    let field = cell.field();
    if field == field_after(before) {
        return Ok(());
    }
    text.extend_from_slice(b"FIELD ")?;
    text.extend_from_slice(&[b'0' + field, b'\r', b'\n'])?;
    Ok(())
}

/// Appends an origin where the cell isn't the next.
pub fn put_origin(text: &mut Vec<u8>, before: Option<Cell>, cell: Cell) -> Result<(), AllocError>
    ensures { OnOk result (text.new.items ≡ text.old.items
        ++ (if is_next before cell then [] else origin_line cell)) }
{
    if is_next(before, cell) {
        return Ok(());
    }
    let [a, b, c, d] = cell.address().octal4();
    let line = [b'*', a, b, c, d, b'\r', b'\n'];
    text.extend_from_slice(&line)?;
    Ok(())
}

/// Appends the line of a cell's word: its tag, if it has one, its statement, and a comment with the cell and the word in
/// octal.
fn put_word(
    text: &mut Vec<u8>,
    code: &[bool],
    tags: &Tags<'_>,
    notes: &Option<Notes<'_>>,
    cell: Cell,
    word: Word,
) -> Result<(), AllocError>
    requires code { length code.now ≡ CORE }
    requires tags { length tags.now.flags.now ≡ CORE }
    ensures { OnOk result (text.new.items ≡ text.old.items
        ++ word_line (look_with tags.now.names.now notes.now (is_flagged code.now))
        (is_flagged tags.now.flags.now) cell word) }
{
    put_tag(text, tags, cell)?;
    put_statement(text, code, tags, cell, word)?;
    put_comment(text, cell, word)?;
    put_remark(text, notes, cell)?;
    text.extend_from_slice(b"\r\n")?;
    Ok(())
}

/// Appends a cell's tag and a comma, if it has one.
pub fn put_tag(text: &mut Vec<u8>, tags: &Tags<'_>, cell: Cell) -> Result<(), AllocError>
    requires { length tags.now.flags.now ≡ CORE }
    ensures { OnOk result (text.new.items ≡ text.old.items
        ++ tag_part (name_or_tag (name_by tags.now.names.now)) (is_flagged tags.now.flags.now) cell) }
{
    if tags.flags[cell.index()] {
        put_name(text, tags.names, cell)?;
        text.push(b',')?;
    }
    Ok(())
}

/// Appends a tab, and the comment up to the word.
pub fn put_comment(text: &mut Vec<u8>, cell: Cell, word: Word) -> Result<(), AllocError>
    ensures { OnOk result (text.new.items ≡ text.old.items ++ 0o11 ∷ comment cell word) }
{
    let [field, a, b, c, d] = cell.octal5();
    let [e, f, g, h] = word.octal4();
    let line = [b'\t', b'/', field, a, b, c, d, b' ', e, f, g, h];
    text.extend_from_slice(&line)?;
    Ok(())
}

/// The field that words go to after a word for this cell, or after none.
fn field_after(before: Option<Cell>) -> u8
    ensures { result ≡ next_field before }
{
    match before {
        None => 0,
        Some(before) => before.field(),
    }
}

/// Whether a word for the cell needs no origin after a word for the cell before.
pub fn is_next(before: Option<Cell>, cell: Cell) -> bool
    ensures { result ≡ is_next before cell }
{
    match before {
        None => false,
        Some(before) => {
            cell.field() == before.field() && cell.address().get() == before.address().get() + 1
        }
    }
}
