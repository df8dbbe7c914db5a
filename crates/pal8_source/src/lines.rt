ghost use Rattle.std.specs.Prelude.{◌≡◌, ◌++◌, ℕ, IfOk, OnOk, Some, if◌then◌else◌};
ghost use Rattle.word12.specs.declared.sizes.TheConstants.{CORE};
ghost use Rattle.flow8.specs.Flow.{word_in};
ghost use Rattle.tape_source.specs.Lines.{line_end, tag_part, with_lead};
ghost use Rattle.pal8_source.specs.Lines.{cell_lines, has_literal, is_written, rest_after, lines_below, lines_unless, lines_with, literal_part, opening, statement_part, value, word_line, word_lines};
ghost use Rattle.pal8_source.specs.Sheets as spec;
ghost use Rattle.pal8_source.specs.Steps.{IsText, quoted_line, sheet_of};
ghost use Rattle.pal8_source.specs.Texts.{text_size};
ghost use Rattle.pal8_source.specs.declared.texts.Text.{Text};

use crate::places::put_heading;
use crate::sheets::Sheet;
use crate::texts::{Text, text_at};
use flow8::referred_cell;
use source_notes::is_reference;
use std::alloc::{AllocError, Global};
use tape_source::{
    Tags, operation_name, put_above, put_comment, put_datum, put_gap, put_indirection, put_piece,
    put_remark, put_statement, put_tag,
};
use word12::{CORE, Cell, PAGE, Word};

/// How far the lines of a source are: the newest cell whose word stands in it, and how many cells from here on stand in its TEXT.
#[derive(Clone, Copy)]
struct Reached {
    before: Option<Cell>,
    rest: usize,
}

/// The lines of all cells, by rising cell.
pub fn lines_of(alloc: Global, sheet: &Sheet<'_>) -> Result<Vec<u8>, AllocError>
    ensures { IfOk result (λ text. text.items ≡ lines_below (sheet_of sheet.now) CORE) }
{
    let mut text = Vec::new(alloc);
    let mut reached = Reached {
        before: None,
        rest: 0,
    };
    for number in 0u32..CORE as u32 {
        reached = put_next(alloc, &mut text, sheet, reached, Cell::of(number))?;
    }
    Ok(text)
}

/// Appends the lines of a cell, if it has a word that stands in the source, and answers how far they are.
fn put_next(
    alloc: Global,
    text: &mut Vec<u8>,
    sheet: &Sheet<'_>,
    reached: Reached,
    cell: Cell,
) -> Result<Reached, AllocError>
    ensures text { OnOk result (text.new.items ≡ text.old.items ++ lines_unless reached.rest
        (cell_lines (sheet_of sheet.now) reached.before cell (word_in sheet.now.words cell))) }
    ensures before { IfOk result (λ next. next.before
        ≡ (if is_written (sheet_of sheet.now) cell then Some cell else reached.before)) }
    ensures rest { IfOk result (λ next. next.rest ≡ rest_after reached.rest (text_size (sheet_of sheet.now) cell)) }
{
    let before = newest(sheet, reached.before, cell);
    if reached.rest > 0 {
        let rest = reached.rest - 1;
        return Ok(Reached { before, rest });
    }
    let found = text_at(alloc, sheet, cell)?;
    put_cell(text, sheet, reached.before, cell, &found)?;
    let rest = rest_in(&found);
    Ok(Reached { before, rest })
}

/// The newest cell whose word stands in the source, after a cell.
fn newest(sheet: &Sheet<'_>, before: Option<Cell>, cell: Cell) -> Option<Cell>
    ensures { result ≡ (if is_written (sheet_of sheet.now) cell then Some cell else before) }
{
    if sheet.words[cell.index()].is_some() && !sheet.pools[cell.index()] {
        return Some(cell);
    }
    before
}

/// How many cells a text has after its first.
fn rest_in(found: &Option<Text>) -> usize
    ensures { (cell : ℕ) (s : spec.Sheet) → IsText s cell found.now → result ≡ rest_after 0 (text_size s cell) }
{
    match found {
        Some(found) => found.size.saturating_sub(1),
        None => 0,
    }
}

/// Appends the lines of a cell, if it has a word that stands in the source, with the text that begins there, if one does.
fn put_cell(
    text: &mut Vec<u8>,
    sheet: &Sheet<'_>,
    before: Option<Cell>,
    cell: Cell,
    found: &Option<Text>,
) -> Result<(), AllocError>
    requires { IsText (sheet_of sheet.now) cell found.now }
    ensures { OnOk result (text.new.items ≡ text.old.items
        ++ cell_lines (sheet_of sheet.now) before cell (word_in sheet.now.words cell)) }
{
    let Some(word) = sheet.words[cell.index()] else {
        return Ok(());
    };
    if sheet.pools[cell.index()] {
        return Ok(());
    }
    put_lines(text, sheet, before, cell, word, found)
}

/// Appends the lines of a word, or of the text that begins with it.
fn put_lines(
    text: &mut Vec<u8>,
    sheet: &Sheet<'_>,
    before: Option<Cell>,
    cell: Cell,
    word: Word,
    found: &Option<Text>,
) -> Result<(), AllocError>
    requires { IsText (sheet_of sheet.now) cell found.now }
    ensures { OnOk result (text.new.items ≡ text.old.items
        ++ lines_with (sheet_of sheet.now) before cell word (text_size (sheet_of sheet.now) cell)) }
{
    put_heading(text, before, cell)?;
    match found {
        Some(found) => put_text(text, found, cell, word)?,
        None => put_word_lines(text, sheet, cell, word)?,
    }
    Ok(())
}

/// Appends the line of words that stand as one TEXT.
fn put_text(text: &mut Vec<u8>, found: &Text, cell: Cell, word: Word) -> Result<(), AllocError>
    ensures { OnOk result (text.new.items ≡ text.old.items
        ++ quoted_line found.now.mark found.now.characters.items cell word) }
{
    text.extend_from_slice(b"\tTEXT ")?;
    text.push(found.mark)?;
    text.extend_from_slice(&found.characters)?;
    text.push(found.mark)?;
    put_comment(text, cell, word)?;
    text.extend_from_slice(b"\r\n")?;
    Ok(())
}

/// Appends the comments above a cell's line, the line, and an empty one where one stands after it.
fn put_word_lines(
    text: &mut Vec<u8>,
    sheet: &Sheet<'_>,
    cell: Cell,
    word: Word,
) -> Result<(), AllocError>
    ensures { OnOk result (text.new.items ≡ text.old.items ++ word_lines (sheet_of sheet.now) cell word) }
{
    put_above(text, sheet.notes, cell)?;
    put_word(text, sheet, cell, word)?;
    put_gap(text, sheet.notes, cell)?;
    Ok(())
}

/// Appends a cell's tag, if it has one, the statement, and a comment.
fn put_word(text: &mut Vec<u8>, sheet: &Sheet<'_>, cell: Cell, word: Word) -> Result<(), AllocError>
    ensures { OnOk result (text.new.items ≡ text.old.items ++ word_line (sheet_of sheet.now) cell word) }
{
    put_head(text, sheet, cell, word)?;
    put_comment(text, cell, word)?;
    put_tail(text, sheet, cell)?;
    Ok(())
}

/// Appends a cell's tag, if it has one, and the statement of its word.
fn put_head(text: &mut Vec<u8>, sheet: &Sheet<'_>, cell: Cell, word: Word) -> Result<(), AllocError>
    ensures { OnOk result (text.new.items ≡ text.old.items
        ++ (tag_part (sheet_of sheet.now).look.name (sheet_of sheet.now).is_tagged cell ++ statement_part (sheet_of sheet.now) cell word)) }
{
    let tags = Tags {
        flags: sheet.flags,
        names: sheet.names,
    };
    put_tag(text, &tags, cell)?;
    put_statement_part(text, sheet, &tags, cell, word)?;
    Ok(())
}

/// Appends what stands in a cell's comment after its word, and the line's end.
fn put_tail(text: &mut Vec<u8>, sheet: &Sheet<'_>, cell: Cell) -> Result<(), AllocError>
    ensures { OnOk result (text.new.items ≡ text.old.items ++ ((sheet_of sheet.now).look.remark cell ++ line_end)) }
{
    put_remark(text, sheet.notes, cell)?;
    text.extend_from_slice(b"\r\n")?;
    Ok(())
}

/// Appends the statement of a word, after a tab: by a literal where it refers to a cell of a pool.
fn put_statement_part(
    text: &mut Vec<u8>,
    sheet: &Sheet<'_>,
    tags: &Tags<'_>,
    cell: Cell,
    word: Word,
) -> Result<(), AllocError>
    requires flags { tags.now.flags.now ≡ sheet.now.flags }
    requires names { tags.now.names.now ≡ sheet.now.names }
    ensures { OnOk result (text.new.items ≡ text.old.items ++ statement_part (sheet_of sheet.now) cell word) }
{
    if has_literal(sheet, cell, word) {
        return put_literal(text, sheet, tags, referred_cell(cell, word), word);
    }
    put_statement(text, sheet.code, tags, cell, word)
}

/// Whether the word in a cell is an instruction that refers to a cell of a pool.
fn has_literal(sheet: &Sheet<'_>, cell: Cell, word: Word) -> bool
    ensures { result ≡ has_literal (sheet_of sheet.now) cell word }
{
    sheet.code[cell.index()]
        && is_reference(cell.address(), word)
        && sheet.pools[referred_cell(cell, word).index()]
}

/// Appends a memory reference to a cell of a pool: the operation, `I` where the word is indirect, and the literal.
fn put_literal(
    text: &mut Vec<u8>,
    sheet: &Sheet<'_>,
    tags: &Tags<'_>,
    named: Cell,
    word: Word,
) -> Result<(), AllocError>
    requires flags { tags.now.flags.now ≡ sheet.now.flags }
    requires names { tags.now.names.now ≡ sheet.now.names }
    ensures { OnOk result (text.new.items ≡ text.old.items ++ literal_part (sheet_of sheet.now) named word) }
{
    put_piece(text, b'\t', &operation_name(word))?;
    put_indirection(text, word)?;
    text.push(b' ')?;
    put_value(text, sheet, tags, named)?;
    Ok(())
}

/// Appends a literal: `[` for page zero, else `(`, and its value.
fn put_value(
    text: &mut Vec<u8>,
    sheet: &Sheet<'_>,
    tags: &Tags<'_>,
    named: Cell,
) -> Result<(), AllocError>
    requires flags { tags.now.flags.now ≡ sheet.now.flags }
    requires names { tags.now.names.now ≡ sheet.now.names }
    ensures { OnOk result (text.new.items ≡ text.old.items ++ with_lead (opening named) (value (sheet_of sheet.now) named (word_in sheet.now.words named))) }
{
    let Some(word) = sheet.words[named.index()] else {
        return Ok(());
    };
    if sheet.has_starts {
        return put_datum(text, opening(named), tags, named, word);
    }
    put_piece(text, opening(named), &word.octal4())
}

/// `[` for page zero, else `(`.
fn opening(cell: Cell) -> u8
    ensures { result ≡ opening cell }
{
    if cell.address().get() < PAGE {
        return b'[';
    }
    b'('
}
