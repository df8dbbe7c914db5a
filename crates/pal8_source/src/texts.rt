ghost use Rattle.std.specs.Prelude.{◌≡◌, ◌+◌, ◌<◌, ◌≤◌, ◌++◌, IfOk, OnOk, not};
ghost use Rattle.word12.specs.declared.sizes.TheConstants.{CORE};
ghost use Rattle.pal8_source.specs.Steps.{IsText, IsTextOf, ends_text, sheet_of};
ghost use Rattle.pal8_source.specs.Texts.{character, characters, delimiters, first_absent, goes_on, is_among, is_first, length_from, size_from};

use crate::sheets::Sheet;
use std::alloc::{AllocError, Global};
use word12::{Cell, FIELD};

/// The fewest words of a text.
const FEWEST: usize = 3;

/// What can stand at both ends of a text, the first that isn't in it.
const DELIMITERS: &[u8] = b"/\"'.ABCDEFGHIJKLMNOPQRSTUVWXYZ";

/// The characters of words that stand as one TEXT.
#[derive(Drop)]
pub struct Text {
    pub characters: Vec<u8>,
    pub mark: u8,
    pub size: usize,
}

/// The text that begins at a cell, if one does.
pub fn text_at(alloc: Global, sheet: &Sheet<'_>, cell: Cell) -> Result<Option<Text>, AllocError>
    ensures { IfOk result (IsText (sheet_of sheet.now) cell) }
{
    if is_first(sheet, cell) {
        return text_from(alloc, sheet, cell);
    }
    Ok(None)
}

/// Whether a text can begin at a cell: none can go on from the cell before.
fn is_first(sheet: &Sheet<'_>, cell: Cell) -> bool
    ensures { result ≡ is_first (sheet_of sheet.now) cell }
{
    if cell.address().get() == 0 {
        return true;
    }
    breaks_off(sheet, Cell::of(cell.index() as u32 - 1))
}

/// The text of the words from a cell on, if they are one.
fn text_from(alloc: Global, sheet: &Sheet<'_>, cell: Cell) -> Result<Option<Text>, AllocError>
    ensures { IfOk result (IsTextOf (sheet_of sheet.now) cell (size_from (sheet_of sheet.now) cell)) }
{
    let most = FIELD as usize - cell.address().get() as usize;
    let size = length_from(sheet, cell.index(), most);
    if size < FEWEST {
        return Ok(None);
    }
    let characters = characters(alloc, sheet, cell.index(), size)?;
    match mark_of(&characters) {
        Some(mark) => Ok(Some(Text {
            characters,
            mark,
            size,
        })),
        None => Ok(None),
    }
}

/// How many words a text has that begins at a cell, and has so many at most, or 0.
fn length_from(sheet: &Sheet<'_>, first: usize, most: usize) -> usize
    requires { first + most ≤ CORE }
    ensures value { result ≡ length_from (sheet_of sheet.now) first most }
    ensures range { result ≤ most }
{
    for count in 0..most {
        let cell = Cell::of((first + count) as u32);
        if ends_text(sheet, cell) {
            return count + 1;
        }
        if breaks_off(sheet, cell) {
            return 0;
        }
    }
    0
}

/// Whether a text that has come to a cell ends with its word.
fn ends_text(sheet: &Sheet<'_>, cell: Cell) -> bool
    ensures { result ≡ ends_text (sheet_of sheet.now) cell }
{
    sheet.is_datum(cell) && sheet.number(cell) % 0o100 == 0
}

/// Whether it doesn't go on after that.
fn breaks_off(sheet: &Sheet<'_>, cell: Cell) -> bool
    ensures { result ≡ not (goes_on (sheet_of sheet.now) cell) }
{
    !(sheet.is_datum(cell) && sheet.number(cell) % 0o100 != 0 && sheet.number(cell) / 0o100 != 0)
}

/// The characters of so many words.
fn characters(
    alloc: Global,
    sheet: &Sheet<'_>,
    first: usize,
    count: usize,
) -> Result<Vec<u8>, AllocError>
    requires { first + count ≤ CORE }
    ensures { IfOk result (λ text. text.items ≡ characters (sheet_of sheet.now) first count) }
{
    let mut text = Vec::with_capacity(alloc, 2 * count)?;
    for k in 0..count {
        let number = sheet.number(Cell::of((first + k) as u32));
        put_character(&mut text, number / 0o100)?;
        put_character(&mut text, number % 0o100)?;
    }
    Ok(text)
}

/// Appends the character of six bits, if they aren't 00.
fn put_character(text: &mut Vec<u8>, half: u16) -> Result<(), AllocError>
    requires { half < 0o100 }
    ensures { OnOk result (text.new.items ≡ text.old.items ++ character half) }
{
    if half == 0 {
        return Ok(());
    }
    let character = if half < 0o40 { 0o100 + half } else { half };
    text.push(character as u8)?;
    Ok(())
}

/// What stands at both ends of a text.
#[tactic(auto, unfolding(crate::specs::Texts::delimiters))]
fn mark_of(text: &[u8]) -> Option<u8>
    ensures { result ≡ first_absent delimiters text.now }
{
    first_absent(DELIMITERS, text)
}

/// The first of these that doesn't stand in a text.
fn first_absent(list: &[u8], text: &[u8]) -> Option<u8>
    ensures { result ≡ first_absent list.now text.now }
{
    let mut rest = list;
    while let [byte, others @ ..] = rest {
        if !is_among(*byte, text) {
            return Some(*byte);
        }
        rest = others;
    }
    None
}

fn is_among(byte: u8, text: &[u8]) -> bool
    ensures { result ≡ is_among byte text.now }
{
    let mut rest = text;
    while let [other, others @ ..] = rest {
        if *other == byte {
            return true;
        }
        rest = others;
    }
    false
}
