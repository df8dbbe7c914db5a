//! The plain source of words.
ghost use Rattle.std.specs.Prelude.{◌≡◌, ◌++◌, IfOk, OnOk, length};
ghost use Rattle.word12.specs.declared.sizes.TheConstants.{CORE};
ghost use Rattle.flow8.specs.Flow.{word_in};
ghost use Rattle.word12.specs.Octal.{octal4};
ghost use Rattle.tape_source.specs.Lines.{field_line, line_end};
ghost use Rattle.pal8_source.specs.Plain.{lines_if, lines_of_word, plain_source};

use std::alloc::{AllocError, Global};
use tape_source::put_origin;
use word12::{CORE, Cell, Word};

/// The plain source of the words of cells, which gives each cell its word by itself, by rising cell (PAL8, in this project's profile).
pub fn plain_source(alloc: Global, words: &[Option<Word>]) -> Result<Vec<u8>, AllocError>
    requires { length words.now ≡ CORE }
    ensures { IfOk result (λ text. text.items ≡ plain_source (word_in words.now)) }
{
    let mut text = Vec::new(alloc);
    for number in 0u32..CORE as u32 {
        put_next(&mut text, Cell::of(number), words[number as usize])?;
    }
    text.extend_from_slice(b"$\r\n")?;
    Ok(text)
}

/// Appends the lines of a cell, if it has a word.
fn put_next(text: &mut Vec<u8>, cell: Cell, word: Option<Word>) -> Result<(), AllocError>
    ensures { OnOk result (text.new.items ≡ text.old.items ++ lines_if cell word) }
{
    match word {
        Some(word) => put_lines(text, cell, word),
        None => Ok(()),
    }
}

/// Appends the lines of a cell with its word.
fn put_lines(text: &mut Vec<u8>, cell: Cell, word: Word) -> Result<(), AllocError>
    ensures { OnOk result (text.new.items ≡ text.old.items ++ lines_of_word cell word) }
{
    put_field(text, cell)?;
    put_origin(text, None, cell)?;
    put_word(text, word)?;
    Ok(())
}

/// Appends the field of a cell.
fn put_field(text: &mut Vec<u8>, cell: Cell) -> Result<(), AllocError>
    ensures { OnOk result (text.new.items ≡ text.old.items ++ field_line cell) }
{
    text.extend_from_slice(b"FIELD ")?;
    text.extend_from_slice(&[b'0' + cell.field(), b'\r', b'\n'])?;
    Ok(())
}

/// Appends the line of a word.
fn put_word(text: &mut Vec<u8>, word: Word) -> Result<(), AllocError>
    ensures { OnOk result (text.new.items ≡ text.old.items ++ (octal4 word ++ line_end)) }
{
    let [a, b, c, d] = word.octal4();
    text.extend_from_slice(&[a, b, c, d, b'\r', b'\n'])?;
    Ok(())
}
