//! A program as lines say it.

use std::alloc::{AllocError, Global};
use word12::{CORE, Cell, Word, octal_cell, octal_word};

/// The words that a tape gives cells, and what is said of cells.
#[derive(Drop)]
pub struct Program {
    /// A word or none for each cell.
    pub words: Vec<Option<Word>>,
    /// A flag for each cell, set where it holds no instruction.
    pub data_flags: Vec<bool>,
    pub starts: Vec<Cell>,
    /// The cells that hold the entry of a handler.
    pub handlers: Vec<Cell>,
}

/// What a line says.
#[derive(Clone, Copy)]
enum Line {
    Word(Cell, Word),
    Datum(Cell),
    Start(Cell),
    Handler(Cell),
}

/// The program that the lines of a text say; none where one of them has another form.
pub fn read_program(alloc: Global, text: &str) -> Result<Option<Program>, AllocError> {
    let mut program = Program {
        words: no_words(alloc, CORE)?,
        data_flags: no_flags(alloc, CORE)?,
        starts: Vec::new(alloc),
        handlers: Vec::new(alloc),
    };
    for line in text.lines() {
        match line_of(line.as_bytes()) {
            Some(line) => add_line(&mut program, line)?,
            None => return Ok(None),
        }
    }
    Ok(Some(program))
}

fn no_words(alloc: Global, count: usize) -> Result<Vec<Option<Word>>, AllocError> {
    let words = vec![in alloc; None; count]?;
    Ok(words)
}

fn no_flags(alloc: Global, count: usize) -> Result<Vec<bool>, AllocError> {
    let flags = vec![in alloc; false; count]?;
    Ok(flags)
}

/// What the bytes of a line say: a letter, and a cell in five octal digits.
fn line_of(bytes: &[u8]) -> Option<Line> {
    let [letter, b' ', number @ ..] = bytes else {
        return None;
    };
    let (digits, rest) = number.split_at(number.len().min(5));
    let cell = octal_cell(digits)?;
    match *letter {
        b'W' => Some(Line::Word(cell, word_after_blank(rest)?)),
        b'D' => Some(Line::Datum(cell)),
        b'S' => Some(Line::Start(cell)),
        b'H' => Some(Line::Handler(cell)),
        _ => None,
    }
}

/// The word of four octal digits after a blank.
fn word_after_blank(bytes: &[u8]) -> Option<Word> {
    match bytes {
        [b' ', digits @ ..] => octal_word(digits),
        _ => None,
    }
}

/// Adds to a program what a line says.
fn add_line(program: &mut Program, line: Line) -> Result<(), AllocError> {
    match line {
        Line::Word(cell, word) => set_word(&mut program.words, cell, word),
        Line::Datum(cell) => set_flag(&mut program.data_flags, cell),
        Line::Start(cell) => program.starts.push(cell)?,
        Line::Handler(cell) => program.handlers.push(cell)?,
    }
    Ok(())
}

fn set_word(words: &mut [Option<Word>], cell: Cell, word: Word) {
    if let Some(place) = words.get_mut(cell.index()) {
        *place = Some(word);
    }
}

fn set_flag(flags: &mut [bool], cell: Cell) {
    if let Some(flag) = flags.get_mut(cell.index()) {
        *flag = true;
    }
}
