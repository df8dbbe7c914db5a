//! Where a tape's program begins.
ghost use Rattle.std.specs.Prelude.{◌≡◌, ℕ, ◌||◌, List, ◌++◌};
ghost use Rattle.bin_tape.specs.Items.{Item, words_of};
ghost use Rattle.bin_tape.specs.Tape.{IsTape};
ghost use Rattle.bin_tape.specs.Reading.{words_in};
ghost use Rattle.tape_reports.specs.Starts.{first_cell, gives_word, start_cell};

use bin_tape::laws::handed_words;
use bin_tape::{Tape, TapeFault, TapeReader};
use word12::{Cell, Word};

/// Where programs mostly begin.
const USUAL: u16 = 0o200;

/// The cell at which a tape's program is started where nothing else is said (this project's profile). It is 00200 if the tape gives
/// it a word, else the cell of its first word; none where it gives none. Of frames that are no tape nothing is claimed.
pub fn start_cell(frames: &[u8]) -> Option<Cell>
    ensures { (items : List Item) → IsTape frames.now items → result ≡ start_cell (words_of items) }
{
    let usual = Cell::at(0, Word::low(USUAL));
    if gives_word(frames, usual) {
        return Some(usual);
    }
    first_cell(frames)
}

/// Whether a tape gives a cell a word. Of frames that are no tape nothing is claimed.
pub fn gives_word(frames: &[u8], cell: Cell) -> bool
    ensures { (items : List Item) → IsTape frames.now items
        → result ≡ gives_word (words_of items) cell }
{
    handed_words();
    let mut reader = TapeReader::new();
    let mut is_given = false;
    for frame in frames {
        is_given = is_given_after(is_given, reader.push(*frame), cell);
    }
    is_given
}

/// Whether a cell has a word after one more frame.
fn is_given_after(is_given: bool, came: Result<Tape, TapeFault>, cell: Cell) -> bool
    ensures { (out : List (ℕ × ℕ)) → is_given ≡ gives_word out cell
        → result ≡ gives_word (out ++ words_in came) cell }
{
    is_given || is_word_of(came, cell)
}

/// Whether what came is a word of a cell.
fn is_word_of(came: Result<Tape, TapeFault>, cell: Cell) -> bool
    ensures { result ≡ gives_word (words_in came) cell }
{
    match came {
        Ok(tape) => match tape.word() {
            Some((other, _)) => other == cell,
            None => false,
        },
        Err(_) => false,
    }
}

/// The cell of the first word that a tape gives (this project's profile: a program begins there where nothing else is said). There
/// is none where it gives none, as one of an origin and a check sum alone. Of frames that are no tape nothing is claimed.
pub fn first_cell(frames: &[u8]) -> Option<Cell>
    ensures { (items : List Item) → IsTape frames.now items → result ≡ first_cell (words_of items) }
{
    handed_words();
    let mut reader = TapeReader::new();
    let mut first = None;
    for frame in frames {
        first = first_after(first, reader.push(*frame));
    }
    first
}

/// The cell of the first word after one more frame.
fn first_after(first: Option<Cell>, came: Result<Tape, TapeFault>) -> Option<Cell>
    ensures { (out : List (ℕ × ℕ)) → first ≡ first_cell out → result ≡ first_cell (out ++ words_in came) }
{
    if first.is_some() {
        return first;
    }
    match came {
        Ok(tape) => match tape.word() {
            Some((cell, _)) => Some(cell),
            None => None,
        },
        Err(_) => None,
    }
}
