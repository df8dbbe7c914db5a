//! Whether AC is clear at a call, as far as the words before it say.

ghost use Rattle.std.specs.Prelude.{◌≡◌, ◌/◌, length};
ghost use Rattle.word12.specs.declared.sizes.TheConstants.{CORE};
ghost use Rattle.flow8.specs.Flow.{word_in};
ghost use Rattle.pointer_flow.specs.Calls.{changes_fields, clears_ac, is_ac_clear, is_clear_by};

use crate::cells::{cell_before, word_at};
use cpu8::decoding::{CLA, CMA, GROUP_2_OR_3, GROUP_3, HLT, OSR, RAL, RAR, has};
use word12::{Cell, Word};

/// How many words are looked at: four may change fields.
const MOST_WORDS: u8 = 5;

/// Whether AC is 0 before the instruction of a cell, as the words before it show.
pub(crate) fn is_ac_clear(words: &[Option<Word>], cell: Cell) -> bool
    requires { length words.now ≡ CORE }
    ensures { result ≡ is_ac_clear (word_in words.now) cell }
{
    is_clear_by(words, MOST_WORDS, cell)
}

/// The same by one of so many words before the cell.
fn is_clear_by(words: &[Option<Word>], count: u8, cell: Cell) -> bool
    requires { length words.now ≡ CORE }
    ensures { result ≡ is_clear_by (word_in words.now) count cell }
{
    if count == 0 {
        return false;
    }
    let before = cell_before(cell);
    let Some(word) = word_at(words, before) else {
        return false;
    };
    if changes_fields(word) {
        return is_clear_by(words, count - 1, before);
    }
    clears_ac(word)
}

/// Whether a word is CDF, CIF or both (Small Computer Handbook).
pub(crate) fn changes_fields(word: Word) -> bool
    ensures { result ≡ changes_fields word }
{
    let pulses = word.get() % 0o10;
    word.get() / 0o100 == 0o62 && (0 < pulses && pulses < 4)
}

/// Whether AC is 0 after an instruction of this word, whatever it was before.
fn clears_ac(word: Word) -> bool
    ensures { result ≡ clears_ac word }
{
    match word.get() / 0o1000 {
        3 => true,
        7 => does_operate_clear(word),
        _ => false,
    }
}

fn does_operate_clear(word: Word) -> bool
    requires { word / 0o1000 ≡ 7 }
    ensures { result ≡ clears_ac word }
{
    if !has(word, GROUP_2_OR_3) {
        let is_changed = has(word, CMA)
            || (has(word, RAR) || (has(word, RAL) || word.get() % 2 == 1));
        return has(word, CLA) && !is_changed;
    }
    if has(word, GROUP_3) {
        return false;
    }
    has(word, CLA) && !(has(word, OSR) || has(word, HLT))
}
