//! The words of a transfer.

ghost use Rattle.std.specs.Prelude.{◌≡◌, ◌<◌, slice_index, slice_set};
ghost use Rattle.rk8e.specs.Transfer.{core_read, word_written, words_written};

use crate::SECTOR;
use crate::controls::Control;
use core_load::Core;
use word12::Word;

/// Gives the cells of a transfer the words of its sector.
pub(crate) fn read_words(control: &Control, words: &[Word], core: &mut Core)
    ensures { core.new ≡ core_read control.now words.now core.old }
{
    let first = SECTOR * control.sector();
    for k in 0..control.words_moved() {
        let word = word_at(words, first + usize::from(k));
        core.set(control.cell(k), word);
    }
}

/// Gives the sector of a transfer the words of its cells.
pub(crate) fn write_words(control: &Control, core: &Core, words: &mut [Word])
    ensures { words.new ≡ words_written control.now core.now words.old }
{
    let first = SECTOR * control.sector();
    for k in 0..256u16 {
        let word = written_word(control, core, k);
        set_word(words, first + usize::from(k), word);
    }
}

/// A word of the sector that is written.
fn written_word(control: &Control, core: &Core, k: u16) -> Word
    ensures { result ≡ word_written control.now core.now k }
{
    if k < control.words_moved() {
        core.get(control.cell(k))
    } else {
        Word::ZERO
    }
}

/// The word of this index; past the end that is 0.
fn word_at(words: &[Word], index: usize) -> Word
    ensures value { result ≡ slice_index words.now index }
    ensures range { result < 0o10000 }
{
    if index < words.len() {
        let word = words[index];
        let _number = word.get();
        word
    } else {
        Word::ZERO
    }
}

/// Gives the word of this index, if there is one.
fn set_word(words: &mut [Word], index: usize, word: Word)
    ensures { words.new ≡ slice_set words.old index word }
{
    if index < words.len() {
        words[index] = word;
    }
}
