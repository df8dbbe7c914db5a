//! What a text gives each cell, beside what a tape gives it.
ghost use Rattle.std.specs.Prelude.{◌≡◌, ℕ, ◌<◌, IfOk, MatchOption, OnOk, length, vec_len};
ghost use Rattle.word12.specs.declared.sizes.TheConstants.{CORE};
ghost use Rattle.bin_tape.specs.Pairs.{ArePairs};
ghost use Rattle.flow8.specs.Flow.{word_in};
ghost use Rattle.pal8_asm.specs.Laws.{meaning};
ghost use Rattle.pal8_source.specs.CheckSteps.{AreSame, DifferAt};

use std::alloc::{AllocError, Global};
use word12::{CORE, Cell, Word};

/// The word that pairs give each cell, which is that of the last of them there.
pub fn given_words(alloc: Global, pairs: &[(Cell, Word)]) -> Result<Vec<Option<Word>>, AllocError>
    ensures size { IfOk result (λ words. vec_len words ≡ CORE) }
    ensures words { IfOk result (λ words. (cell : ℕ) → word_in words.items cell ≡ meaning pairs.now cell) }
    ensures pairs { OnOk result (ArePairs pairs.now) }
{
    let mut words = no_words(alloc, CORE)?;
    let mut rest = pairs;
    while let [(cell, word), others @ ..] = rest {
        let _number = word.get();
        words[cell.index()] = Some(*word);
        rest = others;
    }
    Ok(words)
}

/// No word for each of so many cells.
fn no_words(alloc: Global, count: usize) -> Result<Vec<Option<Word>>, AllocError>
    ensures size { IfOk result (λ words. vec_len words ≡ count) }
    ensures none { IfOk result (λ words. (cell : ℕ) → word_in words.items cell ≡ None) }
{
    let words = vec![in alloc; None; count]?;
    Ok(words)
}

/// The lowest cell for which two tables of words differ.
pub fn first_difference(these: &[Option<Word>], those: &[Option<Word>]) -> Option<Cell>
    requires these { length these.now ≡ CORE }
    requires those { length those.now ≡ CORE }
    ensures { MatchOption result (AreSame these.now those.now) (DifferAt these.now those.now) }
{
    for number in 0u32..CORE as u32 {
        let cell = Cell::of(number);
        if these[cell.index()] != those[cell.index()] {
            return Some(cell);
        }
    }
    None
}
