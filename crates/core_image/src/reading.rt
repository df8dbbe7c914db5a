ghost use Rattle.std.specs.Prelude.{◌≡◌, ℕ, ◌+◌, ◌≤◌, ◌++◌, length, MatchResult, OnOk};
ghost use Rattle.word12.specs.declared.sizes.TheConstants.{CORE};
ghost use Rattle.core_image.specs.Segments.{words_from};
ghost use Rattle.core_image.specs.Image.{HasHead, IsImage, count_of};
ghost use Rattle.core_image.specs.Fault.{IsFault, IsSomeImage};
ghost use Rattle.core_image.specs.ReadSteps.{HasKept, HasReadSome};

use crate::CoreFault;
use crate::segments::{blocks, field, pages, segment_at, segment_count};
use std::alloc::{AllocError, Global};
use word12::{BLOCK, Cell, PAGE, Word};

/// What a core image gives.
#[derive(Drop)]
pub struct CoreImage {
    /// The words of its segments with their cells, in the order of the file.
    pub pairs: Vec<(Cell, Word)>,

    /// The cell where its program starts.
    pub start: Cell,

    /// The job status word.
    pub status: Word,
}

/// Reads the words of a file as a core image (this project's reading of the OS/8 Software Support Manual). What stands after the last
/// segment means nothing. Where a word is refused, the answer is the fault of the first such word.
///
/// No memory is asked for before the words are known to be an image.
pub fn read(alloc: Global, words: &[Word]) -> Result<CoreImage, CoreFault>
    ensures { MatchResult result (λ image. IsImage words.now image.pairs.items image.start image.status)
        (λ fault. IsFault words.now fault) }
{
    let count = segment_count(words)?;
    judge(words, count)?;
    let pairs = pairs_of(alloc, words, count)?;
    Ok(CoreImage {
        pairs,
        start: Cell::at(field(words[1]), words[2]),
        status: words[3],
    })
}

/// Reads so many segments, and keeps nothing of them.
fn judge(words: &[Word], count: usize) -> Result<(), CoreFault>
    requires head { HasHead words.now }
    requires count { count ≡ count_of words.now }
    requires most { count ≤ 126 }
    ensures { MatchResult result (λ _. IsSomeImage words.now) (λ fault. IsFault words.now fault) }
{
    let mut block = 1;
    for number in 0..count {
        let (_, control) = segment_at(words, number, block)?;
        block += blocks(control);
    }
    Ok(())
}

/// The words of so many segments with their cells.
fn pairs_of(alloc: Global, words: &[Word], count: usize) -> Result<Vec<(Cell, Word)>, CoreFault>
    requires image { IsSomeImage words.now }
    requires count { count ≡ count_of words.now }
    requires most { count ≤ 126 }
    ensures { MatchResult result (λ pairs. (block : ℕ) × HasKept words.now count block pairs.items)
        (λ fault. IsFault words.now fault) }
{
    let mut pairs = Vec::new(alloc);
    let mut block = 1;
    for number in 0..count {
        let (first, control) = segment_at(words, number, block)?;
        let from = BLOCK * block;
        let size = PAGE as usize * pages(control);
        put_words(
            &mut pairs,
            Cell::at(field(control), first),
            &words[from..from + size],
        )?;
        block += blocks(control);
    }
    Ok(pairs)
}

/// Puts words for the cells from one on after the others.
fn put_words(pairs: &mut Vec<(Cell, Word)>, first: Cell, words: &[Word]) -> Result<(), AllocError>
    requires { first + length words.now ≤ CORE }
    ensures { OnOk result (pairs.new.items ≡ pairs.old.items ++ words_from first words.now) }
{
    let mut number = first.index() as u32;
    for word in words {
        pairs.push((Cell::of(number), *word))?;
        number += 1;
    }
    Ok(())
}
