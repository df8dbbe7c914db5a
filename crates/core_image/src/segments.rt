//! The segments that the control block lists.
ghost use Rattle.std.specs.Prelude.{◌≡◌, ◌≢◌, ℕ, ◌+◌, ◌*◌, ◌-◌, ◌<◌, ◌≤◌, length, slice_index, List, MatchResult, IfOk, true, ◌↔◌};
ghost use Rattle.word12.specs.declared.sizes.TheConstants.{BLOCK};
ghost use Rattle.core_image.specs.Segments.{IsControl, blocks_of, field_of, pages_of};
ghost use Rattle.core_image.specs.Image.{HasHead, count_of};
ghost use Rattle.core_image.specs.Fault.{IsFault};
ghost use Rattle.core_image.specs.ReadSteps.{HasReadTo, TellsSegment};

use crate::CoreFault;
use word12::{BLOCK, Cell, FIELD, PAGE, Word};

/// Minus the greatest number of segments that a block has room for, 126.
const MOST: u16 = 0o7602;

/// How many segments the control block lists, 1 to 126.
pub fn segment_count(words: &[Word]) -> Result<usize, CoreFault>
    ensures { MatchResult result
        (λ count. HasHead words.now × (count ≡ count_of words.now) × (0 < count) × (count ≤ 126))
        (λ fault. IsFault words.now fault) }
{
    if words.len() < BLOCK {
        return Err(CoreFault::TooShort);
    }
    let count = words[0];
    if count.get() < MOST {
        return Err(CoreFault::BadWord {
            place: 0,
            word: count,
        });
    }
    let start = words[1];
    if start.get() / 0o100 != 0o62 || start.get() % 8 != 3 {
        return Err(CoreFault::BadWord {
            place: 1,
            word: start,
        });
    }
    Ok(0o10000 - usize::from(count.get()))
}

/// The two words of a segment, by its number from 0, whose words begin at this block.
pub fn segment_at(words: &[Word], number: usize, block: usize) -> Result<(Word, Word), CoreFault>
    requires whole { BLOCK ≤ length words.now }
    requires number { number < 126 }
    requires block { block ≤ 0o10000 }
    ensures { (older : List (ℕ × ℕ)) → HasReadTo words.now number block older → number < count_of words.now
        → TellsSegment words.now older result }
{
    let first = words[4 + 2 * number];
    if usize::from(first.get()) % BLOCK != 0 {
        return Err(CoreFault::BadWord {
            place: 4 + 2 * number,
            word: first,
        });
    }
    let control = words[5 + 2 * number];
    if !is_control(first, control) {
        return Err(CoreFault::BadWord {
            place: 5 + 2 * number,
            word: control,
        });
    }
    if words.len() < BLOCK * (block + blocks(control)) {
        return Err(CoreFault::TooShort);
    }
    Ok((first, control))
}

/// Whether this may be the second word of a segment whose first word begins a block.
fn is_control(first: Word, control: Word) -> bool
    ensures { result ≡ true ↔ IsControl first control }
{
    control.get() < 0o4000
        && control.get() % 8 == 0
        && usize::from(first.get()) + PAGE as usize * pages(control) <= FIELD
}

/// The pages of a segment, by its second word.
pub fn pages(control: Word) -> usize
    ensures value { result ≡ pages_of control }
    ensures range { result ≤ 0o40 }
{
    match control.get() / 0o100 % 0o40 {
        0 => 0o40,
        pages => usize::from(pages),
    }
}

/// The blocks of a segment's words, by its second word.
pub fn blocks(control: Word) -> usize
    ensures value { result ≡ blocks_of control }
    ensures range { result ≤ 16 }
{
    pages(control).div_ceil(2)
}

/// The field of the word that has it in bits 6 to 8.
pub fn field(word: Word) -> u8
    ensures value { result ≡ field_of word }
    ensures range { result < 8 }
{
    (word.get() / 8 % 8) as u8
}
