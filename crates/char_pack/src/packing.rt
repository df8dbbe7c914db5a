ghost use Rattle.std.specs.Prelude.{◌≡◌, ◌+◌, ◌*◌, ◌<◌, ◌++◌, length, replicate, IfOk, OnOk, vec_len};
ghost use Rattle.word12.specs.declared.sizes.TheConstants.{BLOCK};
ghost use Rattle.char_pack.specs.Packing.{group, words_of_bytes, group_count, IsPacking, packed_blocks, block_count, IsBlockPacking};

use crate::PackFault;
use std::alloc::{AllocError, Global};
use word12::{BLOCK, Word};

/// The frames of a block, three for each two of its words (OS/8 Software Support Manual).
pub const BLOCK_FRAMES: usize = 384;

/// The words of bytes, three in two words, zeros after the last byte (OS/8 Software Support Manual).
///
/// They are the shortest even list of words whose frames begin with the bytes.
pub fn pack(alloc: Global, bytes: &[u8]) -> Result<Vec<Word>, PackFault>
    ensures words { IfOk result (λ words. words.items ≡ words_of_bytes bytes.now) }
    ensures length { IfOk result (λ words. vec_len words ≡ 2 * group_count (length bytes.now)) }
    ensures packing { IfOk result (λ words. IsPacking bytes.now words.items) }
{
    let mut words = Vec::with_capacity(alloc, 2 * bytes.len().div_ceil(3))?;
    push_packed(&mut words, bytes)?;
    Ok(words)
}

/// The words of bytes in whole blocks of 256 words, zeros after the last byte (OS/8 Software Support Manual).
///
/// They are the fewest blocks whose frames begin with the bytes, none for no byte.
pub fn pack_blocks(alloc: Global, bytes: &[u8]) -> Result<Vec<Word>, AllocError>
    ensures words { IfOk result (λ words. words.items ≡ packed_blocks bytes.now) }
    ensures length { IfOk result (λ words. vec_len words ≡ BLOCK * block_count (length bytes.now)) }
    ensures packing { IfOk result (λ words. IsBlockPacking bytes.now words.items) }
{
    let count = BLOCK * bytes.len().div_ceil(BLOCK_FRAMES);
    let mut blocks = Vec::with_capacity(alloc, count)?;
    push_packed(&mut blocks, bytes)?;
    push_zeros(&mut blocks, count - 2 * bytes.len().div_ceil(3))?;
    Ok(blocks)
}

/// Appends so many zeros.
pub(crate) fn push_zeros(words: &mut Vec<Word>, count: usize) -> Result<(), AllocError>
    ensures { OnOk result (words.new.items ≡ words.old.items ++ replicate count 0) }
{
    for _ in 0..count {
        words.push(Word::ZERO)?;
    }
    Ok(())
}

/// Appends the words of bytes.
fn push_packed(words: &mut Vec<Word>, bytes: &[u8]) -> Result<(), AllocError>
    ensures { OnOk result (words.new.items ≡ words.old.items ++ words_of_bytes bytes.now) }
{
    let mut rest = bytes;
    while let [first, second, third, others @ ..] = rest {
        push_group(words, *first, *second, *third)?;
        rest = others;
    }
    match rest {
        [first] => push_group(words, *first, 0, 0),
        [first, second] => push_group(words, *first, *second, 0),
        _ => Ok(()),
    }
}

/// Appends the two words of three bytes.
#[inline(always)]
pub(crate) fn push_group(
    words: &mut Vec<Word>,
    first: u8,
    second: u8,
    third: u8,
) -> Result<(), AllocError>
    ensures { OnOk result (words.new.items ≡ words.old.items ++ group first second third) }
{
    words.reserve(2)?;
    words.push_reserved(word_of(first, third / 16));
    words.push_reserved(word_of(second, third % 16));
    Ok(())
}

/// The word of a byte and four bits above it.
#[inline(always)]
fn word_of(byte: u8, high: u8) -> Word
    requires { high < 16 }
    ensures { result ≡ 256 * high + byte }
{
    Word::low(256 * u16::from(high) + u16::from(byte))
}
