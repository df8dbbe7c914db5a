ghost use Rattle.std.specs.Prelude.{◌≡◌, ◌≢◌, ℕ, ◌+◌, ◌*◌, ◌<◌, length, slice_index};
ghost use Rattle.volume_image.specs.Image.{image_word};
ghost use Rattle.block_words.specs.Patching.{IsPatched, Patches};

use crate::PatchFault;
use word12::{BLOCK, Word};

/// Puts a word in place of another one in a block of an image, by its number from 0, if just that other one stands there. Words that stand
/// there may have up to sixteen bits, as they may in an image that is damaged. Blocks are counted from 0, and a block that isn't whole is
/// none (this project's profile of images).
///
/// After a refusal the image is as it was. No memory is taken.
pub fn patch(
    image: &mut [u8],
    block: usize,
    number: usize,
    old: u16,
    new: Word,
) -> Result<(), PatchFault>
    ensures { Patches image.old block number old new result image.new }
{
    let count = image.len() / 0o1000;
    if block >= count {
        return Err(PatchFault::NoBlock(count));
    }
    if number >= BLOCK {
        return Err(PatchFault::NoWord);
    }
    let place = BLOCK * block + number;
    let there = word_at(image, place);
    if there != old {
        return Err(PatchFault::OtherWord(there));
    }
    put_word(image, place, new);
    Ok(())
}

/// A word of an image with all of its sixteen bits, by its number from 0 over all blocks.
pub fn word_at(image: &[u8], place: usize) -> u16
    requires { 2 * place + 1 < length image.now }
    ensures { result ≡ image_word image.now place }
{
    u16::from(image[2 * place]) + 0o400 * u16::from(image[2 * place + 1])
}

/// Puts a word into an image.
fn put_word(image: &mut [u8], place: usize, word: Word)
    requires { 2 * place + 1 < length image.old }
    ensures { IsPatched image.old image.new place word }
{
    let bits = word.get();
    image[2 * place] = (bits % 0o400) as u8;
    image[2 * place + 1] = (bits / 0o400) as u8;
}
