ghost use Rattle.archive_many.specs.Raw.{GetsBlocks};

use crate::BlocksFault;
use crate::images::volume_of;
use archive_files::GetForm;
use archive_files::parts::{content_of_words, words_at};
use std::alloc::Global;
use volume_image::BlockStore;

/// What blocks of an image hold, whatever its directory says: their frames, their text, or the tape that they begin with. Blocks are
/// counted from 0 (OS/8 Software Support Manual; the faults and their order are this project's profile).
pub fn blocks_of(
    alloc: Global,
    image: &[u8],
    first: usize,
    count: usize,
    form: GetForm,
) -> Result<Vec<u8>, BlocksFault>
    ensures { GetsBlocks image.now first count form result }
{
    let volume = volume_of(alloc, image)?;
    let blocks = volume.blocks();
    if count > blocks || first > blocks - count {
        return Err(BlocksFault::NoBlocks(blocks));
    }
    let words = words_at(alloc, &volume, first, count)?;
    let bytes = content_of_words(alloc, &words, form)?;
    Ok(bytes)
}
