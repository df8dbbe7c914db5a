//! The words of runs of blocks.
ghost use Rattle.std.specs.Prelude.{◌≡◌, ◌+◌, ◌≤◌, length, IfOk};
ghost use Rattle.os8_dir.specs.Files.{run};

use std::alloc::{AllocError, Global};
use volume_image::{BlockStore, MemoryVolume};
use word12::Word;

/// The words of so many blocks of a volume, from one on (OS/8 Software Support Manual).
pub fn words_at(
    alloc: Global,
    volume: &MemoryVolume,
    place: usize,
    blocks: usize,
) -> Result<Vec<Word>, AllocError>
    requires { place + blocks ≤ length volume.now.blocks }
    ensures { IfOk result (λ words. words.items ≡ run volume.now.blocks place blocks) }
{
    let _blocks = volume.blocks();
    let mut words = Vec::new(alloc);
    for k in 0..blocks {
        words.extend_from_slice(volume.block(place + k))?;
    }
    Ok(words)
}
