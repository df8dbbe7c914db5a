ghost use Rattle.std.specs.Prelude.{◌≡◌, ◌*◌, ◌<◌, ◌≤◌, length, slice_get, slice_set, vec_capacity, Some, IsOk, IfOk, OnOk, OnErr, IsOkUnless};
ghost use Rattle.volume_image.specs.Volume.{IsBlock, next_count};
ghost use Rattle.volume_image.specs.Image.{IsImageOf, ReadsImage, Creates};

use crate::images::{blocks_of, first_bad_word, know_words, new_blocks, put_image};
use crate::{Block, BlockStore, DeviceFault, ImageFault};
use std::alloc::Global;
use std::marker::Model;
use word12::{MOST_BLOCKS, Word};

/// A volume of 8 to 4095 blocks whose words stand in memory. As a store it never fails.
#[derive(Debug, Drop)]
pub struct MemoryVolume {
    blocks: Vec<Block>,
    reads: u64,
    writes: u64,
}

impl Model for MemoryVolume {
    ghost use Rattle.volume_image.specs.Stores.{InMemory};
    ghost use Rattle.volume_image.specs.Volume.{AreWords, IsVolume};

    ghost Value = { InMemory };

    ghost view = { λ volume. record {
      blocks = volume.blocks.items;
      reads = volume.reads;
      writes = volume.writes;
    } };

    ghost invariant = { λ volume. IsVolume volume.blocks.items × AreWords volume.blocks.items };
}

impl MemoryVolume {
    /// The volume of an image: 8 to 4095 blocks of 512 bytes, each word in two bytes, the low one first, its top four
    /// bits 0 (this project's profile). Memory is asked for an image only.
    pub fn from_bytes(alloc: Global, bytes: &[u8]) -> Result<MemoryVolume, ImageFault>
        ensures { ReadsImage bytes.now result }
    {
        if !bytes.len().is_multiple_of(512) {
            return Err(ImageFault::NotWhole);
        }
        let count = bytes.len() / 512;
        if count < 8 {
            return Err(ImageFault::TooSmall);
        }
        if count > MOST_BLOCKS {
            return Err(ImageFault::TooLarge);
        }
        if let Some(number) = first_bad_word(bytes) {
            return Err(ImageFault::BadWord(number));
        }
        let blocks = blocks_of(alloc, bytes, count)?;
        Ok(MemoryVolume {
            blocks,
            reads: 0,
            writes: 0,
        })
    }

    /// The image of the volume, 512 bytes for each block (this project's profile).
    pub fn to_bytes(&self, alloc: Global) -> Result<Vec<u8>, ImageFault>
        ensures ok { IfOk result (λ bytes. IsImageOf bytes.items self.now.blocks) }
        ensures err { IsOkUnless result ImageFault.Memory }
    {
        let mut bytes = Vec::new(alloc);
        self.put_bytes(&mut bytes)?;
        Ok(bytes)
    }

    /// Puts the image of the volume, 512 bytes for each block, in place of what a vector has (this project's profile). Where the
    /// vector has room for them, no memory is taken.
    pub fn put_bytes(&self, bytes: &mut Vec<u8>) -> Result<(), ImageFault>
        ensures ok { OnOk result (IsImageOf bytes.new.items self.now.blocks) }
        ensures err { OnErr result (bytes.new.items ≡ bytes.old.items) }
        ensures room { 512 * length self.now.blocks ≤ vec_capacity bytes.old → IsOk result }
        ensures memory { IsOkUnless result ImageFault.Memory }
    {
        put_image(&self.blocks, bytes)?;
        Ok(())
    }

    /// An empty volume of 8 to 4095 blocks. Block 1 begins a directory of one segment with one empty entry from block 7
    /// on, and all other words are 0 (OS/8 Software Support Manual).
    pub fn create(alloc: Global, blocks: usize) -> Result<MemoryVolume, ImageFault>
        ensures { Creates blocks result }
    {
        if blocks < 8 {
            return Err(ImageFault::TooSmall);
        }
        if blocks > MOST_BLOCKS {
            return Err(ImageFault::TooLarge);
        }
        let made = new_blocks(alloc, blocks)?;
        Ok(MemoryVolume {
            blocks: made,
            reads: 0,
            writes: 0,
        })
    }

    /// The 256 words of a block, whose number is below the number of blocks. No read is counted.
    pub fn block(&self, number: usize) -> &[Word]
        requires { number < length self.now.blocks }
        ensures words { slice_get self.now.blocks number ≡ Some result.now }
        ensures size { IsBlock result.now }
    {
        &self.blocks[number]
    }

    // Counts a read.
    pub(crate) fn count_read(&mut self)
        ensures { self.new ≡ record self.old { reads = next_count self.old.reads } }
    {
        count_up(&mut self.reads);
    }
}

impl BlockStore for MemoryVolume {
    ghost contents = { λ volume. volume.blocks };

    ghost reads = { λ volume. volume.reads };

    ghost writes = { λ volume. volume.writes };

    ghost failed_reads = { λ _. 0 };

    ghost failed_writes = { λ _. 0 };

    fn blocks(&self) -> usize {
        self.blocks.len()
    }

    fn read(&mut self, number: usize, words: &mut Block) -> Result<(), DeviceFault>
        requires { number < length self.old.blocks }
        ensures done { IsOk result }
        ensures words { slice_get self.old.blocks number ≡ Some words.new }
        ensures counts { self.new ≡ record self.old { reads = next_count self.old.reads } }
    {
        count_up(&mut self.reads);
        *words = self.blocks[number];
        Ok(())
    }

    fn write(&mut self, number: usize, words: &Block) -> Result<(), DeviceFault>
        requires { number < length self.old.blocks }
        ensures done { IsOk result }
        ensures words { self.new ≡ record
            self.old {
              blocks = slice_set self.old.blocks number words.now;
              writes = next_count
                  self.old.writes;
            } }
    {
        know_words(words);
        count_up(&mut self.writes);
        self.blocks[number] = *words;
        Ok(())
    }
}

// Adds one to a count, but one that stands at its greatest value stays there.
pub(crate) fn count_up(count: &mut u64)
    ensures { count.new ≡ next_count count.old }
{
    if *count < u64::MAX {
        *count += 1;
    }
}
