ghost use Rattle.std.specs.Prelude.{◌≡◌, ◌+◌, ◌<◌, length, All, is_err, if◌then◌else◌, OnOk, OnErr, Some, Option, slice_get, slice_set};
ghost use Rattle.volume_image.specs.Volume.{next_count};
ghost use Rattle.volume_image.specs.Fuse.{fails_next, calls_left, IsSpoilt};

use crate::{Block, BlockStore, DeviceFault, MemoryVolume};
use std::marker::Model;
use word12::Word;

/// A volume in memory of which one read and one write can be made to fail, each after a number of them that pass. All
/// later ones pass.
#[derive(Debug, Drop)]
pub struct FuseVolume {
    volume: MemoryVolume,
    reads_left: Option<u32>,
    writes_left: Option<u32>,
    read_failed: bool,
    write_failed: bool,
}

impl Model for FuseVolume {
    ghost use Rattle.std.specs.Prelude.{◌≡◌, true, None, if◌then◌else◌};
    ghost use Rattle.volume_image.specs.Stores.{FusedVolume};

    ghost Value = { FusedVolume };

    ghost view = { λ fuse. record {
      volume = fuse.volume;
      reads_left = fuse.reads_left;
      writes_left = fuse.writes_left;
      failed_reads = if fuse.read_failed then 1 else 0;
      failed_writes = if fuse.write_failed then 1 else 0;
    } };

    ghost invariant = { λ fuse.
        (fuse.read_failed ≡ true → fuse.reads_left ≡ None)
        × (fuse.write_failed ≡ true → fuse.writes_left ≡ None) };
}

// Takes one call off, and says whether it is the one that fails.
fn burn(left: &mut Option<u32>) -> bool
    ensures fails { result ≡ fails_next left.old }
    ensures left { left.new ≡ calls_left left.old }
{
    match *left {
        None => false,
        Some(0) => {
            *left = None;
            true
        }
        Some(number) => {
            *left = Some(number - 1);
            false
        }
    }
}

impl FuseVolume {
    /// A volume that passes so many reads and fails the next one, and so many writes and fails the next one; where there
    /// is no number, none fails.
    pub fn new(volume: MemoryVolume, reads: Option<u32>, writes: Option<u32>) -> FuseVolume
        ensures { result ≡ record {
          volume = volume;
          reads_left = reads;
          writes_left = writes;
          failed_reads = 0;
          failed_writes = 0;
        } }
    {
        FuseVolume {
            volume,
            reads_left: reads,
            writes_left: writes,
            read_failed: false,
            write_failed: false,
        }
    }

    /// The volume as it now stands, with the counts of its reads.
    pub fn into_inner(self) -> MemoryVolume
        ensures { result ≡ self.volume }
    {
        let FuseVolume {
            volume,
            reads_left: _,
            writes_left: _,
            read_failed: _,
            write_failed: _,
        } = self;
        volume
    }
}

impl BlockStore for FuseVolume {
    ghost contents = { λ fuse. fuse.volume.blocks };

    ghost reads = { λ fuse. fuse.volume.reads };

    ghost writes = { λ fuse. fuse.volume.writes };

    ghost failed_reads = { λ fuse. fuse.failed_reads };

    ghost failed_writes = { λ fuse. fuse.failed_writes };

    fn blocks(&self) -> usize {
        self.volume.blocks()
    }

    fn read(&mut self, number: usize, words: &mut Block) -> Result<(), DeviceFault>
        requires { number < length self.old.volume.blocks }
        ensures fails { is_err result ≡ fails_next self.old.reads_left }
        ensures ok { OnOk result (slice_get self.old.volume.blocks number ≡ Some words.new) }
        ensures err { OnErr result (words.new ≡ words.old) }
        ensures after { self.new ≡ record self.old {
          volume = record self.old.volume { reads = next_count self.old.volume.reads };
          reads_left = calls_left self.old.reads_left;
          failed_reads = if is_err result then self.old.failed_reads + 1 else self.old.failed_reads;
        } }
    {
        if burn(&mut self.reads_left) {
            self.read_failed = true;
            self.volume.count_read();
            return Err(DeviceFault);
        }
        self.volume.read(number, words)
    }

    fn write(&mut self, number: usize, words: &Block) -> Result<(), DeviceFault>
        requires { number < length self.old.volume.blocks }
        ensures fails { is_err result ≡ fails_next self.old.writes_left }
        ensures ok { OnOk result (self.new.volume ≡
            record self.old.volume {
              blocks = slice_set self.old.volume.blocks number words.now;
              writes = next_count self.old.volume.writes;
            }) }
        ensures err { OnErr result (IsSpoilt self.old.volume self.new.volume number) }
        ensures after { self.new ≡ record self.old {
          volume = self.new.volume;
          writes_left = calls_left self.old.writes_left;
          failed_writes = if is_err result then self.old.failed_writes + 1 else self.old.failed_writes;
        } }
    {
        if burn(&mut self.writes_left) {
            self.write_failed = true;
            spoil(&mut self.volume, number);
            return Err(DeviceFault);
        }
        self.volume.write(number, words)
    }
}

// A block of which each word is 5252.
fn spoilt_block() -> Block
    ensures { All (λ word. word ≡ 2730) result }
{
    [Word::low(0o5252); 256]
}

// Leaves a block with words 5252.
fn spoil(volume: &mut MemoryVolume, number: usize)
    requires { number < length volume.old.blocks }
    ensures { IsSpoilt volume.old volume.new number }
{
    let words = spoilt_block();
    match volume.write(number, &words) {
        Ok(()) => {}
        Err(_fault) => unreachable!(),
    }
}
