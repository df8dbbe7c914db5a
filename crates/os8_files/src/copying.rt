//! Runs of blocks, read and written in rising order.
ghost use Rattle.std.specs.Prelude.{◌≡◌, ◌+◌, ◌≤◌, length, take, drop, is_ok, if◌then◌else◌, IfOk, OnOk, OnErr, MatchResult, IfErr};
ghost use Rattle.volume_image.specs.Volume.{IsVolume};
ghost use Rattle.os8_files.specs.Calls.{counted_more, RisesBy};
ghost use Rattle.os8_files.specs.WriteSteps.{with_run, HasBrokenOff};

use std::alloc::{AllocError, Global};
use volume_image::{Block, BlockStore, DeviceFault};
use word12::{BLOCK, Word};

/// Room for so many blocks.
pub(crate) fn blank_run(alloc: Global, size: usize) -> Result<Vec<Block>, AllocError>
    ensures { IfOk result (λ run. length run.items ≡ size) }
{
    vec![in alloc; [Word::ZERO; BLOCK]; size]
}

/// Reads a run of blocks.
pub(crate) fn read_run<S: BlockStore>(
    store: &mut S,
    place: usize,
    run: &mut [Block],
) -> Result<(), DeviceFault>
    requires { place + length run.old ≤ length (S.contents store.old) }
    ensures ok { OnOk result (run.new ≡ take (length run.old) (drop place (S.contents store.old))) }
    ensures same { S.contents store.new ≡ S.contents store.old }
    ensures reads { OnOk result (S.reads store.new ≡ counted_more (length run.old) (S.reads store.old)) }
    ensures missed { OnErr result (RisesBy (length run.old) (S.reads store.old) (S.reads store.new)) }
    ensures few { S.reads store.new ≤ S.reads store.old + length run.old }
    ensures size { length run.new ≡ length run.old }
    ensures failed_reads { S.failed_reads store.new
        ≡ (if is_ok result then S.failed_reads store.old else S.failed_reads store.old + 1) }
    ensures writes { S.writes store.new ≡ S.writes store.old }
    ensures failed_writes { S.failed_writes store.new ≡ S.failed_writes store.old }
{
    let _blocks = store.blocks();
    for k in 0..run.len() {
        let mut words = [Word::ZERO; BLOCK];
        store.read(place + k, &mut words)?;
        run[k] = words;
    }
    Ok(())
}

/// Writes a run of blocks.
pub(crate) fn write_run<S: BlockStore>(
    store: &mut S,
    place: usize,
    run: &[Block],
) -> Result<(), DeviceFault>
    requires { place + length run.now ≤ length (S.contents store.old) }
    ensures ok { OnOk result (S.contents store.new ≡ with_run (S.contents store.old) place run.now) }
    ensures err { OnErr result
        (HasBrokenOff (S.contents store.old) place (length run.now) (S.contents store.new)
        (S.writes store.old) (S.writes store.new)) }
    ensures volume { IsVolume (S.contents store.new) }
    ensures writes { OnOk result (S.writes store.new ≡ counted_more (length run.now) (S.writes store.old)) }
    ensures reads { S.reads store.new ≡ S.reads store.old }
    ensures failed_reads { S.failed_reads store.new ≡ S.failed_reads store.old }
    ensures failed_writes { S.failed_writes store.new
        ≡ (if is_ok result then S.failed_writes store.old else S.failed_writes store.old + 1) }
{
    let _blocks = store.blocks();
    for k in 0..run.len() {
        let written = store.write(place + k, &run[k]);
        let _blocks = store.blocks();
        written?;
    }
    Ok(())
}
