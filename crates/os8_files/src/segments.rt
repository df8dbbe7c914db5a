//! The writing of a directory's segments.
ghost use Rattle.std.specs.Prelude.{◌≡◌, ◌+◌, ◌≤◌, ◌<◌, slice_set, nat_eq, length, is_ok, if◌then◌else◌, OnOk, OnErr};
ghost use lib.Pointwise.{pointwise};
ghost use Rattle.volume_image.specs.Volume.{IsVolume, IsDamaged, next_count};
ghost use Rattle.os8_dir.specs.Reading.{block};
ghost use Rattle.os8_files.specs.Calls.{counted_more, StopsInPart};
ghost use Rattle.os8_dir.specs.Found.{limit};
ghost use Rattle.os8_dir.specs.Segments.{segment_count};
ghost use Rattle.os8_files.specs.Mounted.{AreSegments};
ghost use Rattle.os8_files.specs.WriteSteps.{count_of_changed, with_segments, KeepsHigh};

use os8_dir::Directory;
use volume_image::{Block, BlockStore, DeviceFault};
use word12::{BLOCK, Word};

/// Writes a segment, counted from 0, where its words differ from those that are kept, and keeps them.
fn write_segment<S: BlockStore>(
    store: &mut S,
    kept: &mut [Block],
    number: usize,
    words: &Block,
) -> Result<(), DeviceFault>
    requires kept { AreSegments (S.contents store.old) kept.old }
    requires inside { number < 6 }
    ensures ok { OnOk result (S.contents store.new
        ≡ slice_set (S.contents store.old) (number + 1) words.now) }
    ensures kept { OnOk result (AreSegments (S.contents store.new) kept.new) }
    ensures err { OnErr result (IsDamaged (S.contents store.old) (S.contents store.new) (number + 1)) }
    ensures volume { IsVolume (S.contents store.new) }
    ensures writes { OnOk result (S.writes store.new
        ≡ (if pointwise nat_eq (block (S.contents store.old) (number + 1)) words.now
        then S.writes store.old else next_count (S.writes store.old))) }
    ensures tried { OnErr result (S.writes store.new ≡ next_count (S.writes store.old)) }
    ensures reads { S.reads store.new ≡ S.reads store.old }
    ensures failed_reads { S.failed_reads store.new ≡ S.failed_reads store.old }
    ensures failed_writes { S.failed_writes store.new
        ≡ (if is_ok result then S.failed_writes store.old else S.failed_writes store.old + 1) }
{
    let _blocks = store.blocks();
    if kept[number] == *words {
        return Ok(());
    }
    let written = store.write(number + 1, words);
    let _blocks = store.blocks();
    written?;
    kept[number] = *words;
    Ok(())
}

/// Writes the segments of a directory to blocks 1, 2 and so on, in rising order. Only those are written whose words
/// differ from the words that are kept of blocks 1 to 6.
pub(crate) fn write_segments<S: BlockStore>(
    store: &mut S,
    kept: &mut [Block],
    directory: &Directory,
) -> Result<(), DeviceFault>
    requires fits { length directory.now.entries ≤ limit directory.now }
    requires kept { AreSegments (S.contents store.old) kept.old }
    ensures ok { OnOk result (S.contents store.new
        ≡ with_segments (segment_count directory.now) directory.now (S.contents store.old)) }
    ensures kept { OnOk result (AreSegments (S.contents store.new) kept.new) }
    ensures err { OnErr result (KeepsHigh (S.contents store.old) (S.contents store.new)) }
    ensures part { OnErr result
        (StopsInPart (S.contents store.old) (S.contents store.new) directory.now (S.writes store.old)
        (S.writes store.new)) }
    ensures few { segment_count directory.now ≤ 6 }
    ensures volume { IsVolume (S.contents store.new) }
    ensures writes { OnOk result (S.writes store.new
        ≡ counted_more (count_of_changed (segment_count directory.now) directory.now (S.contents store.old))
        (S.writes store.old)) }
    ensures reads { S.reads store.new ≡ S.reads store.old }
    ensures failed_reads { S.failed_reads store.new ≡ S.failed_reads store.old }
    ensures failed_writes { S.failed_writes store.new
        ≡ (if is_ok result then S.failed_writes store.old else S.failed_writes store.old + 1) }
{
    let _blocks = store.blocks();
    for number in 0..directory.segment_count() {
        let mut words = [Word::ZERO; BLOCK];
        directory.segment(number, &mut words);
        write_segment(store, kept, number, &words)?;
    }
    Ok(())
}
