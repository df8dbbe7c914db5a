//! Which blocks of the directory a change writes, and in which order.
use crate::files::{mount_store, name_of_number, store_file};
use os8_files::FileService;
use std::alloc::Global;
use std::process::Abort;
use volume_image::{BlockStore, CountVolume, FuseVolume, MemoryVolume};
use word12::Word;

/// Makes 100 files of one block; whether each was made.
fn fill<S: BlockStore>(alloc: Global, files: &mut FileService<S>) -> bool {
    let mut all = true;
    for number in 1u16..101 {
        all = store_file(alloc, files, number, 1) == 0 && all;
    }
    all
}

/// A volume of 300 blocks with 100 files of one block, whose directory has three segments.
fn hundred(alloc: Global) -> Option<MemoryVolume> {
    let mut files = mount_store(alloc, MemoryVolume::create(alloc, 300).ok()?)?;
    if fill(alloc, &mut files) {
        return Some(files.into_store());
    }
    None
}

/// Puts a word at a place of a block.
fn set(volume: &mut MemoryVolume, number: usize, at: usize, word: u16) {
    let mut words = [Word::ZERO; 256];
    if number < volume.blocks() && at < 256 && volume.read(number, &mut words).is_ok() {
        words[at] = Word::low(word);
        let _written = volume.write(number, &words);
    }
}

/// Links the second segment of a volume in block 3, and its third in block 2: the order is then 1, 3 and 2.
fn relink(volume: &mut MemoryVolume) {
    let mut second = [Word::ZERO; 256];
    let mut third = [Word::ZERO; 256];
    if volume.blocks() > 3 {
        let _read = volume.read(2, &mut second);
        let _read = volume.read(3, &mut third);
        let _written = volume.write(2, &third);
        let _written = volume.write(3, &second);
    }
    set(volume, 1, 2, 3);
    set(volume, 3, 2, 2);
}

/// How many blocks of a volume are read and written where it is mounted and its first file deleted, and where it is mounted
/// again and the file is stored. There is nothing where one of these is refused.
fn count_blocks(alloc: Global, volume: MemoryVolume) -> Option<[u64; 4]> {
    let mut files = mount_store(alloc, CountVolume::new(volume))?;
    files.delete(alloc, &name_of_number(1)).ok()?;
    let first = files.into_store();
    let (reads, writes) = (first.reads(), first.writes());
    let mut again = mount_store(alloc, CountVolume::new(first.into_inner()))?;
    if store_file(alloc, &mut again, 1, 1) > 0 {
        return None;
    }
    let second = again.into_store();
    Some([reads, writes, second.reads(), second.writes()])
}

/// The same of a volume with 100 files, one whose segments are relinked, and one with a flag word in its third segment.
fn counts(alloc: Global) -> Option<[[u64; 4]; 3]> {
    let mut relinked = hundred(alloc)?;
    relink(&mut relinked);
    let mut flagged = hundred(alloc)?;
    set(&mut flagged, 3, 3, 0o7070);
    Some([
        count_blocks(alloc, hundred(alloc)?)?,
        count_blocks(alloc, relinked)?,
        count_blocks(alloc, flagged)?,
    ])
}

#[test]
fn segments_that_change(rt: HostRuntime) {
    let wanted = [1, 3, 2].map(|writes| [3 + 6, writes, 3 + 6, 1 + 1]);
    assert_eq!(rt; counts(rt.alloc()), Some(wanted));
}

/// The least of blocks 1 to 6 that a failed write has filled, where the first file of a relinked volume is deleted and a write
/// fails after so many. It is 0 where none has.
fn filled_block(alloc: Global, passes: u32) -> Option<usize> {
    let mut relinked = hundred(alloc)?;
    relink(&mut relinked);
    let mut files = mount_store(alloc, FuseVolume::new(relinked, None, Some(passes)))?;
    let _refused = files.delete(alloc, &name_of_number(1));
    let volume = files.into_store().into_inner();
    for number in 1usize..7 {
        if number < volume.blocks() && volume.block(number)[255] == Word::low(0o5252) {
            return Some(number);
        }
    }
    Some(0)
}

#[test]
fn segments_in_rising_order(rt: HostRuntime) {
    for (passes, want) in [(0, 1), (1, 2), (2, 3), (3, 0)] {
        assert_eq!(rt; filled_block(rt.alloc(), passes), Some(want), "{passes}");
    }
}
