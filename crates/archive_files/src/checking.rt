ghost use Rattle.std.specs.Prelude.{◌≡◌, ◌+◌, ◌≤◌, ◌++◌, length, OnOk};
ghost use Rattle.arrayvec.specs.ArrayVec.{array_vec_len};
ghost use Rattle.word12.specs.declared.sizes.TheConstants.{MOST_BLOCKS};
ghost use Rattle.volume_image.specs.Volume.{IsVolume};
ghost use Rattle.os8_dir.specs.Entries.{total};
ghost use Rattle.os8_dir.specs.Found.{IsDirectory};
ghost use Rattle.archive_files.specs.Checking as spec;
ghost use Rattle.archive_files.specs.Checking.{Checks};

use crate::ArchiveFault;
use crate::opening::volume_of;
use name_spelling::put_spelled;
use os8_dir::{DirEntry, DirFault, Directory};
use refusals::SessionFault;
use refusals::text_lines::{TextLine, put, put_number};
use std::alloc::{AllocError, Global};
use volume_image::{BlockStore, MemoryVolume};
use word12::{FIRST_FILE_BLOCK, Word};

/// Checks an image, which is accepted or refused as by a mount (OS/8 Software Support Manual; the lines are this project's
/// profile). The report shows its blocks and the segments of its directory. It lists each file and empty with its first block and
/// its length, and the blocks that the directory does not cover.
pub fn check(alloc: Global, image: &[u8]) -> Result<Vec<u8>, ArchiveFault>
    ensures { Checks image.now result }
{
    let mut volume = volume_of(alloc, image)?;
    match Directory::read(alloc, &mut volume) {
        Err(DirFault::Memory) => Err(ArchiveFault::Refused(SessionFault::Memory)),
        Err(fault) => Err(ArchiveFault::Directory(fault)),
        Ok(directory) => {
            let mut text = Vec::new(alloc);
            put_check(&volume, &directory, &mut text)?;
            Ok(text)
        }
    }
}

/// Appends the lines of a volume with this directory.
fn put_check(
    volume: &MemoryVolume,
    directory: &Directory,
    out: &mut Vec<u8>,
) -> Result<(), AllocError>
    requires { IsDirectory (length volume.now.blocks) directory.now }
    ensures { OnOk result (out.new.items ≡ out.old.items
        ++ spec.check_lines volume.now.blocks directory.now) }
{
    let first = directory.first_block();
    let end = first + directory.capacity();
    let blocks = volume.blocks();
    put_blocks(blocks, out)?;
    put_segments(volume, out)?;
    put_outside(FIRST_FILE_BLOCK, first - FIRST_FILE_BLOCK, out)?;
    put_entries(first, directory.entries(), out)?;
    put_outside(end, blocks - end, out)
}

/// Appends the line of the number of blocks.
fn put_blocks(blocks: usize, out: &mut Vec<u8>) -> Result<(), AllocError>
    ensures { OnOk result (out.new.items ≡ out.old.items ++ spec.blocks_line blocks) }
{
    let mut line = TextLine::new();
    put(&mut line, b"BLOCKS ");
    put_number(&mut line, blocks as u64);
    put(&mut line, b"\n");
    out.extend_from_slice(line.as_slice())
}

/// Appends the lines of the directory's segments, along their links.
fn put_segments(volume: &MemoryVolume, out: &mut Vec<u8>) -> Result<(), AllocError>
    requires { IsVolume volume.now.blocks }
    ensures { OnOk result (out.new.items ≡ out.old.items ++ spec.segment_lines 6 volume.now.blocks 1) }
{
    let mut number = 1;
    let mut left: usize = 6;
    while left > 0 && number > 0 && number < FIRST_FILE_BLOCK {
        let words = volume.block(number);
        put_segment(number, words[0], out)?;
        number = usize::from(words[2].get());
        left -= 1;
    }
    Ok(())
}

/// Appends the line of a segment in a block, by its first word.
fn put_segment(number: usize, first: Word, out: &mut Vec<u8>) -> Result<(), AllocError>
    ensures { OnOk result (out.new.items ≡ out.old.items ++ spec.segment_line number first) }
{
    let mut line = TextLine::new();
    put(&mut line, b"SEGMENT ");
    put_extent(
        &mut line,
        number,
        usize::from(Word::ZERO.minus(first).get()),
    );
    out.extend_from_slice(line.as_slice())
}

/// Appends the lines of entries, the first of which begins at a block.
fn put_entries(first: usize, entries: &[DirEntry], out: &mut Vec<u8>) -> Result<(), AllocError>
    requires { first + total entries.now ≤ MOST_BLOCKS }
    ensures { OnOk result (out.new.items ≡ out.old.items ++ spec.entry_lines first entries.now) }
{
    let mut place = first;
    let mut rest = entries;
    while let [entry, others @ ..] = rest {
        put_entry(place, entry, out)?;
        place += entry.length();
        rest = others;
    }
    Ok(())
}

/// Appends the line of an entry that begins at a block.
fn put_entry(place: usize, entry: &DirEntry, out: &mut Vec<u8>) -> Result<(), AllocError>
    ensures { OnOk result (out.new.items ≡ out.old.items ++ spec.entry_line place entry.now) }
{
    let mut line = TextLine::new();
    match entry {
        DirEntry::File { name, length, .. } => {
            put(&mut line, b"FILE ");
            put_spelled(&mut line, *name);
            put(&mut line, b" ");
            put_extent(&mut line, place, *length);
        }
        DirEntry::Empty { length } => {
            put(&mut line, b"EMPTY ");
            put_extent(&mut line, place, *length);
        }
    }
    out.extend_from_slice(line.as_slice())
}

/// Appends the line of blocks that the directory does not cover, where there are any.
fn put_outside(place: usize, size: usize, out: &mut Vec<u8>) -> Result<(), AllocError>
    ensures { OnOk result (out.new.items ≡ out.old.items ++ spec.outside_line place size) }
{
    if size == 0 {
        return Ok(());
    }
    let mut line = TextLine::new();
    put(&mut line, b"OUTSIDE ");
    put_extent(&mut line, place, size);
    out.extend_from_slice(line.as_slice())
}

/// Puts a block, how many from it on, and the line's end.
fn put_extent(line: &mut TextLine, place: usize, size: usize)
    requires { array_vec_len line.old ≤ 35 }
    ensures { line.new.items ≡ line.old.items ++ spec.extent_text place size }
{
    put_number(line, place as u64);
    put(line, b" ");
    put_number(line, size as u64);
    put(line, b"\n");
}
