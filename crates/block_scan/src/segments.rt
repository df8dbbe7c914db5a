//! The segments of a directory among blocks.
ghost use Rattle.std.specs.Prelude.{◌≡◌, ◌++◌, length, IfErr, IfOk, OnOk, MatchOption, Ok, Result, is_ok, false};
ghost use Rattle.volume_image.specs.Volume.{IsBlock, IsVolume};
ghost use Rattle.os8_dir.specs.Entries.{DirectoryState};
ghost use Rattle.os8_dir.specs.Reading.{IsOfWords, MeetsFault};
ghost use Rattle.os8_dir.specs.declared.faults.DirFault.{DirFault as Fault};
ghost use Rattle.block_scan.specs.Segments as spec;
ghost use Rattle.block_scan.specs.SegmentSteps.{IsNone, without_link};
ghost use Rattle.block_scan.specs.Segments.{named_segment, segment_alone, segment_at, segments_among};

use os8_dir::{DirEntry, DirFault, Directory, Name};
use std::alloc::{AllocError, Global};
use volume_image::{Block, BlockStore, MemoryVolume};
use word12::{BLOCK, FIRST_FILE_BLOCK, Word};

/// A segment of a directory: its block, and the name of its first file.
#[derive(Clone, Copy, PartialEq, Eq, Debug)]
pub struct Segment {
    pub place: usize,
    pub name: Name,
}

/// The blocks of a volume after those of its directory that are a sound segment of one with a file, in their order. Each is read alone, as the
/// first segment of a directory of the volume (OS/8 Software Support Manual; which segments are found is this project's profile).
pub fn segments_in(alloc: Global, volume: &MemoryVolume) -> Result<Vec<Segment>, AllocError>
    requires { IsVolume volume.now.blocks }
    ensures { IfOk result (λ segments. segments.items ≡ segments_among volume.now.blocks) }
{
    let count = volume.blocks();
    let mut scratch = scratch_volume(alloc, count)?;
    let mut segments = Vec::new(alloc);
    for place in 0..count {
        put_segment(
            alloc,
            &mut scratch,
            place,
            volume.block(place),
            &mut segments,
        )?;
    }
    Ok(segments)
}

/// A volume of so many blocks, in which each segment is read.
fn scratch_volume(alloc: Global, count: usize) -> Result<MemoryVolume, AllocError>
    ensures { IfOk result (λ volume. length volume.blocks ≡ count) }
{
    match MemoryVolume::create(alloc, count) {
        Ok(volume) => Ok(volume),
        Err(_) => Err(AllocError),
    }
}

/// Adds the segment of a block, if it is one.
fn put_segment(
    alloc: Global,
    scratch: &mut MemoryVolume,
    place: usize,
    words: &[Word],
    out: &mut Vec<Segment>,
) -> Result<(), AllocError>
    requires { IsBlock words.now }
    ensures same { length scratch.new.blocks ≡ length scratch.old.blocks }
    ensures segment { OnOk result (out.new.items ≡ out.old.items ++ segment_at (length scratch.old.blocks) place words.now) }
{
    if !may_be_segment(place, words) {
        return Ok(());
    }
    match directory_alone(alloc, scratch, words)? {
        None => Ok(()),
        Some(directory) => put_first(place, directory.entries(), out),
    }
}

/// Whether a segment may stand at a block.
fn may_be_segment(place: usize, words: &[Word]) -> bool
    requires { IsBlock words.now }
    ensures { result ≡ spec.may_be_segment place words.now }
{
    place >= FIRST_FILE_BLOCK && usize::from(words[2].get()) < FIRST_FILE_BLOCK
}

/// The directory of a segment alone, if it is sound.
fn directory_alone(
    alloc: Global,
    scratch: &mut MemoryVolume,
    words: &[Word],
) -> Result<Option<Directory>, AllocError>
    requires { IsBlock words.now }
    ensures same { length scratch.new.blocks ≡ length scratch.old.blocks }
    ensures directory { IfOk result (λ found. MatchOption found (is_ok (segment_alone (length scratch.old.blocks) words.now) ≡ false)
        (λ directory. segment_alone (length scratch.old.blocks) words.now ≡ Ok directory)) }
{
    let _blocks = scratch.blocks();
    let block = block_without_link(words);
    let _ = scratch.write(1, &block);
    match Directory::read(alloc, scratch) {
        Ok(directory) => Ok(Some(directory)),
        Err(fault) => no_directory(fault),
    }
}

/// The words of a segment, which leads to no other.
fn block_without_link(words: &[Word]) -> Block
    requires { IsBlock words.now }
    ensures { result ≡ without_link words.now }
{
    let mut block = [Word::ZERO; BLOCK];
    block.copy_from_slice(words);
    block[2] = Word::ZERO;
    block
}

/// What is known of a segment that has this fault: it is not sound, or memory ran out.
fn no_directory(fault: DirFault) -> Result<Option<Directory>, AllocError>
    ensures none { (read : Result DirectoryState Fault) → MeetsFault fault read → IsNone result read }
    ensures lack { IfErr result (λ error. IsOfWords fault → ⊥) }
{
    match fault {
        DirFault::Memory | DirFault::Device => Err(AllocError),
        DirFault::BadLink(_)
        | DirFault::BadCount(_)
        | DirFault::EntryPastSegment
        | DirFault::PastVolume
        | DirFault::SameName
        | DirFault::WrongFirstBlock
        | DirFault::MixedInfo => Ok(None),
    }
}

/// Adds a segment with these entries, if one is a file.
fn put_first(place: usize, entries: &[DirEntry], out: &mut Vec<Segment>) -> Result<(), AllocError>
    ensures { OnOk result (out.new.items ≡ out.old.items ++ named_segment place (spec.first_file entries.now)) }
{
    match first_file(entries) {
        None => Ok(()),
        Some(name) => {
            out.push(Segment { place, name })?;
            Ok(())
        }
    }
}

/// The name of the first file.
fn first_file(entries: &[DirEntry]) -> Option<Name>
    ensures { result ≡ spec.first_file entries.now }
{
    let mut rest = entries;
    while let [entry, others @ ..] = rest {
        if let Some(name) = file_name(entry) {
            return Some(name);
        }
        rest = others;
    }
    None
}

/// The name of a file. An entry of length 0 is none.
fn file_name(entry: &DirEntry) -> Option<Name>
    ensures { result ≡ spec.file_name entry.now }
{
    match entry {
        DirEntry::File { name, length, .. } => {
            if *length == 0 {
                return None;
            }
            Some(*name)
        }
        DirEntry::Empty { .. } => None,
    }
}
