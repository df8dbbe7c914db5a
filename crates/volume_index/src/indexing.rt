ghost use Rattle.std.specs.Prelude.{◌≡◌, List, ℕ, ◌+◌, ◌*◌, ◌≤◌, ◌++◌, length, slice_index, OnOk};
ghost use Rattle.word12.specs.declared.sizes.TheConstants.{MOST_BLOCKS};
ghost use Rattle.os8_dates.specs.declared.years.TheConstants.{LAST_YEAR, LEAST_LAST};
ghost use Rattle.os8_dir.specs.Entries.{size_of, total};
ghost use Rattle.volume_index.specs.Indexing.{Indexes, block_bytes};
ghost use Rattle.volume_index.specs.IndexSteps.{AreLinesAt, IsLineAt};

use crate::choosing::{holds_wanted, is_chosen};
use crate::kinds::kind_of_words;
use crate::styles::IndexStyle;
use crate::years::last_in;
use crate::{IndexEntry, put_index};
use archive_files::ArchiveFault;
use archive_files::parts::{volume_of, words_at};
use os8_dir::laws::sound_directory;
use os8_dir::{DirEntry, DirFault, Directory};
use refusals::SessionFault;
use std::alloc::{AllocError, Global};
use volume_image::{BlockStore, MemoryVolume};
use word12::Word;

/// The lines of the files that are wanted of the volume in an image, in the order of its directory. They have the name that is given as the
/// image's, and the number as the volume's, none for a file of one volume. An image is refused as `archive_files::list` does it (OS/8 Software
/// Support Manual; the lines are this project's profile).
pub fn index_volume(
    alloc: Global,
    style: &IndexStyle,
    name: &[u8],
    number: Option<u64>,
    image: &[u8],
) -> Result<Vec<u8>, ArchiveFault>
    ensures { Indexes style.now name.now number image.now result }
{
    sound_directory();
    let mut volume = volume_of(alloc, image)?;
    let last = last_in(style.year, &volume);
    match Directory::read(alloc, &mut volume) {
        Err(DirFault::Memory) => Err(ArchiveFault::Refused(SessionFault::Memory)),
        Err(fault) => Err(ArchiveFault::Directory(fault)),
        Ok(directory) => {
            let first = directory.first_block();
            let entries = directory.entries();
            let mut lines = Vec::new(alloc);
            put_files(
                alloc, style, name, number, last, image, &volume, first, entries, &mut lines,
            )?;
            Ok(lines)
        }
    }
}

/// Appends the lines of the files among entries, the first of which begins at a block.
fn put_files(
    alloc: Global,
    style: &IndexStyle,
    name: &[u8],
    number: Option<u64>,
    last: u16,
    image: &[u8],
    volume: &MemoryVolume,
    first: usize,
    entries: &[DirEntry],
    out: &mut Vec<u8>,
) -> Result<(), AllocError>
    requires least { LEAST_LAST ≤ last }
    requires most { last ≤ LAST_YEAR }
    requires size { length image.now ≡ 0o1000 * length volume.now.blocks }
    requires inside { first + total entries.now ≤ length volume.now.blocks }
    ensures { OnOk result ((lines : List ℕ) × AreLinesAt style.now name.now number last image.now volume.now.blocks first entries.now lines
        × (out.new.items ≡ out.old.items ++ lines)) }
{
    let _blocks = volume.blocks();
    let mut place = first;
    let mut rest = entries;
    while let [entry, others @ ..] = rest {
        put_entry(
            alloc, style, name, number, last, image, volume, place, entry, out,
        )?;
        place += entry.length();
        rest = others;
    }
    Ok(())
}

/// Appends the line of an entry that begins at a block, where it is a file that is wanted.
fn put_entry(
    alloc: Global,
    style: &IndexStyle,
    name: &[u8],
    number: Option<u64>,
    last: u16,
    image: &[u8],
    volume: &MemoryVolume,
    place: usize,
    entry: &DirEntry,
    out: &mut Vec<u8>,
) -> Result<(), AllocError>
    requires least { LEAST_LAST ≤ last }
    requires most { last ≤ LAST_YEAR }
    requires size { length image.now ≡ 0o1000 * length volume.now.blocks }
    requires inside { place + size_of entry.now ≤ length volume.now.blocks }
    ensures { OnOk result ((line : List ℕ) × IsLineAt style.now name.now number last image.now volume.now.blocks place entry.now line
        × (out.new.items ≡ out.old.items ++ line)) }
{
    match entry {
        DirEntry::File {
            name: title,
            info,
            length,
        } => {
            if !is_chosen(alloc, style.find.as_bytes(), *title, place, *length)? {
                return Ok(());
            }
            let words = words_at(alloc, volume, place, *length)?;
            let kind = kind_of_words(alloc, &words)?;
            if !holds_wanted(alloc, &style.grep, kind, &words)? {
                return Ok(());
            }
            let line = IndexEntry {
                volume: number,
                first: place as u64,
                length: *length as u64,
                name: *title,
                date: date_in(info),
                kind,
            };
            put_index(out, name, &line, last, block_bytes(image, place, *length))
        }
        DirEntry::Empty { .. } => Ok(()),
    }
}

/// The date word of a file: the first of its information words.
fn date_in(info: &[Word]) -> Word
    ensures { result ≡ slice_index info.now 0 }
{
    match info {
        [word, ..] => *word,
        [] => Word::ZERO,
    }
}

/// The bytes that blocks are in an image.
fn block_bytes(image: &[u8], place: usize, size: usize) -> &[u8]
    requires inside { 0o1000 * (place + size) ≤ length image.now }
    ensures { result.now ≡ block_bytes image.now place size }
{
    &image[0o1000 * place..0o1000 * (place + size)]
}
