ghost use Rattle.std.specs.Prelude.{◌≡◌, ◌+◌, ◌≤◌, ◌∷◌, ◌++◌, decimal, length, OnOk};
ghost use Rattle.word12.specs.declared.sizes.TheConstants.{MOST_BLOCKS};
ghost use Rattle.os8_dir.specs.Entries.{total};
ghost use Rattle.name_spelling.specs.Spelling.{text_of};
ghost use Rattle.archive_files.specs.LongListing.{ListsLong, information_text, long_lines};
ghost use Rattle.archive_files.specs.LongSteps.{line_of_entry, lines_of_entries};

use crate::ArchiveFault;
use crate::listing::put_free;
use crate::opening::volume_of;
use name_spelling::put_spelled;
use os8_dir::{DirEntry, DirFault, Directory, Name};
use refusals::SessionFault;
use refusals::text_lines::{TextLine, put, put_number};
use std::alloc::{AllocError, Global};
use word12::Word;

/// Lists each file of the volume of an image, in order of their blocks, and then the free blocks. It shows the file's name, its
/// length in blocks, its first block, counted from 0, and its information words in octal. An image is refused as `list` does it (OS/8
/// Software Support Manual; the lines are this project's profile).
pub fn list_long(alloc: Global, image: &[u8]) -> Result<Vec<u8>, ArchiveFault>
    ensures { ListsLong image.now result }
{
    let mut volume = volume_of(alloc, image)?;
    match Directory::read(alloc, &mut volume) {
        Err(DirFault::Memory) => Err(ArchiveFault::Refused(SessionFault::Memory)),
        Err(fault) => Err(ArchiveFault::Directory(fault)),
        Ok(directory) => {
            let mut text = Vec::new(alloc);
            put_list(&directory, &mut text)?;
            Ok(text)
        }
    }
}

/// Appends the lines of a directory.
fn put_list(directory: &Directory, out: &mut Vec<u8>) -> Result<(), AllocError>
    ensures { OnOk result (out.new.items ≡ out.old.items ++ long_lines directory.now) }
{
    let first = directory.first_block();
    let info = directory.information_words();
    put_files(info, first, directory.entries(), out)?;
    put_free(directory.free(), out)?;
    Ok(())
}

/// Appends the lines of the files among entries, the first of which begins at a block.
fn put_files(
    info: usize,
    first: usize,
    entries: &[DirEntry],
    out: &mut Vec<u8>,
) -> Result<(), AllocError>
    requires few { info ≤ 10 }
    requires inside { first + total entries.now ≤ MOST_BLOCKS }
    ensures { OnOk result (out.new.items ≡ out.old.items ++ lines_of_entries info first entries.now) }
{
    let mut place = first;
    let mut rest = entries;
    while let [entry, others @ ..] = rest {
        put_entry(info, place, entry, out)?;
        place += entry.length();
        rest = others;
    }
    Ok(())
}

/// Appends the line of an entry that begins at a block, where it is a file.
fn put_entry(
    info: usize,
    place: usize,
    entry: &DirEntry,
    out: &mut Vec<u8>,
) -> Result<(), AllocError>
    requires { info ≤ 10 }
    ensures { OnOk result (out.new.items ≡ out.old.items ++ line_of_entry info place entry.now) }
{
    match entry {
        DirEntry::File {
            name,
            info: words,
            length,
        } => {
            put_extent(*name, *length, place, out)?;
            let (shown, _zeros) = words.split_at(info);
            put_information(shown, out)?;
            out.push(b'\n')?;
            Ok(())
        }
        DirEntry::Empty { .. } => Ok(()),
    }
}

/// Appends a name, how many blocks its file has, and the first of them.
fn put_extent(name: Name, size: usize, place: usize, out: &mut Vec<u8>) -> Result<(), AllocError>
    ensures { OnOk result (out.new.items
        ≡ out.old.items ++ (text_of name ++ 0o40 ∷ decimal size ++ 0o40 ∷ decimal place)) }
{
    let mut line = TextLine::new();
    put_spelled(&mut line, name);
    put(&mut line, b" ");
    put_number(&mut line, size as u64);
    put(&mut line, b" ");
    put_number(&mut line, place as u64);
    out.extend_from_slice(line.as_slice())
}

/// Appends information words in octal.
fn put_information(words: &[Word], out: &mut Vec<u8>) -> Result<(), AllocError>
    ensures { OnOk result (out.new.items ≡ out.old.items ++ information_text words.now) }
{
    let mut rest = words;
    while let [word, others @ ..] = rest {
        out.push(b' ')?;
        out.extend_from_slice(&word.octal4())?;
        rest = others;
    }
    Ok(())
}
