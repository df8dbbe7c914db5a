//! The list of the files of a volume with where they lie, their information words and their dates.
ghost use Rattle.std.specs.Prelude.{◌≡◌, ◌+◌, ◌≤◌, ◌<◌, ◌∷◌, [], ◌++◌, decimal, length, map, OnOk};
ghost use Rattle.word12.specs.declared.sizes.TheConstants.{MOST_BLOCKS};
ghost use Rattle.os8_dates.specs.declared.years.TheConstants.{LAST_YEAR, LEAST_LAST};
ghost use Rattle.os8_dir.specs.Entries.{total};
ghost use Rattle.refusals.specs.Listed.{free_line};
ghost use Rattle.name_spelling.specs.Spelling.{text_of};
ghost use Rattle.archive_files.specs.LongListing.{information_text};
ghost use Rattle.show_commands.specs.Dates as spec;
ghost use Rattle.show_commands.specs.Dates.{ListsChosen, ListsDates, date_of_word, date_text, dated_lines};
ghost use Rattle.show_commands.specs.DateSteps.{line_of_entry, lines_of_entries};

use archive_files::ArchiveFault;
use archive_files::parts::volume_of;
use block_words::put_number;
use name_spelling::{is_chosen_by, put_name};
use os8_dates::{date_of, put_date};
use os8_dir::{DirEntry, DirFault, Directory, Name};
use refusals::SessionFault;
use std::alloc::{AllocError, Global};
use volume_index::last_in;
use word12::Word;

/// The files of an image in order of their blocks, with where they lie, their information words and their dates. A date is what the first
/// information word means among the eight years up to the one that is given, or else up to the one that the volume gives. An image is refused
/// as `archive_files::list` does it.
pub fn list_dated(alloc: Global, image: &[u8], year: Option<usize>) -> Result<Vec<u8>, ArchiveFault>
    ensures { ListsDates year image.now result }
{
    list_chosen(alloc, image, year, &[])
}

/// The same of those files that one of some words chooses, where there are words, and the free blocks of the whole volume.
pub fn list_chosen(
    alloc: Global,
    image: &[u8],
    year: Option<usize>,
    words: &[String],
) -> Result<Vec<u8>, ArchiveFault>
    ensures { ListsChosen year (map (λ word. word.bytes.items) words.now) image.now result }
{
    let mut volume = volume_of(alloc, image)?;
    let last = last_in(year, &volume);
    match Directory::read(alloc, &mut volume) {
        Err(DirFault::Memory) => Err(ArchiveFault::Refused(SessionFault::Memory)),
        Err(fault) => Err(ArchiveFault::Directory(fault)),
        Ok(directory) => {
            let mut text = Vec::new(alloc);
            put_list(&directory, last, words, &mut text)?;
            Ok(text)
        }
    }
}

/// Appends the lines of a directory.
fn put_list(
    directory: &Directory,
    last: u16,
    words: &[String],
    out: &mut Vec<u8>,
) -> Result<(), AllocError>
    requires least { LEAST_LAST ≤ last }
    requires most { last ≤ LAST_YEAR }
    ensures { OnOk result (out.new.items ≡ out.old.items ++ dated_lines last (map (λ word. word.bytes.items) words.now) directory.now) }
{
    let first = directory.first_block();
    let info = directory.information_words();
    put_files(last, info, first, directory.entries(), words, out)?;
    put_free(directory.free(), out)?;
    Ok(())
}

/// Appends the line of the free blocks.
fn put_free(free: usize, out: &mut Vec<u8>) -> Result<(), AllocError>
    ensures { OnOk result (out.new.items ≡ out.old.items ++ free_line free) }
{
    out.extend_from_slice(b"FREE ")?;
    put_number(out, free as u64)?;
    out.push(b'\n')?;
    Ok(())
}

/// Appends the lines of the files among entries, the first of which begins at a block.
fn put_files(
    last: u16,
    info: usize,
    first: usize,
    entries: &[DirEntry],
    words: &[String],
    out: &mut Vec<u8>,
) -> Result<(), AllocError>
    requires least { LEAST_LAST ≤ last }
    requires most { last ≤ LAST_YEAR }
    requires few { info ≤ 10 }
    requires inside { first + total entries.now ≤ MOST_BLOCKS }
    ensures { OnOk result (out.new.items ≡ out.old.items ++ lines_of_entries last info (map (λ word. word.bytes.items) words.now) first entries.now) }
{
    let mut place = first;
    let mut rest = entries;
    while let [entry, others @ ..] = rest {
        put_entry(last, info, place, entry, words, out)?;
        place += entry.length();
        rest = others;
    }
    Ok(())
}

/// Appends the line of an entry that begins at a block, where it is a file.
fn put_entry(
    last: u16,
    info: usize,
    place: usize,
    entry: &DirEntry,
    words: &[String],
    out: &mut Vec<u8>,
) -> Result<(), AllocError>
    requires least { LEAST_LAST ≤ last }
    requires most { last ≤ LAST_YEAR }
    requires few { info ≤ 10 }
    ensures { OnOk result (out.new.items ≡ out.old.items ++ line_of_entry last info (map (λ word. word.bytes.items) words.now) place entry.now) }
{
    match entry {
        DirEntry::File {
            name,
            info: given,
            length,
        } => {
            if !is_listed(words, *name) {
                return Ok(());
            }
            put_extent(*name, *length, place, out)?;
            let (given, _zeros) = given.split_at(info);
            put_words(given, out)?;
            put_first_date(last, given, out)?;
            out.push(b'\n')?;
            Ok(())
        }
        DirEntry::Empty { .. } => Ok(()),
    }
}

/// Whether a file is listed: one of some words chooses it, or there are none.
fn is_listed(words: &[String], name: Name) -> bool
    ensures { result ≡ spec.is_listed (map (λ word. word.bytes.items) words.now) name }
{
    words.is_empty() || is_chosen_by(words, name)
}

/// Appends a name, how many blocks its file has, and the first of them.
fn put_extent(name: Name, size: usize, place: usize, out: &mut Vec<u8>) -> Result<(), AllocError>
    ensures { OnOk result (out.new.items
        ≡ out.old.items ++ (text_of name ++ 0o40 ∷ decimal size ++ 0o40 ∷ decimal place)) }
{
    put_name(out, name)?;
    out.push(b' ')?;
    put_number(out, size as u64)?;
    out.push(b' ')?;
    put_number(out, place as u64)
}

/// Appends information words in octal.
fn put_words(words: &[Word], out: &mut Vec<u8>) -> Result<(), AllocError>
    ensures { OnOk result (out.new.items ≡ out.old.items ++ information_text words.now) }
{
    let mut rest = words;
    while let [word, others @ ..] = rest {
        put_word(*word, out)?;
        rest = others;
    }
    Ok(())
}

fn put_word(word: Word, out: &mut Vec<u8>) -> Result<(), AllocError>
    ensures { OnOk result (out.new.items ≡ out.old.items ++ information_text (word ∷ [])) }
{
    out.push(b' ')?;
    out.extend_from_slice(&word.octal4())
}

/// Appends the date that the first information word means, if it means one.
fn put_first_date(last: u16, words: &[Word], out: &mut Vec<u8>) -> Result<(), AllocError>
    requires least { LEAST_LAST ≤ last }
    requires most { last ≤ LAST_YEAR }
    ensures { OnOk result (out.new.items ≡ out.old.items ++ date_text last words.now) }
{
    match words {
        [] => Ok(()),
        [word, ..] => put_date_of(last, *word, out),
    }
}

fn put_date_of(last: u16, word: Word, out: &mut Vec<u8>) -> Result<(), AllocError>
    requires least { LEAST_LAST ≤ last }
    requires most { last ≤ LAST_YEAR }
    ensures { OnOk result (out.new.items ≡ out.old.items ++ date_of_word last word) }
{
    if date_of(word, last).is_none() {
        return Ok(());
    }
    out.push(b' ')?;
    put_date(out, word, last)
}
