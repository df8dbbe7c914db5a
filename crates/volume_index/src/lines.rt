ghost use Rattle.std.specs.Prelude.{◌≡◌, ◌≤◌, ◌++◌, ◌∷◌, [], OnOk};
ghost use Rattle.os8_dates.specs.declared.years.TheConstants.{LAST_YEAR, LEAST_LAST};
ghost use Rattle.volume_index.specs.Lines.{content, digest, index_line, place};

use crate::columns::{put_hexadecimal, put_kind, put_number, put_volume};
use file_kind::FileKind;
use md5::{Digest, Md5};
use name_spelling::put_name;
use os8_dates::put_date;
use os8_dir::Name;
use shown_text::put_quoted;
use std::alloc::AllocError;
use word12::Word;

/// What an index says of a file.
#[derive(Clone, Copy)]
pub struct IndexEntry {
    /// Which volume of a disk it is, from 1; none for a file of one volume.
    pub volume: Option<u64>,

    /// The file's first block, and its length in blocks.
    pub first: u64,
    pub length: u64,

    /// Its name.
    pub name: Name,

    /// Its date word, 0 where it has none.
    pub date: Word,

    /// What it holds.
    pub kind: FileKind,
}

/// Appends the line of a file. It has the image's name, its volume, the first block, the length in blocks, the name, the date of the eight
/// years up to a last one, and the kind. Last comes the MD5 digest (RFC 1321) of the bytes that are its words in the image. A tab stands
/// between two columns, and LF at the end (this project's profile).
pub fn put_index(
    text: &mut Vec<u8>,
    image: &[u8],
    entry: &IndexEntry,
    last: u16,
    words: &[u8],
) -> Result<(), AllocError>
    requires least { LEAST_LAST ≤ last }
    requires most { last ≤ LAST_YEAR }
    ensures { OnOk result (text.new.items ≡ text.old.items ++ index_line image.now entry.now last words.now) }
{
    put_quoted(text, image)?;
    put_place(text, entry)?;
    put_content(text, entry, last)?;
    put_digest(text, words)?;
    Ok(())
}

/// Appends the columns of where a file lies.
fn put_place(text: &mut Vec<u8>, entry: &IndexEntry) -> Result<(), AllocError>
    ensures { OnOk result (text.new.items ≡ text.old.items ++ place entry.now) }
{
    put_tab(text)?;
    put_volume(text, entry.volume)?;
    put_tab(text)?;
    put_number(text, entry.first)?;
    put_tab(text)?;
    put_number(text, entry.length)?;
    Ok(())
}

/// Appends the columns of what a file is.
fn put_content(text: &mut Vec<u8>, entry: &IndexEntry, last: u16) -> Result<(), AllocError>
    requires least { LEAST_LAST ≤ last }
    requires most { last ≤ LAST_YEAR }
    ensures { OnOk result (text.new.items ≡ text.old.items ++ content entry.now last) }
{
    put_tab(text)?;
    put_name(text, entry.name)?;
    put_tab(text)?;
    put_date(text, entry.date, last)?;
    put_tab(text)?;
    put_kind(text, entry.kind)?;
    Ok(())
}

/// Appends the column of a digest, and ends the line.
fn put_digest(text: &mut Vec<u8>, words: &[u8]) -> Result<(), AllocError>
    ensures { OnOk result (text.new.items ≡ text.old.items ++ digest words.now) }
{
    let mut hasher = Md5::new();
    hasher.update(words);
    let sum = hasher.finalize();
    put_tab(text)?;
    put_hexadecimal(text, &sum)?;
    text.push(b'\n')?;
    Ok(())
}

/// Appends a tab.
fn put_tab(text: &mut Vec<u8>) -> Result<(), AllocError>
    ensures { OnOk result (text.new.items ≡ text.old.items ++ 0o11 ∷ []) }
{
    text.push(b'\t')?;
    Ok(())
}
