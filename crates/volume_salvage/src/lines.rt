//! The lines of files that a new volume has not, or not whole.
ghost use Rattle.std.specs.Prelude.{◌≡◌, ◌+◌, ◌≤◌, ◌++◌, length, OnOk};
ghost use Rattle.arrayvec.specs.ArrayVec.{array_vec_len};
ghost use Rattle.volume_salvage.specs.Salvaging as spec;
ghost use Rattle.volume_salvage.specs.Salvaging.{cut_line, extent_text, file_line, file_lines, reason_text, rescued_line};

use crate::Refusal;
use archive_survey::FoundFile;
use name_spelling::put_spelled;
use os8_dir::Name;
use refusals::text_lines::{TextLine, put, put_number};
use std::alloc::AllocError;
use word12::Word;

/// Appends the lines of files, by why each is not kept.
pub fn put_files(
    files: &[FoundFile],
    refusals: &[Option<Refusal>],
    out: &mut Vec<u8>,
) -> Result<(), AllocError>
    ensures { OnOk result (out.new.items ≡ out.old.items ++ file_lines files.now refusals.now) }
{
    let mut files_left = files;
    let mut refusals_left = refusals;
    while let [file, more @ ..] = files_left {
        let [refusal, others @ ..] = refusals_left else {
            return Ok(());
        };
        put_file(file, *refusal, out)?;
        files_left = more;
        refusals_left = others;
    }
    Ok(())
}

/// Appends the line of a file that is not kept for this, or of one that is kept without some of its information words.
fn put_file(file: &FoundFile, refusal: Option<Refusal>, out: &mut Vec<u8>) -> Result<(), AllocError>
    ensures { OnOk result (out.new.items ≡ out.old.items ++ file_line file.now refusal) }
{
    match refusal {
        Some(refusal) => {
            put_reason(refusal, out)?;
            put_place(b"LEFT FILE ", file.name, file.place, file.size, out)
        }
        None => {
            if is_whole(file) {
                return Ok(());
            }
            put_cut(file.name, file.place, file.size, out)
        }
    }
}

/// Appends the line of a refusal.
fn put_reason(refusal: Refusal, out: &mut Vec<u8>) -> Result<(), AllocError>
    ensures { OnOk result (out.new.items ≡ out.old.items ++ reason_text refusal) }
{
    match refusal {
        Refusal::NoName(_) => out.extend_from_slice(b"? 4.5 BAD NAME\n"),
        Refusal::NotWhole(_) => out.extend_from_slice(b"? 4.11 NOTHING WRITTEN\n"),
        Refusal::NoRoom(_, largest) => put_no_room(largest, out),
        Refusal::DirectoryFull(_) => out.extend_from_slice(b"? 4.3 DIRECTORY FULL\n"),
        Refusal::Failed(_) => out.extend_from_slice(b"? 10 MEMORY\n"),
    }
}

fn put_no_room(largest: usize, out: &mut Vec<u8>) -> Result<(), AllocError>
    ensures { OnOk result (out.new.items ≡ out.old.items ++ spec.no_room_line largest) }
{
    let mut line = TextLine::new();
    put(&mut line, b"? 4.2 NO ROOM ");
    put_number(&mut line, largest as u64);
    put(&mut line, b"\n");
    out.extend_from_slice(line.as_slice())
}

/// Appends the line of a file that lacks some of its information words, by its name, its first block and its length.
pub fn put_cut(name: Name, place: usize, size: usize, out: &mut Vec<u8>) -> Result<(), AllocError>
    ensures { OnOk result (out.new.items ≡ out.old.items ++ cut_line name place size) }
{
    put_place(b"CUT FILE ", name, place, size, out)
}

/// Appends a line of at most ten bytes and a file's name, first block and length.
fn put_place(
    head: &[u8],
    name: Name,
    place: usize,
    size: usize,
    out: &mut Vec<u8>,
) -> Result<(), AllocError>
    requires { length head.now ≤ 10 }
    ensures { OnOk result (out.new.items ≡ out.old.items ++ (head.now ++ extent_text name place size)) }
{
    let mut line = TextLine::new();
    put(&mut line, head);
    put_spelled(&mut line, name);
    put(&mut line, b" ");
    put_number(&mut line, place as u64);
    put(&mut line, b" ");
    put_number(&mut line, size as u64);
    put(&mut line, b"\n");
    out.extend_from_slice(line.as_slice())
}

/// Whether a file has no information word after the first, or these are 0.
fn is_whole(file: &FoundFile) -> bool
    ensures { result ≡ spec.is_whole file.now }
{
    let (_, more) = file.info.split_at(1);
    are_zeros(more)
}

/// Whether words are all 0.
fn are_zeros(words: &[Word]) -> bool
    ensures { result ≡ spec.are_zeros words.now }
{
    let mut rest = words;
    while let [word, others @ ..] = rest {
        if word.get() != 0 {
            return false;
        }
        rest = others;
    }
    true
}

/// Appends the last line, by how many files are kept.
pub fn put_rescued(files: usize, out: &mut Vec<u8>) -> Result<(), AllocError>
    ensures { OnOk result (out.new.items ≡ out.old.items ++ rescued_line files) }
{
    let mut line = TextLine::new();
    put(&mut line, b"RESCUED ");
    put_number(&mut line, files as u64);
    put(&mut line, b"\n");
    out.extend_from_slice(line.as_slice())
}

/// How many files are kept.
pub fn count_kept(refusals: &[Option<Refusal>]) -> usize
    ensures { result ≡ spec.count_kept refusals.now }
{
    let mut kept: usize = 0;
    let mut rest = refusals;
    while let [refusal, others @ ..] = rest {
        let one = one_if_kept(refusal);
        kept += one;
        rest = others;
    }
    kept
}

fn one_if_kept(refusal: &Option<Refusal>) -> usize
    ensures one { result ≡ spec.one_if_kept refusal.now }
    ensures most { result ≤ 1 }
{
    match refusal {
        None => 1,
        Some(_) => 0,
    }
}
