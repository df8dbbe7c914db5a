//! The list of those files of a volume whose names are like words.
ghost use Rattle.std.specs.Prelude.{◌≡◌, ◌++◌, [], if◌then◌else◌, map, OnOk};
ghost use Rattle.archive_files.specs.Listing.{listed_line};
ghost use Rattle.archive_many.specs.Listing.{ListsLike, like_lines};

use archive_files::ArchiveFault;
use archive_files::parts::{open_image, put_file, put_free};
use name_spelling::is_chosen_by;
use os8_dir::Name;
use os8_files::FileFault;
use refusals::SessionFault;
use std::alloc::{AllocError, Global};

/// The lines that `archive_files::list` has of the files whose names are like one of some words, and that of the free blocks of the whole
/// volume (this project's profile).
pub fn list_like(alloc: Global, image: &[u8], words: &[String]) -> Result<Vec<u8>, ArchiveFault>
    ensures { ListsLike (map (λ word. word.bytes.items) words.now) image.now result }
{
    let (files, _directory) = open_image(alloc, image)?;
    match files.listing(alloc) {
        Err(FileFault::Memory) => Err(ArchiveFault::Refused(SessionFault::Memory)),
        Err(_) => unreachable!(),
        Ok(lengths) => {
            let mut text = Vec::new(alloc);
            put_like(words, &lengths, &mut text)?;
            put_free(files.free(), &mut text)?;
            Ok(text)
        }
    }
}

/// Appends the lines of the files whose names are like one of some words.
fn put_like(
    words: &[String],
    lengths: &[(Name, usize)],
    out: &mut Vec<u8>,
) -> Result<(), AllocError>
    ensures { OnOk result (out.new.items
        ≡ out.old.items ++ like_lines (map (λ word. word.bytes.items) words.now) lengths.now) }
{
    let mut rest = lengths;
    while let [file, others @ ..] = rest {
        put_if(is_chosen_by(words, file.0), file.0, file.1, out)?;
        rest = others;
    }
    Ok(())
}

/// Appends the line of a file of so many blocks, if it is listed.
fn put_if(is_listed: bool, name: Name, size: usize, out: &mut Vec<u8>) -> Result<(), AllocError>
    ensures { OnOk result (out.new.items
        ≡ out.old.items ++ (if is_listed then listed_line (name, size) else [])) }
{
    if is_listed {
        return put_file(name, size, out);
    }
    Ok(())
}
