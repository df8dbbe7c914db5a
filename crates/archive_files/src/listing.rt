ghost use Rattle.std.specs.Prelude.{◌≡◌, ◌++◌, OnOk};
ghost use Rattle.refusals.specs.Listed.{free_line};
ghost use Rattle.archive_files.specs.Listing.{ListsFiles, listed_line, listed_lines};

use crate::ArchiveFault;
use crate::opening::open_image;
use name_spelling::put_spelled;
use os8_dir::Name;
use os8_files::FileFault;
use refusals::SessionFault;
use refusals::text_lines::{TextLine, put, put_number};
use std::alloc::{AllocError, Global};

/// The lines of `DIRECT` for the volume of an image: the files in name order with their lengths in blocks, and the free blocks. Each name
/// is shown as it is typed (this project's profile).
pub fn list(alloc: Global, image: &[u8]) -> Result<Vec<u8>, ArchiveFault>
    ensures { ListsFiles image.now result }
{
    let (files, _directory) = open_image(alloc, image)?;
    match files.listing(alloc) {
        Err(FileFault::Memory) => Err(ArchiveFault::Refused(SessionFault::Memory)),
        Err(_) => unreachable!(),
        Ok(lengths) => {
            let mut text = Vec::new(alloc);
            put_files(&lengths, &mut text)?;
            put_free(files.free(), &mut text)?;
            Ok(text)
        }
    }
}

/// Appends the lines of files.
fn put_files(lengths: &[(Name, usize)], out: &mut Vec<u8>) -> Result<(), AllocError>
    ensures { OnOk result (out.new.items ≡ out.old.items ++ listed_lines lengths.now) }
{
    let mut rest = lengths;
    while let [file, others @ ..] = rest {
        put_file(file.0, file.1, out)?;
        rest = others;
    }
    Ok(())
}

/// Appends the line of a file of so many blocks, as `list` has it.
pub fn put_file(name: Name, size: usize, out: &mut Vec<u8>) -> Result<(), AllocError>
    ensures { OnOk result (out.new.items ≡ out.old.items ++ listed_line (name, size)) }
{
    let mut line = TextLine::new();
    put_spelled(&mut line, name);
    put(&mut line, b" ");
    put_number(&mut line, size as u64);
    put(&mut line, b"\n");
    out.extend_from_slice(line.as_slice())
}

/// Appends the line of the free blocks.
pub fn put_free(free: usize, out: &mut Vec<u8>) -> Result<(), AllocError>
    ensures { OnOk result (out.new.items ≡ out.old.items ++ free_line free) }
{
    let mut line = TextLine::new();
    put(&mut line, b"FREE ");
    put_number(&mut line, free as u64);
    put(&mut line, b"\n");
    out.extend_from_slice(line.as_slice())
}
