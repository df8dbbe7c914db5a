ghost use Rattle.std.specs.Prelude.{◌≡◌, ◌/◌, ◌++◌, ◌∷◌, [], nat_lt, option_copied, slice_index, OnOk};
ghost use Rattle.os8_dir.specs.Entries.{IsNamed};
ghost use Rattle.os8_files.specs.Calls.{IsReady};
ghost use Rattle.archive_many.specs.Putting.{PutsAll};
ghost use Rattle.archive_many.specs.PutSteps.{PutsFile, PutsFiles};

use crate::ManyFault;
use archive_files::parts::{image_of, mount_image, put_informed, stored_words};
use archive_files::{ArchiveFault, PutForm};
use os8_dir::Name;
use os8_dir::laws::{directory_numbers, rooms};
use os8_files::{FileFault, FileService};
use refusals::SessionFault;
use std::alloc::{AllocError, Global};
use volume_image::MemoryVolume;
use word12::{BLOCK, Word};

/// A file of the host that is to be put.
#[derive(Debug, Drop)]
pub struct NewFile {
    pub name: Name,
    pub bytes: Vec<u8>,
    pub form: PutForm,

    /// The word of its date, if it has one of its own, which is then its first information word.
    pub date: Option<Word>,

    /// The year of that date, since a word alone means one of each eight. No file on a volume has it.
    pub year: Option<u16>,
}

/// An image with files that were put into it.
#[derive(Debug, Drop)]
pub struct ManyImage {
    pub bytes: Vec<u8>,
    /// How many blocks each of the files has, in their order.
    pub blocks: Vec<usize>,
}

/// The image with some files, put one after the other as `archive_files::put` does it, all or none. Each is in place of an older file of
/// its name, whose information words it keeps where none are given. A file with a date of its own has that as its information words. The
/// image that is handed in stays as it is (OS/8 Software Support Manual; the faults and their order are this project's profile). The place
/// of the first file that is refused is given.
pub fn put_all(
    alloc: Global,
    image: &[u8],
    files: &[NewFile],
    info: Option<&[Word]>,
) -> Result<ManyImage, ManyFault>
    ensures { PutsAll image.now files.now (option_copied info.entry) result }
{
    rooms();
    directory_numbers();
    let mut service = mount_image(alloc, image)?;
    let mut blocks = Vec::new(alloc);
    let put = put_files(alloc, &mut service, files, info, &mut blocks);
    let volume = service.into_store();
    match put {
        Err(SessionFault::Memory) => {
            Err(ManyFault::Archive(ArchiveFault::Refused(SessionFault::Memory)))
        }
        Err(fault) => Err(ManyFault::File(blocks.len(), fault)),
        Ok(()) => {
            let bytes = image_of(alloc, &volume)?;
            Ok(ManyImage { bytes, blocks })
        }
    }
}

/// Puts files into a volume, one after the other, and appends how many blocks each has.
fn put_files(
    alloc: Global,
    service: &mut FileService<MemoryVolume>,
    files: &[NewFile],
    info: Option<&[Word]>,
    blocks: &mut Vec<usize>,
) -> Result<(), SessionFault>
    requires ready { IsReady service.old }
    requires free { service.old.holds ≡ [] }
    ensures { PutsFiles service.old (option_copied info.entry) files.now result blocks.old.items
        blocks.new.items service.new }
{
    let mut rest = files;
    while let [file, others @ ..] = rest {
        if !has_first_word(file.name) {
            return Err(SessionFault::File(FileFault::BadName));
        }
        let count = put_file(alloc, service, file, info)?;
        push_count(blocks, count)?;
        rest = others;
    }
    Ok(())
}

/// Appends a number of blocks.
fn push_count(blocks: &mut Vec<usize>, count: usize) -> Result<(), AllocError>
    ensures { OnOk result (blocks.new.items ≡ blocks.old.items ++ count ∷ []) }
{
    blocks.push(count)?;
    Ok(())
}

/// Puts a file that has a name into a volume, and answers how many blocks it has.
fn put_file(
    alloc: Global,
    service: &mut FileService<MemoryVolume>,
    file: &NewFile,
    info: Option<&[Word]>,
) -> Result<usize, SessionFault>
    requires named { IsNamed file.now.name }
    requires ready { IsReady service.old }
    requires free { service.old.holds ≡ [] }
    ensures { PutsFile service.old (option_copied info.entry) file.now result service.new }
{
    let words = stored_words(alloc, &file.bytes, file.form)?;
    match file.date {
        Some(date) => put_informed(alloc, service, file.name, &words, Some(&[date]))?,
        None => put_informed(alloc, service, file.name, &words, info)?,
    }
    Ok(words.len() / BLOCK)
}

/// Whether the first of some words is not 0.
fn begins_high(words: &[Word]) -> bool
    ensures { result ≡ nat_lt 0 (slice_index words.now 0) }
{
    match words {
        [] => false,
        [first, ..] => *first > Word::ZERO,
    }
}

/// Whether the first word of a name is not 0.
fn has_first_word(name: Name) -> bool
    ensures { result ≡ nat_lt 0 (name / 0o1000000000000) }
{
    let words = name.words();
    begins_high(&words)
}
