ghost use Rattle.std.specs.Prelude.{◌≡◌, ◌+◌, ◌≤◌, ℕ, List, Ok, IfOk, IfSome};
ghost use Rattle.os8_dir.specs.Entries.{IsNamed, total};
ghost use Rattle.os8_dir.specs.Found.{IsDirectory};
ghost use Rattle.os8_dir.specs.Reading.{directory_of};
ghost use Rattle.word12.specs.declared.sizes.TheConstants.{MOST_BLOCKS};
ghost use Rattle.archive_files.specs.Asking as spec;
ghost use Rattle.archive_files.specs.Asking.{target_of};
ghost use Rattle.archive_files.specs.AskSteps.{FindsFile, FindsName, name_of_entries, name_of_entry};

use crate::ArchiveFault;
use crate::opening::open_image;
use name_spelling::typed_name;
use os8_dir::{DirEntry, Directory, Name};
use os8_files::{FileFault, FileService};
use refusals::SessionFault;
use std::alloc::Global;
use volume_image::MemoryVolume;

/// Which file of a volume is asked for.
#[derive(PartialEq, Eq, Debug, Drop)]
pub enum Asked {
    /// The one of the name that this text spells.
    Name(String),
    /// The one whose first block this is, counted from 0.
    At(usize),
}

/// The files of an image, and the name of the one that is asked for.
pub fn find_name(
    alloc: Global,
    image: &[u8],
    asked: &Asked,
) -> Result<(FileService<MemoryVolume>, Name), ArchiveFault>
    ensures file { FindsFile image.now (target_of asked.now) result }
    ensures named { IfOk result (λ found. IsNamed found.1) }
{
    let (files, directory) = open_image(alloc, image)?;
    match name_of(&directory, asked) {
        Err(fault) => Err(ArchiveFault::Refused(SessionFault::File(fault))),
        Ok(name) => Ok((files, name)),
    }
}

/// The name of the file that is asked for of the volume of a directory.
pub fn name_of(directory: &Directory, asked: &Asked) -> Result<Name, FileFault>
    requires { (volume : ℕ) × IsDirectory volume directory.now }
    ensures name { (blocks : List (List ℕ)) → directory_of blocks ≡ Ok directory.now
        → FindsName blocks (target_of asked.now) result }
    ensures named { IfOk result IsNamed }
{
    match asked {
        Asked::Name(text) => match typed_name(text.as_bytes()) {
            None => Err(FileFault::BadName),
            Some(name) => Ok(name),
        },
        Asked::At(place) => match name_at(directory, *place) {
            None => Err(FileFault::NotFound),
            Some(name) => Ok(name),
        },
    }
}

/// The name of the file of a directory that begins at a block.
fn name_at(directory: &Directory, place: usize) -> Option<Name>
    requires { (volume : ℕ) × IsDirectory volume directory.now }
    ensures name { result ≡ spec.name_at place (Ok directory.now) }
    ensures named { IfSome result IsNamed }
{
    name_among(directory.first_block(), directory.entries(), place)
}

/// The name of the file among these entries that begins at a block, where the first of them begins at another.
fn name_among(first: usize, entries: &[DirEntry], place: usize) -> Option<Name>
    requires { first + total entries.now ≤ MOST_BLOCKS }
    ensures { result ≡ name_of_entries place first entries.now }
{
    let mut at = first;
    let mut rest = entries;
    while let [entry, others @ ..] = rest {
        if let Some(name) = beginning(entry, at, place) {
            return Some(name);
        }
        at += entry.length();
        rest = others;
    }
    None
}

/// The name of an entry that begins at a block, where it is a file that begins at this one.
fn beginning(entry: &DirEntry, at: usize, place: usize) -> Option<Name>
    ensures { result ≡ name_of_entry place at entry.now }
{
    if at != place {
        return None;
    }
    entry.name()
}
