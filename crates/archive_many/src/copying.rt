//! Files of one image that are put into another, all or none.
ghost use Rattle.std.specs.Prelude.{◌≡◌, IfOk, option_copied};
ghost use Rattle.archive_many.specs.Copying as spec;
ghost use Rattle.archive_many.specs.Copying.{CopiesAll};
ghost use Rattle.archive_many.specs.CopySteps.{CopiesEach, CopiesNext, RefusesOlder};

use crate::VolumeFile;
use crate::emptying::is_among;
use crate::faults::CopyAllFault;
use crate::opened::open;
use archive_files::{Asked, copy};
use std::alloc::{AllocError, Global};

/// The image into which these files of another image are put, each as `archive_files::copy` does it, all or none. A new name is for a list of one.
/// Both images that are handed in stay as they are. None of the files may be there by its name, unless older ones may go (OS/8 Software Support
/// Manual; the faults and their order are this project's profile).
pub fn copy_all(
    alloc: Global,
    from: &[u8],
    files: &[VolumeFile],
    new_name: Option<&[u8]>,
    to: &[u8],
    is_forced: bool,
) -> Result<Vec<u8>, CopyAllFault>
    ensures { CopiesAll from.now to.now (option_copied new_name.entry) files.now is_forced result }
{
    refuse_older(alloc, files, to, is_forced)?;
    let image = copy_of(alloc, to)?;
    copy_each(alloc, from, files, new_name, image)
}

/// Refuses the first of these files of whose name the volume in an image has one, unless older ones may go.
fn refuse_older(
    alloc: Global,
    files: &[VolumeFile],
    to: &[u8],
    is_forced: bool,
) -> Result<(), CopyAllFault>
    ensures { RefusesOlder is_forced to.now files.now result }
{
    let volume = open(alloc, to)?;
    let older = volume.files(alloc)?;
    match first_kept(is_forced, &older, files) {
        Some(file) => Err(CopyAllFault::Exists(file)),
        None => Ok(()),
    }
}

/// The first of these files whose name one of the older files has, where none of those may go.
fn first_kept(is_forced: bool, older: &[VolumeFile], files: &[VolumeFile]) -> Option<VolumeFile>
    ensures { result ≡ spec.first_kept is_forced older.now files.now }
{
    if is_forced {
        return None;
    }
    first_there(older, files)
}

/// The first of these files whose name one of the older files has.
fn first_there(older: &[VolumeFile], files: &[VolumeFile]) -> Option<VolumeFile>
    ensures { result ≡ spec.first_there older.now files.now }
{
    let mut rest = files;
    while let [file, others @ ..] = rest {
        if is_among(older, file.name) {
            return Some(*file);
        }
        rest = others;
    }
    None
}

fn copy_of(alloc: Global, bytes: &[u8]) -> Result<Vec<u8>, AllocError>
    ensures { IfOk result (λ copy. copy.items ≡ bytes.now) }
{
    let mut copy = Vec::new(alloc);
    copy.extend_from_slice(bytes)?;
    Ok(copy)
}

/// The image into which these files are put, one after the other.
fn copy_each(
    alloc: Global,
    from: &[u8],
    files: &[VolumeFile],
    new_name: Option<&[u8]>,
    to: Vec<u8>,
) -> Result<Vec<u8>, CopyAllFault>
    ensures { CopiesEach from.now to.items (option_copied new_name.entry) files.now result }
{
    let mut image = to;
    let mut rest = files;
    while let [file, others @ ..] = rest {
        image = copy_next(alloc, from, file, new_name, &image)?;
        rest = others;
    }
    Ok(image)
}

/// The image into which a file is put.
fn copy_next(
    alloc: Global,
    from: &[u8],
    file: &VolumeFile,
    new_name: Option<&[u8]>,
    to: &[u8],
) -> Result<Vec<u8>, CopyAllFault>
    ensures { CopiesNext from.now to.now (option_copied new_name.entry) file.now result }
{
    match copy(alloc, from, &Asked::At(file.place), to, new_name) {
        Ok(new) => Ok(new.bytes),
        Err(fault) => Err(CopyAllFault::File(*file, fault)),
    }
}
