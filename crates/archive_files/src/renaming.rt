ghost use Rattle.std.specs.Prelude.{◌≡◌, []};
ghost use Rattle.os8_dir.specs.Entries.{IsNamed};
ghost use Rattle.os8_files.specs.Calls.{IsReady};
ghost use Rattle.archive_files.specs.Asking.{target_of};
ghost use Rattle.archive_files.specs.Renaming.{RenamesFile};
ghost use Rattle.archive_files.specs.ChangeSteps.{GivesName, NamesFile};
ghost use Rattle.archive_files.specs.declared.faults.ArchiveFault.TheVariants.{Refused};
ghost use Rattle.archive_files.specs.declared.faults.RenameFault.TheVariants.{Archive};
ghost use Rattle.refusals.specs.declared.faults.SessionFault.TheVariants.{File};

use crate::asking::name_of;
use crate::opening::{image_of, open_image};
use crate::{ArchiveFault, Asked, RenameFault};
use name_spelling::typed_name;
use os8_dir::Name;
use os8_files::{FileFault, FileService};
use refusals::SessionFault;
use std::alloc::Global;
use volume_image::MemoryVolume;

/// An image in which a file has another name.
#[derive(Debug, Drop)]
pub struct RenamedImage {
    pub bytes: Vec<u8>,
    pub old_name: Name,
    pub new_name: Name,
}

/// The image in which a file has another name, which no file has. The image that is handed in stays as it is (OS/8 Software
/// Support Manual; the faults and their order are this project's profile).
pub fn rename(
    alloc: Global,
    image: &[u8],
    asked: &Asked,
    new_name: &[u8],
) -> Result<RenamedImage, RenameFault>
    ensures { RenamesFile image.now (target_of asked.now) new_name.now result }
{
    let (files, directory) = open_image(alloc, image)?;
    match typed_name(new_name) {
        None => Err(fault_of_rename(FileFault::BadName)),
        Some(new_name) => match name_of(&directory, asked) {
            Err(fault) => Err(fault_of_rename(fault)),
            Ok(old_name) => {
                let bytes = image_with_name(alloc, files, old_name, new_name)?;
                Ok(RenamedImage {
                    bytes,
                    old_name,
                    new_name,
                })
            }
        },
    }
}

/// What the file service refuses.
fn fault_of_rename(fault: FileFault) -> RenameFault
    ensures { result ≡ Archive (Refused (File fault)) }
{
    RenameFault::Archive(ArchiveFault::Refused(SessionFault::File(fault)))
}

/// The image in which a file has another name.
fn image_with_name(
    alloc: Global,
    mut files: FileService<MemoryVolume>,
    name: Name,
    new_name: Name,
) -> Result<Vec<u8>, RenameFault>
    requires named { IsNamed new_name }
    requires ready { IsReady files }
    requires free { files.holds ≡ [] }
    ensures { GivesName files name new_name result }
{
    let done = give_name(alloc, &mut files, name, new_name);
    let volume = files.into_store();
    done?;
    let bytes = image_of(alloc, &volume)?;
    Ok(bytes)
}

/// Gives a file of a volume another name.
fn give_name(
    alloc: Global,
    files: &mut FileService<MemoryVolume>,
    name: Name,
    new_name: Name,
) -> Result<(), RenameFault>
    requires named { IsNamed new_name }
    requires ready { IsReady files.old }
    requires free { files.old.holds ≡ [] }
    ensures { NamesFile files.old name new_name result files.new }
{
    if files.lookup(&name).is_none() {
        return Err(fault_of_rename(FileFault::NotFound));
    }
    if files.lookup(&new_name).is_some() {
        return Err(RenameFault::Exists);
    }
    match files.rename(alloc, &name, new_name) {
        Ok(()) => Ok(()),
        Err(FileFault::Memory) => Err(RenameFault::Archive(ArchiveFault::Refused(
            SessionFault::Memory,
        ))),
        Err(fault) => Err(fault_of_rename(fault)),
    }
}
