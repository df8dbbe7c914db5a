ghost use Rattle.std.specs.Prelude.{◌≡◌, ℕ, List, [], ◌∷◌, ◌++◌, Ok, OnOk, map};
ghost use Rattle.os8_dir.specs.Found.{IsDirectory};
ghost use Rattle.os8_dir.specs.Reading.{directory_of};
ghost use Rattle.os8_files.specs.Calls.{IsReady};
ghost use Rattle.archive_files.specs.Asking.{target_of};
ghost use Rattle.archive_files.specs.Deleting.{DeletesFiles};
ghost use Rattle.archive_files.specs.ChangeSteps.{DeletesAll, DeletesOne};

use crate::asking::name_of;
use crate::opening::{image_of, open_image};
use crate::{ArchiveFault, Asked, DeleteFault};
use os8_dir::{Directory, Name};
use os8_files::{FileFault, FileService};
use refusals::SessionFault;
use std::alloc::{AllocError, Global};
use volume_image::MemoryVolume;

/// An image without the files that were taken out of it.
#[derive(Debug, Drop)]
pub struct DeletedImage {
    pub bytes: Vec<u8>,
    /// The names of these files, in the order in which they were asked for.
    pub names: Vec<Name>,
}

/// The image without some files: all that are asked for are taken out, or none. The image that is handed in stays as it is (OS/8
/// Software Support Manual; the faults and their order are this project's profile). The place of the first that is refused is
/// given.
pub fn delete(alloc: Global, image: &[u8], asked: &[Asked]) -> Result<DeletedImage, DeleteFault>
    ensures { DeletesFiles image.now (map target_of asked.now) result }
{
    let (mut files, directory) = open_image(alloc, image)?;
    let mut names = Vec::new(alloc);
    let deleted = delete_all(alloc, &mut files, &directory, asked, &mut names);
    let volume = files.into_store();
    match deleted {
        Err(FileFault::Memory) => Err(DeleteFault::Archive(ArchiveFault::Refused(
            SessionFault::Memory,
        ))),
        Err(fault) => Err(DeleteFault::Name(names.len(), fault)),
        Ok(()) => {
            let bytes = image_of(alloc, &volume)?;
            Ok(DeletedImage { bytes, names })
        }
    }
}

/// Takes files out of a volume with this directory, one after the other, and keeps their names.
fn delete_all(
    alloc: Global,
    files: &mut FileService<MemoryVolume>,
    directory: &Directory,
    asked: &[Asked],
    names: &mut Vec<Name>,
) -> Result<(), FileFault>
    requires ready { IsReady files.old }
    requires free { files.old.holds ≡ [] }
    requires directory { directory_of files.old.blocks ≡ Ok directory.now }
    requires sound { (volume : ℕ) × IsDirectory volume directory.now }
    requires begun { names.old.items ≡ [] }
    ensures { DeletesAll files.old (map target_of asked.now) result names.new.items files.new }
{
    for one in asked {
        let name = delete_one(alloc, files, directory, one)?;
        keep(names, name)?;
    }
    Ok(())
}

/// Keeps one more name.
fn keep(names: &mut Vec<Name>, name: Name) -> Result<(), AllocError>
    ensures { OnOk result (names.new.items ≡ names.old.items ++ name ∷ []) }
{
    names.push(name)?;
    Ok(())
}

/// Takes a file out of a volume and answers its name. The file is asked for of the volume of this directory.
fn delete_one(
    alloc: Global,
    files: &mut FileService<MemoryVolume>,
    directory: &Directory,
    asked: &Asked,
) -> Result<Name, FileFault>
    requires ready { IsReady files.old }
    requires free { files.old.holds ≡ [] }
    requires sound { (volume : ℕ) × IsDirectory volume directory.now }
    ensures { (was : List (List ℕ)) → directory_of was ≡ Ok directory.now
        → DeletesOne was files.old (target_of asked.now) result files.new }
{
    let name = name_of(directory, asked)?;
    files.delete(alloc, &name)?;
    Ok(name)
}
