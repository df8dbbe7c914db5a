ghost use Rattle.std.specs.Prelude.{◌≡◌, ℕ, List, length, Ok, IfOk, IfErr};
ghost use Rattle.os8_dir.specs.Found.{IsDirectory};
ghost use Rattle.os8_dir.specs.Reading.{directory_of};
ghost use Rattle.volume_image.specs.Image.{IsImageOf};
ghost use Rattle.archive_files.specs.Opening.{IsUnopened};
ghost use Rattle.archive_files.specs.Putting.{IsMounted};

use crate::ArchiveFault;
use os8_dir::{DirFault, Directory};
use os8_files::FileService;
use refusals::SessionFault;
use std::alloc::{AllocError, Global};
use volume_image::{ImageFault, MemoryVolume};

/// The volume of an image, of 8 to 4095 blocks of 256 words, two bytes each. Other bytes are refused for their first fault (this
/// project's profile).
pub fn volume_of(alloc: Global, image: &[u8]) -> Result<MemoryVolume, ArchiveFault>
    ensures volume { IfOk result (λ volume. IsImageOf image.now volume.blocks) }
    ensures fault { IfErr result (IsUnopened image.now) }
{
    match MemoryVolume::from_bytes(alloc, image) {
        Ok(volume) => Ok(volume),
        Err(ImageFault::Memory) => Err(ArchiveFault::Refused(SessionFault::Memory)),
        Err(fault) => Err(ArchiveFault::Image(fault)),
    }
}

/// The files of an image, of which none is held. An image is refused for its first fault, or for the first of its directory (OS/8 Software
/// Support Manual; the faults and their order are this project's profile).
pub fn mount_image(alloc: Global, image: &[u8]) -> Result<FileService<MemoryVolume>, ArchiveFault>
    ensures files { IfOk result (IsMounted image.now) }
    ensures fault { IfErr result (IsUnopened image.now) }
{
    let volume = volume_of(alloc, image)?;
    mounted_volume(alloc, volume)
}

/// The files of a volume.
fn mounted_volume(
    alloc: Global,
    volume: MemoryVolume,
) -> Result<FileService<MemoryVolume>, ArchiveFault>
    ensures files { (image : List ℕ) → IsImageOf image volume.blocks
        → IfOk result (λ files. IsMounted image files × (files.blocks ≡ volume.blocks)) }
    ensures fault { (image : List ℕ) → IsImageOf image volume.blocks → IfErr result (IsUnopened image) }
{
    match FileService::mount(alloc, volume) {
        Ok(files) => Ok(files),
        Err((_, DirFault::Memory)) => Err(ArchiveFault::Refused(SessionFault::Memory)),
        Err((_, fault)) => Err(ArchiveFault::Directory(fault)),
    }
}

/// The files of an image, and the directory that they were found in.
pub fn open_image(
    alloc: Global,
    image: &[u8],
) -> Result<(FileService<MemoryVolume>, Directory), ArchiveFault>
    ensures files { IfOk result (λ opened. IsMounted image.now opened.0) }
    ensures directory { IfOk result (λ opened. directory_of opened.0.blocks ≡ Ok opened.1) }
    ensures sound { IfOk result (λ opened. IsDirectory (length opened.0.blocks) opened.1) }
    ensures fault { IfErr result (IsUnopened image.now) }
{
    let mut volume = volume_of(alloc, image)?;
    match Directory::read(alloc, &mut volume) {
        Err(DirFault::Memory) => Err(ArchiveFault::Refused(SessionFault::Memory)),
        Err(fault) => Err(ArchiveFault::Directory(fault)),
        Ok(directory) => {
            let files = mounted_volume(alloc, volume)?;
            Ok((files, directory))
        }
    }
}

/// The image of a volume, its words in order, two bytes each, for which memory may be wanted (this project's profile).
pub fn image_of(alloc: Global, volume: &MemoryVolume) -> Result<Vec<u8>, AllocError>
    ensures { IfOk result (λ bytes. IsImageOf bytes.items volume.now.blocks) }
{
    match volume.to_bytes(alloc) {
        Err(ImageFault::Memory) => Err(AllocError),
        Err(_) => unreachable!(),
        Ok(bytes) => Ok(bytes),
    }
}
