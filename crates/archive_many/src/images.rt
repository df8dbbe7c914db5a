ghost use Rattle.std.specs.Prelude.{IfErr, IfOk};
ghost use Rattle.volume_image.specs.Image.{IsImageOf};
ghost use Rattle.archive_many.specs.Steps.{IsNoVolume};

use archive_files::ArchiveFault;
use refusals::SessionFault;
use std::alloc::Global;
use volume_image::{ImageFault, MemoryVolume};

/// The volume of an image, whatever its directory says.
pub fn volume_of(alloc: Global, image: &[u8]) -> Result<MemoryVolume, ArchiveFault>
    ensures volume { IfOk result (λ volume. IsImageOf image.now volume.blocks) }
    ensures fault { IfErr result (IsNoVolume image.now) }
{
    match MemoryVolume::from_bytes(alloc, image) {
        Ok(volume) => Ok(volume),
        Err(ImageFault::Memory) => Err(ArchiveFault::Refused(SessionFault::Memory)),
        Err(fault) => Err(ArchiveFault::Image(fault)),
    }
}
