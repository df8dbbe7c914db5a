ghost use Rattle.std.specs.Prelude.{◌≡◌, [], IfOk};
ghost use Rattle.os8_files.specs.Calls.{IsReady};
ghost use Rattle.archive_files.specs.Squeezing.{SqueezesFiles};
ghost use Rattle.archive_files.specs.ChangeSteps.{SqueezesAll};

use crate::ArchiveFault;
use crate::opening::{image_of, mount_image};
use os8_files::{FileFault, FileService, Squeezed};
use refusals::SessionFault;
use std::alloc::Global;
use volume_image::MemoryVolume;

/// An image in which no file has a free block below it.
#[derive(Debug, Drop)]
pub struct SqueezedImage {
    pub bytes: Vec<u8>,
    /// How many files were moved, each once.
    pub move_count: usize,
}

/// The image with the same files, moved down so none has a free block below it. The image that is handed in stays as it is (OS/8
/// Software Support Manual; the order of the moves is this project's profile). Where the directory has no room for the entries of a
/// move it is refused.
pub fn squeeze(alloc: Global, image: &[u8]) -> Result<SqueezedImage, ArchiveFault>
    ensures { SqueezesFiles image.now result }
{
    let mut files = mount_image(alloc, image)?;
    let moved = move_all(alloc, &mut files);
    let volume = files.into_store();
    match moved {
        Err(FileFault::Memory) => Err(ArchiveFault::Refused(SessionFault::Memory)),
        Err(fault) => Err(ArchiveFault::Refused(SessionFault::File(fault))),
        Ok(moved) => {
            let bytes = image_of(alloc, &volume)?;
            Ok(SqueezedImage {
                bytes,
                move_count: moved,
            })
        }
    }
}

/// Moves files down until none has a free block below it, and answers how many.
fn move_all(alloc: Global, files: &mut FileService<MemoryVolume>) -> Result<usize, FileFault>
    requires ready { IsReady files.old }
    requires free { files.old.holds ≡ [] }
    ensures { SqueezesAll files.old result files.new }
{
    let _most = files.count();
    let mut moved = 0;
    while let Squeezed::Moved(_) = files.squeeze_turn(alloc)? {
        moved += 1;
    }
    Ok(moved)
}
