//! Which file has a block.
ghost use Rattle.std.specs.Prelude.{◌≡◌};
ghost use Rattle.show_commands.specs.DumpSteps.{HasNone};
ghost use Rattle.show_commands.specs.Dumping.{HasFiles};
ghost use Rattle.show_commands.specs.Dumping as spec;

use archive_files::ArchiveFault;
use archive_many::{VolumeFile, open};
use os8_dir::Name;
use outcome::Ending;
use std::alloc::Global;

/// The files of the volume in an image; none where it is refused.
pub fn files_in(alloc: Global, image: &[u8]) -> Result<Vec<VolumeFile>, Ending>
    ensures { HasFiles image.now result }
{
    match open(alloc, image) {
        Ok(volume) => {
            let files = volume.files(alloc)?;
            Ok(files)
        }
        Err(fault) => no_files(alloc, fault),
    }
}

/// No files, since an image is refused for this.
fn no_files(alloc: Global, fault: ArchiveFault) -> Result<Vec<VolumeFile>, Ending>
    ensures { HasNone fault result }
{
    match fault {
        ArchiveFault::Refused(fault) => Err(Ending::Fault(fault)),
        ArchiveFault::Image(_) => Ok(Vec::new(alloc)),
        ArchiveFault::Directory(_) => Ok(Vec::new(alloc)),
    }
}

/// The name of the file that has a block.
pub fn owner_in(files: &[VolumeFile], block: usize) -> Option<Name>
    ensures { result ≡ spec.owner_in files.now block }
{
    let mut rest = files;
    while let [file, others @ ..] = rest {
        if file.place <= block && block - file.place < file.blocks {
            return Some(file.name);
        }
        rest = others;
    }
    None
}
