//! The volumes of an image file of unknown origin.
ghost use Rattle.std.specs.Prelude.{◌≡◌};
ghost use Rattle.index_commands.specs.IndexSteps.{FindsImage, inner};
ghost use Rattle.index_commands.specs.Volumes.{body_in};
ghost use Rattle.index_commands.specs.Volumes as spec;

use disk_layouts::{DiskFault, DiskFile, Layout};
use image_kind::ImageKind;
use outcome::Ending;
use program_reports::ProgramLine;
use refusals::SessionFault;
use std::alloc::Global;

/// The bytes of a file of this kind, without what other programs put before and after them.
pub(crate) fn body_in(kind: Option<ImageKind>, file: &[u8]) -> &[u8]
    ensures { result.now ≡ body_in kind file.now }
{
    match kind {
        None => file,
        Some(kind) => inner(kind.before, kind.after, file),
    }
}

/// Bytes without so many before and after them.
fn inner(before: usize, after: usize, bytes: &[u8]) -> &[u8]
    ensures { result.now ≡ inner before after bytes.now }
{
    let (_, rest) = bytes.split_at(before.min(bytes.len()));
    let (body, _) = rest.split_at(rest.len().saturating_sub(after));
    body
}

/// The image of the volume that lies in bytes as in a disk or a DECtape.
pub(crate) fn volume_at(alloc: Global, bytes: &[u8], layout: Layout) -> Result<Vec<u8>, Ending>
    ensures { FindsImage layout bytes.now result }
{
    let file = bytes.to_vec(alloc)?;
    match DiskFile::new(file, layout) {
        Ok(disk) => {
            let image = disk.volume(alloc)?;
            Ok(image)
        }
        Err(DiskFault::Memory) => Err(Ending::Fault(SessionFault::Memory)),
        Err(fault) => Err(Ending::Line(ProgramLine::Disk(fault))),
    }
}

/// The number of a volume of a disk.
pub(crate) fn number_of(layout: Option<Layout>) -> Option<u64>
    ensures { result ≡ spec.number_of layout }
{
    match layout {
        Some(Layout::First) => Some(1),
        Some(Layout::Second) => Some(2),
        Some(Layout::Dectape) => None,
        None => None,
    }
}
