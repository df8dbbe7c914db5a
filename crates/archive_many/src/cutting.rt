//! Files whose copies have fewer information words.
ghost use Rattle.std.specs.Prelude.{◌≡◌, ◌++◌, OnOk};
ghost use Rattle.archive_many.specs.Cutting.{CutsFiles, cuts_of};

use crate::opened::open;
use crate::{OpenVolume, VolumeFile};
use archive_files::ArchiveFault;
use std::alloc::{AllocError, Global};

/// For each of these files of the volume in an image, whether its copy on the volume in another lacks information words that aren't all 0 (OS/8
/// Software Support Manual; the faults are this project's profile).
pub fn cut_files(
    alloc: Global,
    from: &[u8],
    files: &[VolumeFile],
    to: &[u8],
) -> Result<Vec<bool>, ArchiveFault>
    ensures { CutsFiles from.now to.now files.now result }
{
    let source = open(alloc, from)?;
    let target = open(alloc, to)?;
    let mut cuts = Vec::new(alloc);
    put_cuts(&source, target.information_words(), files, &mut cuts)?;
    Ok(cuts)
}

/// Appends for each of these files whether a copy with so many information words lacks some.
fn put_cuts(
    volume: &OpenVolume,
    count: usize,
    files: &[VolumeFile],
    cuts: &mut Vec<bool>,
) -> Result<(), AllocError>
    ensures { OnOk result (cuts.new.items ≡ cuts.old.items ++ cuts_of volume.now count files.now) }
{
    let mut rest = files;
    while let [file, others @ ..] = rest {
        cuts.push(volume.is_cut(file.name, count))?;
        rest = others;
    }
    Ok(())
}
