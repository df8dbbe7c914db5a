//! The words of files, by where they lie.
ghost use Rattle.std.specs.Prelude.{length, IfOk};
ghost use Rattle.archive_survey.specs.Laws.{AreInside};
ghost use Rattle.volume_salvage.specs.Salvaging.{AreFilesOf};

use crate::KeptFile;
use archive_files::parts::words_at;
use archive_survey::FoundFile;
use std::alloc::{AllocError, Global};
use volume_image::MemoryVolume;

/// Files that lie in a volume, each with its words.
pub fn files_with_words(
    alloc: Global,
    volume: &MemoryVolume,
    files: &[FoundFile],
) -> Result<Vec<KeptFile>, AllocError>
    requires { AreInside (length volume.now.blocks) files.now }
    ensures { IfOk result (λ kept. AreFilesOf volume.now.blocks files.now kept.items) }
{
    let mut kept = Vec::new(alloc);
    let mut rest = files;
    while let [file, others @ ..] = rest {
        let words = words_at(alloc, volume, file.place, file.size)?;
        kept.push(KeptFile {
            name: file.name,
            words,
            info: file.info,
        })?;
        rest = others;
    }
    Ok(kept)
}
