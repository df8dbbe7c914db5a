//! What holds of each salvage.
ghost use Rattle.volume_salvage.specs.Laws.{EachFileIsThere, FilesAreInOrder, OtherFilesAreNot};

use crate::rescue_laws::just_these_files;
use archive_survey::laws::sound_files;

/// A law: each file that a survey of the volume reports as sound is one of the new volume, with the same words, unless its refusal is
/// reported. There is no other file. By their blocks they have the order in which the survey reports them.
pub fn salvaged_files()
    ensures there { EachFileIsThere }
    ensures others { OtherFilesAreNot }
    ensures order { FilesAreInOrder }
{
    just_these_files();
    sound_files();
}
