//! What an index of images leaves as it was, as a law.
ghost use Rattle.std.specs.Prelude.{ℕ, List};
ghost use Rattle.volume_index.specs.declared.styles.IndexStyle.{IndexStyle};
ghost use Rattle.image_files.specs.Laws.{KeepsFiles};
ghost use Rattle.image_files.specs.declared.mending.ImageReading.{ImageReading};
ghost use Rattle.index_commands.specs.Indexing.{Indexes};
ghost use Rattle.index_commands.specs.declared.columns.LineShape.{LineShape};

use image_files::laws::kept_files;

/// A law: an index of images changes no file of the host and makes no folder, in whichever way it ends.
pub fn unchanged_files()
    ensures { (style : IndexStyle) (shape : LineShape) (reading : ImageReading) (names : List (List ℕ)) → KeepsFiles (Indexes style shape reading names) }
{
    kept_files();
}
