//! Inputs of no byte that would replace files.
ghost use Rattle.std.specs.Prelude.{◌≡◌};
ghost use Rattle.archive_many.specs.Emptying as spec;

use crate::VolumeFile;
use os8_dir::Name;

/// Whether bytes that are put under a name on a volume with these files would leave a file there without its words (this project's
/// profile). That is so where there are no bytes, and one of the files has the name.
pub fn empties(files: &[VolumeFile], name: Name, bytes: &[u8]) -> bool
    ensures { result ≡ spec.empties files.now name bytes.now }
{
    bytes.is_empty() && is_among(files, name)
}

/// Whether one of these files has a name.
pub(crate) fn is_among(files: &[VolumeFile], name: Name) -> bool
    ensures { result ≡ spec.is_among name files.now }
{
    let mut rest = files;
    while let [file, others @ ..] = rest {
        if file.name == name {
            return true;
        }
        rest = others;
    }
    false
}
