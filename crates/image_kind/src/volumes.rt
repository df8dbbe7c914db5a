//! Which volumes of a file are meant.
ghost use Rattle.std.specs.Prelude.{◌≡◌};
ghost use Rattle.image_kind.specs.Volumes as spec;

use crate::judging::judged_kind;
use crate::{Form, ImageKind};
use disk_layouts::Layout;
use word12::{BLOCK, MOST_BLOCKS};

/// Which volumes of a file are meant.
#[derive(Clone, Copy, PartialEq, Eq, Debug)]
pub enum Volumes {
    /// One: that of the whole file, or the one that lies so in it.
    One(Option<Layout>),

    /// Both volumes of a disk.
    Both,
}

/// Which volumes of a file are meant: the one of the layout that is given, or else those of what the file is by its length and its
/// directories. What is unknown, or taken as a plain volume, is one (OS/8's use of the RK05 and of the DECtape; that what is given decides
/// is this project's profile).
pub fn volumes_in(given: Option<Layout>, is_plain: bool, file: &[u8]) -> Volumes
    ensures { result ≡ spec.volumes_in given is_plain file.now }
{
    volumes_with(given, judged_kind(is_plain, file))
}

/// Which volumes of a file are meant that is of this kind, or is unknown: the one of the layout that is given, or else those of the kind.
pub fn volumes_with(given: Option<Layout>, kind: Option<ImageKind>) -> Volumes
    ensures { result ≡ spec.volumes_with given kind }
{
    match given {
        Some(layout) => Volumes::One(Some(layout)),
        None => match kind {
            Some(kind) => volumes_of(kind.form),
            None => Volumes::One(None),
        },
    }
}

/// The volumes of a file of this form.
fn volumes_of(form: Form) -> Volumes
    ensures { result ≡ spec.volumes_of form }
{
    match form {
        Form::Volume => Volumes::One(None),
        Form::Disk => Volumes::Both,
        Form::Dectape => Volumes::One(Some(Layout::Dectape)),
    }
}

/// What a file is taken for where a script runs over it. Whole blocks, at most as many as a volume has, are of no kind and so are one volume,
/// whatever stands in them. Other files are what their length and their directories show (this project's profile).
pub fn script_kind(is_plain: bool, file: &[u8]) -> Option<ImageKind>
    ensures { result ≡ spec.script_kind is_plain file.now }
{
    if file.len() % (2 * BLOCK) == 0 && file.len() <= 2 * BLOCK * MOST_BLOCKS {
        return None;
    }
    judged_kind(is_plain, file)
}
