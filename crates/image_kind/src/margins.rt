//! Which bytes of a file are those of its volumes.
ghost use Rattle.std.specs.Prelude.{◌≡◌};
ghost use Rattle.image_kind.specs.Margins as spec;

use crate::judging::judged_kind;
use crate::{Form, ImageKind};
use disk_layouts::Layout;

/// How many bytes before the volumes of a file, and how many after them, are none of theirs.
#[derive(Clone, Copy, PartialEq, Eq, Debug)]
pub struct Margins {
    pub before: usize,
    pub after: usize,
}

/// How many bytes before and after the volumes of a file are none of theirs, as its length and its directories show. Where a layout is given
/// these show it only for a file that may be read so, and in a plain volume there are none (this project's profile).
pub fn margins_in(given: Option<Layout>, is_plain: bool, file: &[u8]) -> Margins
    ensures { result ≡ spec.margins_in given is_plain file.now }
{
    margins_with(given, judged_kind(is_plain, file))
}

/// Those of a file of this kind, or of one that is unknown.
pub fn margins_with(given: Option<Layout>, kind: Option<ImageKind>) -> Margins
    ensures { result ≡ spec.margins_by given kind }
{
    match kind {
        None => Margins {
            before: 0,
            after: 0,
        },
        Some(kind) => margins_for(given, kind),
    }
}

/// Those of a file of this kind.
fn margins_for(given: Option<Layout>, kind: ImageKind) -> Margins
    ensures { result ≡ spec.margins_for given kind }
{
    if may_be(given, kind.form) {
        return Margins {
            before: kind.before,
            after: kind.after,
        };
    }
    Margins {
        before: 0,
        after: 0,
    }
}

/// Whether a file of this form may be read at the layout that is given, if one is.
pub fn may_be(given: Option<Layout>, form: Form) -> bool
    ensures { result ≡ spec.may_be given form }
{
    match given {
        None => true,
        Some(Layout::First | Layout::Second) => form == Form::Disk,
        Some(Layout::Dectape) => form == Form::Dectape,
    }
}

/// The bytes before the volumes of a file, those of the volumes, and those after them.
pub fn parts_of(given: Option<Layout>, is_plain: bool, file: &[u8]) -> (&[u8], &[u8], &[u8])
    ensures before { result.0.now ≡ spec.before_of given is_plain file.now }
    ensures body { result.1.now ≡ spec.body_of given is_plain file.now }
    ensures after { result.2.now ≡ spec.after_of given is_plain file.now }
{
    let margins = margins_in(given, is_plain, file);
    let (before, rest) = file.split_at(margins.before.min(file.len()));
    let (body, after) = rest.split_at(rest.len().saturating_sub(margins.after));
    (before, body, after)
}

/// The bytes of the volumes of a file. No memory is taken.
pub fn body_of(given: Option<Layout>, is_plain: bool, file: Vec<u8>) -> Vec<u8>
    ensures { result.items ≡ spec.body_of given is_plain file.items }
{
    let margins = margins_in(given, is_plain, &file);
    body_by(margins, file)
}

/// The bytes of a file without those of margins. No memory is taken.
pub fn body_by(margins: Margins, bytes: Vec<u8>) -> Vec<u8>
    ensures { result.items ≡ spec.body_by margins bytes.items }
{
    let mut body = bytes;
    let before = margins.before.min(body.len());
    let count = (body.len() - before).saturating_sub(margins.after);
    body.rotate_left(before);
    body.truncate(count);
    body
}
