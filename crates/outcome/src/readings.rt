//! In which ways an image file may be read, as a note says it.
ghost use Rattle.std.specs.Prelude.{◌≡◌, Some};
ghost use Rattle.std.specs.Fmt.{DisplaysOnOk};
ghost use Rattle.outcome.specs.Readings as spec;

use image_kind::{Form, ImageKind};
use shown_text::ShownText;
use std::fmt;

/// One way to read a file, in words.
#[derive(Clone, Copy)]
struct KindText {
    kind: ImageKind,
}

impl fmt::Display for KindText {
    ghost output = { λ it. Some (spec.kind_words it.kind) };

    fn fmt<W: fmt::Write>(&self, f: &mut fmt::Formatter<W>) -> fmt::Result {
        write_kind(self.kind, f)
    }
}

/// Writes one way to read a file.
fn write_kind<W: fmt::Write>(kind: ImageKind, f: &mut fmt::Formatter<W>) -> fmt::Result
    ensures { DisplaysOnOk W.write_str_gives f.old result (Some (spec.kind_words kind)) f.new }
{
    let form = form_words(kind.form);
    let (before, after) = (kind.before, kind.after);
    write!(
        f,
        "{form}, with {before} bytes before its blocks and {after} after them"
    )
}

/// A form of a file in words.
fn form_words(form: Form) -> &'static str
    ensures { result.now ≡ spec.form_words form }
{
    match form {
        Form::Volume => "a volume",
        Form::Disk => "an RK05 disk",
        Form::Dectape => "a DECtape",
    }
}

/// Writes in which two ways the file of a name may be read.
pub(crate) fn write_on_readings<W: fmt::Write>(
    name: &str,
    one: ImageKind,
    other: ImageKind,
    f: &mut fmt::Formatter<W>,
) -> fmt::Result
    ensures { DisplaysOnOk W.write_str_gives f.old result (Some (spec.readings_text name.now one other)) f.new }
{
    let name = ShownText { text: name };
    let (one, other) = (KindText { kind: one }, KindText { kind: other });
    write!(
        f,
        "note: {name} may be {one}, or {other}: --volume, --dectape or --plain says which, or a file without those bytes\n"
    )
}
