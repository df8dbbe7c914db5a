//! How an image file is refused that may be read in two ways, or that a change would make one that is read in another way.
ghost use Rattle.std.specs.Prelude.{◌≡◌, ℕ, List};
ghost use Rattle.hosts.specs.Streams.{output};
ghost use Rattle.image_files.specs.Judging.{Judges, RefusesKind};
ghost use Rattle.image_files.specs.Judging as spec;

use crate::notes::{tell, tell_note};
use disk_layouts::Layout;
use hosts::Host;
use image_kind::{Form, ImageKind, judged_kind, two_readings};
use outcome::{Ending, Note, PlainNote};
use program_reports::ProgramLine;
use std::alloc::Global;

/// Refuses a file of these bytes that may be read in two ways, with a note that says which. No file changes, and standard output gets
/// nothing (this project's profile).
pub fn judge_file<H: Host>(
    host: &mut H,
    alloc: Global,
    name: &str,
    given: Option<Layout>,
    is_plain: bool,
    file: &[u8],
) -> Result<(), Ending>
    ensures { Judges name.now given is_plain file.now (H.history host.old) result (H.history host.new) }
{
    match two_readings(given, is_plain, file) {
        None => Ok(()),
        Some((one, other)) => {
            tell_note(host, alloc, Note::OnReadings(name, one, other))?;
            Err(Ending::Line(ProgramLine::TwoReadings))
        }
    }
}

/// How a change ends that would make a file one that is read in another way. A note says as what.
pub fn refuse_kind<H: Host>(host: &mut H, is_plain: bool, file: &[u8]) -> Ending
    ensures { RefusesKind is_plain file.now (H.history host.old) result (H.history host.new) }
{
    tell(host, kind_note(judged_kind(is_plain, file)).text());
    Ending::Line(ProgramLine::OtherKind)
}

/// The note on what a file would be read as.
fn kind_note(kind: Option<ImageKind>) -> PlainNote
    ensures { result ≡ spec.kind_note kind }
{
    match kind {
        None => PlainNote::MadeVolume,
        Some(kind) => match kind.form {
            Form::Volume => PlainNote::MadeVolume,
            Form::Disk => PlainNote::MadeDisk,
            Form::Dectape => PlainNote::MadeDectape,
        },
    }
}
