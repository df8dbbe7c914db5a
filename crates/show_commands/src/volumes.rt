//! The reports of the volumes in an image file: of the one that is asked for, or else of each that the file has by its kind.
ghost use Rattle.std.specs.Prelude.{◌≡◌, ◌&&◌};
ghost use Rattle.image_files.specs.Answers.{AreLines};
ghost use Rattle.image_kind.specs.Margins as margins;
ghost use Rattle.image_kind.specs.Volumes as meant;
ghost use Rattle.image_files.specs.Reading.{reading_of};
ghost use Rattle.image_files.specs.Work.{Then, Purely};
ghost use Rattle.image_files.specs.Ending.{EndsSound};
ghost use Rattle.show_commands.specs.Reporting.{PrintsNamed, TellsRefusal};
ghost use Rattle.show_commands.specs.Volumes as spec;
ghost use Rattle.show_commands.specs.Volumes.{IsVolumeName, ReportsAlone, ReportsAt, ReportsBoth, ReportsBytes, ReportsBytesAmong, ReportsFile, ReportsNext, ReportsNumbered, ReportsOne, ReportsVolume, ReportsVolumes, TellsMargins};
ghost use Rattle.show_commands.specs.declared.reports.ReportKind.TheVariants as kinds;

use crate::reports::{
    Report, ReportKind, print_named, print_report, refusal_report, report_on, report_or_line,
};
use disk_layouts::Layout;
use hosts::Host;
use image_files::{ImageReading, end_sound, look_image, part_after, tell_note, volume_in};
use image_kind::{Margins, Volumes, body_of, margins_in, volumes_in};
use outcome::{Ending, Note};
use program_tasks::ImageForm;
use std::alloc::Global;

/// Lists the files of the volumes in an image file by name. Of a disk of two volumes each line has the volume's name before it. No file
/// changes (this project's profile).
pub fn list_files<H: Host>(host: &mut H, alloc: Global, form: &ImageForm) -> Result<(), Ending>
    ensures { ReportsOne kinds.Files (reading_of form.now) form.now.file.bytes.items (H.history host.old) result (H.history host.new) }
{
    let file = form.file.as_str();
    report_one(host, alloc, ReportKind::Files, ImageReading::of(form), file)
}

/// Lists them in order of their blocks, with where they lie, their information words and their dates. These are of the eight years up to the
/// one that is given, or else up to the one that the volume gives. No file changes (this project's profile).
pub fn list_places<H: Host>(
    host: &mut H,
    alloc: Global,
    form: &ImageForm,
    year: Option<usize>,
) -> Result<(), Ending>
    ensures { ReportsOne (kinds.Places year) (reading_of form.now) form.now.file.bytes.items (H.history host.old) result (H.history host.new) }
{
    let file = form.file.as_str();
    let reading = ImageReading::of(form);
    report_one(host, alloc, ReportKind::Places(year), reading, file)
}

/// Reports on the volumes in the one image file that is asked for.
pub(crate) fn report_one<H: Host>(
    host: &mut H,
    alloc: Global,
    kind: ReportKind,
    reading: ImageReading,
    file: &str,
) -> Result<(), Ending>
    ensures { ReportsOne kind reading file.now (H.history host.old) result (H.history host.new) }
{
    let bytes = look_image(host, alloc, file, reading)?;
    report_bytes(
        host,
        alloc,
        kind,
        reading.layout,
        reading.is_plain,
        file,
        bytes,
    )
}

/// Reports on the volumes in a file of these bytes, after the note on those that are none of theirs.
fn report_bytes<H: Host>(
    host: &mut H,
    alloc: Global,
    kind: ReportKind,
    given: Option<Layout>,
    is_plain: bool,
    file: &str,
    bytes: Vec<u8>,
) -> Result<(), Ending>
    ensures { ReportsBytes kind given is_plain file.now bytes.items (H.history host.old) result (H.history host.new) }
{
    tell_margins(host, alloc, kind, file, margins_in(given, is_plain, &bytes))?;
    report_file(host, alloc, kind, given, is_plain, file, bytes)
}

/// Prints a note on the bytes of a file that are none of its volumes', where it is checked and has such bytes.
fn tell_margins<H: Host>(
    host: &mut H,
    alloc: Global,
    kind: ReportKind,
    file: &str,
    margins: Margins,
) -> Result<(), Ending>
    ensures { TellsMargins kind file.now margins (H.history host.old) result (H.history host.new) }
{
    if is_check(kind) && has_margins(margins) {
        tell_note(
            host,
            alloc,
            Note::OnMargins(file, margins.before, margins.after),
        )?;
    }
    Ok(())
}

/// Whether an image is checked, and not listed.
fn is_check(kind: ReportKind) -> bool
    ensures { result ≡ spec.is_check kind }
{
    match kind {
        ReportKind::Directory | ReportKind::Survey => true,
        ReportKind::Files | ReportKind::Places(_) => false,
    }
}

/// Whether a file has bytes before or after the blocks of its volumes.
fn has_margins(margins: Margins) -> bool
    ensures { result ≡ spec.has_margins margins }
{
    margins.before != 0 || margins.after != 0
}

/// Reports on the volumes in a file of these bytes.
fn report_file<H: Host>(
    host: &mut H,
    alloc: Global,
    kind: ReportKind,
    given: Option<Layout>,
    is_plain: bool,
    file: &str,
    bytes: Vec<u8>,
) -> Result<(), Ending>
    ensures { ReportsFile kind file.now (meant.volumes_in given is_plain bytes.items) (margins.body_of given is_plain bytes.items) (H.history host.old) result (H.history host.new) }
{
    match volumes_in(given, is_plain, &bytes) {
        Volumes::One(layout) => report_alone(
            host,
            alloc,
            kind,
            layout,
            body_of(given, is_plain, bytes),
        ),
        Volumes::Both => report_disk(host, alloc, kind, file, &body_of(given, is_plain, bytes)),
    }
}

/// Reports on the one volume in bytes without margins.
fn report_alone<H: Host>(
    host: &mut H,
    alloc: Global,
    kind: ReportKind,
    layout: Option<Layout>,
    body: Vec<u8>,
) -> Result<(), Ending>
    ensures { ReportsAlone kind layout body.items (H.history host.old) result (H.history host.new) }
{
    let image = volume_in(alloc, body, layout)?;
    let report = report_on(host, alloc, &image, kind)?;
    print_report(host, &report)
}

/// Reports on both volumes of a disk, and ends the command.
fn report_disk<H: Host>(
    host: &mut H,
    alloc: Global,
    kind: ReportKind,
    file: &str,
    body: &[u8],
) -> Result<(), Ending>
    ensures { Then (ReportsBoth kind file.now body.now) (λ is_sound. Purely (EndsSound is_sound)) (H.history host.old) result (H.history host.new) }
{
    let is_sound = report_both(host, alloc, kind, file, body)?;
    end_sound(is_sound)
}

/// Reports on both volumes of a disk, and answers whether both are sound.
fn report_both<H: Host>(
    host: &mut H,
    alloc: Global,
    kind: ReportKind,
    file: &str,
    body: &[u8],
) -> Result<bool, Ending>
    ensures { ReportsBoth kind file.now body.now (H.history host.old) result (H.history host.new) }
{
    let one = report_numbered(host, alloc, kind, file, 1, Layout::First, body)?;
    let second = report_numbered(host, alloc, kind, file, 2, Layout::Second, body);
    let other = part_after(one, second)?;
    Ok(are_both(one, other))
}

/// Whether two volumes are sound.
fn are_both(one: bool, other: bool) -> bool
    ensures { result ≡ (one && other) }
{
    one && other
}

/// Reports on the volume of this number of a disk, and answers whether it is sound.
fn report_numbered<H: Host>(
    host: &mut H,
    alloc: Global,
    kind: ReportKind,
    file: &str,
    number: usize,
    layout: Layout,
    body: &[u8],
) -> Result<bool, Ending>
    ensures { ReportsNumbered kind file.now number layout body.now (H.history host.old) result (H.history host.new) }
{
    let name = volume_name(alloc, file, number)?;
    let copy = copy_of(alloc, body)?;
    report_volume(host, alloc, kind, name.as_str(), Some(layout), copy)
}

/// The name of a volume of a disk.
fn volume_name(alloc: Global, file: &str, number: usize) -> Result<String, Ending>
    ensures { IsVolumeName file.now number result }
{
    let name = format!(in alloc; "{file}:{number}")?;
    Ok(name)
}

fn copy_of(alloc: Global, bytes: &[u8]) -> Result<Vec<u8>, Ending>
    ensures { AreLines bytes.now result }
{
    let copy = bytes.to_vec(alloc)?;
    Ok(copy)
}

/// Reports on the volume that lies so in bytes without margins, and answers whether it is sound. Each line has a name before it.
fn report_volume<H: Host>(
    host: &mut H,
    alloc: Global,
    kind: ReportKind,
    name: &str,
    layout: Option<Layout>,
    body: Vec<u8>,
) -> Result<bool, Ending>
    ensures { ReportsVolume kind name.now layout body.items (H.history host.old) result (H.history host.new) }
{
    let report = report_at(host, alloc, kind, layout, body)?;
    print_named(host, alloc, name, &report)
}

/// The report of the volume that lies so in bytes without margins: a refusal by its line. What may help then is printed.
fn report_at<H: Host>(
    host: &mut H,
    alloc: Global,
    kind: ReportKind,
    layout: Option<Layout>,
    body: Vec<u8>,
) -> Result<Report, Ending>
    ensures { ReportsAt kind layout body.items (H.history host.old) result (H.history host.new) }
{
    match volume_in(alloc, body, layout) {
        Ok(image) => report_or_line(host, alloc, &image, kind),
        Err(ending) => refusal_report(alloc, ending),
    }
}

/// Reports on the volumes in one of several image files, and answers whether all are sound. Each line has the name before it by which the
/// file is asked for.
pub(crate) fn report_next<H: Host>(
    host: &mut H,
    alloc: Global,
    kind: ReportKind,
    reading: ImageReading,
    file: &str,
    name: &str,
) -> Result<bool, Ending>
    ensures { ReportsNext kind reading file.now name.now (H.history host.old) result (H.history host.new) }
{
    match look_image(host, alloc, file, reading) {
        Ok(bytes) => report_among(
            host,
            alloc,
            kind,
            reading.layout,
            reading.is_plain,
            name,
            bytes,
        ),
        Err(ending) => report_refusal(host, alloc, name, ending),
    }
}

/// Reports on the volumes in one of several files, of these bytes, after the note on those that are none of theirs. Answers whether all are
/// sound.
fn report_among<H: Host>(
    host: &mut H,
    alloc: Global,
    kind: ReportKind,
    given: Option<Layout>,
    is_plain: bool,
    file: &str,
    bytes: Vec<u8>,
) -> Result<bool, Ending>
    ensures { ReportsBytesAmong kind given is_plain file.now bytes.items (H.history host.old) result (H.history host.new) }
{
    tell_margins(host, alloc, kind, file, margins_in(given, is_plain, &bytes))?;
    report_volumes(host, alloc, kind, given, is_plain, file, bytes)
}

/// Reports on the volumes in one of several files, of these bytes, and answers whether all are sound.
fn report_volumes<H: Host>(
    host: &mut H,
    alloc: Global,
    kind: ReportKind,
    given: Option<Layout>,
    is_plain: bool,
    file: &str,
    bytes: Vec<u8>,
) -> Result<bool, Ending>
    ensures { ReportsVolumes kind file.now (meant.volumes_in given is_plain bytes.items) (margins.body_of given is_plain bytes.items) (H.history host.old) result (H.history host.new) }
{
    match volumes_in(given, is_plain, &bytes) {
        Volumes::One(layout) => {
            report_volume(
                host,
                alloc,
                kind,
                file,
                layout,
                body_of(given, is_plain, bytes),
            )
        }
        Volumes::Both => report_both(host, alloc, kind, file, &body_of(given, is_plain, bytes)),
    }
}

/// Reports on one of several files that can't be read, by its line.
fn report_refusal<H: Host>(
    host: &mut H,
    alloc: Global,
    file: &str,
    ending: Ending,
) -> Result<bool, Ending>
    ensures { Then (Purely (TellsRefusal ending)) (PrintsNamed file.now) (H.history host.old) result (H.history host.new) }
{
    let report = refusal_report(alloc, ending)?;
    print_named(host, alloc, file, &report)
}
