//! The command that reports on the volumes in image files. No file changes.
ghost use Rattle.std.specs.Prelude.{◌≡◌, ◌<◌, length, map};
ghost use Rattle.image_files.specs.Reading.{file_named, reading_named};
ghost use Rattle.show_commands.specs.Checking as spec;
ghost use Rattle.show_commands.specs.Checking.{ChecksEach, ChecksEachImage, ChecksFiles, ChecksImages, ChecksNext, ChecksSeveral, PrintsCount};
ghost use Rattle.host_progress.specs.Progressing.{WithProgress};
ghost use Rattle.show_commands.specs.Volumes.{ReportsOne};

use crate::leftovers::drop_each;
use crate::reports::ReportKind;
use crate::volumes::{report_next, report_one};
use host_progress::Progress;
use hosts::Host;
use image_files::{
    ImageReading, end_sound, image_named, images_among, part_after, print, program_line,
};
use outcome::Ending;
use program_reports::ProgramLine;
use program_tasks::CheckForm;
use std::alloc::Global;

/// Reports on the volumes in image files. Of several volumes each line has the name of its file or volume before it, and of several files the
/// last line counts them. What writers that were ended left beside an image is taken away (this project's profile).
pub fn check_images<H: Host>(host: &mut H, alloc: Global, form: &CheckForm) -> Result<(), Ending>
    ensures { ChecksImages form.now (H.history host.old) result (H.history host.new) }
{
    let images = images_among(alloc, &form.images)?;
    check_each_image(host, alloc, form, &images)
}

/// Reports on the images in these files, after what ended writers left beside them is taken away.
fn check_each_image<H: Host>(
    host: &mut H,
    alloc: Global,
    form: &CheckForm,
    files: &[String],
) -> Result<(), Ending>
    ensures { ChecksEachImage form.now (map (λ file. file.bytes.items) files.now) (H.history host.old) result (H.history host.new) }
{
    drop_each(host, alloc, form, files)?;
    check_files(host, alloc, form, files)
}

/// Reports on the images in these files.
fn check_files<H: Host>(
    host: &mut H,
    alloc: Global,
    form: &CheckForm,
    files: &[String],
) -> Result<(), Ending>
    ensures { ChecksFiles form.now (map (λ file. file.bytes.items) files.now) (H.history host.old) result (H.history host.new) }
{
    match files {
        [file] => check_one(host, alloc, form, file.as_str()),
        _ => check_several(host, alloc, form, files),
    }
}

/// Reports on the one image of this name.
fn check_one<H: Host>(
    host: &mut H,
    alloc: Global,
    form: &CheckForm,
    name: &str,
) -> Result<(), Ending>
    ensures { ReportsOne (spec.kind_of_check form.now.is_all) (reading_named (spec.reading_of_check form.now) name.now) (file_named (spec.reading_of_check form.now) name.now) (H.history host.old) result (H.history host.new) }
{
    let (file, reading) = image_named(reading_of(form), name);
    report_one(host, alloc, kind_of_check(form.is_all), reading, file)
}

/// Reports on several images, and counts them.
fn check_several<H: Host>(
    host: &mut H,
    alloc: Global,
    form: &CheckForm,
    files: &[String],
) -> Result<(), Ending>
    ensures { ChecksSeveral form.now (map (λ file. file.bytes.items) files.now) (H.history host.old) result (H.history host.new) }
{
    let refused = count_refused(host, alloc, form, files)?;
    print_count(host, alloc, files.len(), refused)
}

/// Reports on several images, with what is printed of the progress, and answers how many are refused.
fn count_refused<H: Host>(
    host: &mut H,
    alloc: Global,
    form: &CheckForm,
    files: &[String],
) -> Result<usize, Ending>
    ensures { WithProgress (λ is_told. ChecksEach form.now is_told 0 (length files.now) 0 (map (λ file. file.bytes.items) files.now)) (H.history host.old) result (H.history host.new) }
{
    let mut progress = Progress::begin(host, files.len());
    let counted = check_each(host, alloc, form, files, &mut progress);
    progress.end(host);
    counted
}

/// Reports on each of several images, and answers how many are refused.
fn check_each<H: Host>(
    host: &mut H,
    alloc: Global,
    form: &CheckForm,
    files: &[String],
    progress: &mut Progress,
) -> Result<usize, Ending>
    ensures checks { ChecksEach form.now progress.old.is_told 0 progress.old.all 0 (map (λ file. file.bytes.items) files.now) (H.history host.old) result (H.history host.new) }
    ensures told { progress.new.is_told ≡ progress.old.is_told }
{
    let mut done = 0;
    let mut refused = 0;
    let mut rest = files;
    while let [file, others @ ..] = rest {
        let next = check_next(host, alloc, form, file.as_str(), progress, done);
        let is_sound = part_after(refused == 0, next)?;
        refused = with_refusal(is_sound, refused);
        done += 1;
        rest = others;
    }
    Ok(refused)
}

/// How many images are refused with this one.
fn with_refusal(is_sound: bool, refused: usize) -> usize
    requires { refused < 0xffff_ffff_ffff_ffff }
    ensures { result ≡ spec.with_refusal is_sound refused }
{
    if is_sound {
        return refused;
    }
    refused + 1
}

/// Reports on one of several images, of which so many are done, and answers whether it is sound.
fn check_next<H: Host>(
    host: &mut H,
    alloc: Global,
    form: &CheckForm,
    name: &str,
    progress: &mut Progress,
    done: usize,
) -> Result<bool, Ending>
    ensures checks { ChecksNext form.now progress.old.is_told done progress.old.all name.now (H.history host.old) result (H.history host.new) }
    ensures told { progress.new.is_told ≡ progress.old.is_told }
    ensures all { progress.new.all ≡ progress.old.all }
{
    progress.tell(host, done);
    let (file, reading) = image_named(reading_of(form), name);
    let kind = kind_of_check(form.is_all);
    report_next(host, alloc, kind, reading, file, name)
}

/// What is reported of each volume: its directory with the first fault, or with each.
fn kind_of_check(is_all: bool) -> ReportKind
    ensures { result ≡ spec.kind_of_check is_all }
{
    if is_all {
        return ReportKind::Survey;
    }
    ReportKind::Directory
}

/// How the image files of a check are read.
pub(crate) fn reading_of(form: &CheckForm) -> ImageReading
    ensures { result ≡ spec.reading_of_check form.now }
{
    ImageReading {
        layout: form.layout,
        is_plain: form.is_plain,
        is_lenient: form.is_lenient,
    }
}

/// Prints the line that counts images, and ends the command.
fn print_count<H: Host>(
    host: &mut H,
    alloc: Global,
    count: usize,
    refused: usize,
) -> Result<(), Ending>
    ensures { PrintsCount count refused (H.history host.old) result (H.history host.new) }
{
    let line = program_line(alloc, &ProgramLine::Images { count, refused })?;
    part_after(refused == 0, print(host, &line))?;
    end_sound(refused == 0)
}
