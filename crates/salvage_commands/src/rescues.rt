//! The command that makes a new volume of what a damaged one still shows.
ghost use Rattle.std.specs.Prelude.{◌≡◌, length};
ghost use Rattle.volume_salvage.specs.Salvaging.{Salvages, rescued_text};
ghost use Rattle.image_files.specs.Answers.{Answers, AreLines};
ghost use Rattle.salvage_commands.specs.Rescuing as spec;
ghost use Rattle.salvage_commands.specs.Rescuing.{Finishes, RescuesFile, RescuesImage, RescuesVolume};

use hosts::Host;
use image_files::{judge_file, look_file, make_first, one_volume_in, refuse_image, report};
use image_kind::{Margins, margins_in};
use outcome::Ending;
use program_tasks::ImageForm;
use std::alloc::Global;
use volume_salvage::{Salvage, salvage_image};

/// Makes the file of a new volume with the files that the volume in an image file still shows, if there is none of its name. The image
/// file is only looked at. What is lost is printed, and how many files are kept, once the new file is there whole. Where a line reports
/// a loss the command ends with the status of a refusal.
pub fn rescue_image<H: Host>(
    host: &mut H,
    alloc: Global,
    form: &ImageForm,
    new: &str,
) -> Result<(), Ending>
    ensures { RescuesImage new.now form.now (H.history host.old) result (H.history host.new) }
{
    let file = look_file(host, alloc, form.file.as_str())?;
    rescue_file(host, alloc, form, file, new)
}

/// Rescues the one volume in a file of these bytes. A note says that those before and after its blocks are left out.
fn rescue_file<H: Host>(
    host: &mut H,
    alloc: Global,
    form: &ImageForm,
    file: Vec<u8>,
    new: &str,
) -> Result<(), Ending>
    ensures { RescuesFile new.now form.now file.items (H.history host.old) result (H.history host.new) }
{
    let (given, is_plain) = (form.layout, form.is_plain);
    judge_file(host, alloc, form.file.as_str(), given, is_plain, &file)?;
    let margins = margins_in(given, is_plain, &file);
    let image = one_volume_in(host, alloc, file, given, is_plain)?;
    tell_margins(host, has_margins(margins));
    rescue_volume(host, alloc, &image, new)
}

/// Whether a file has bytes before or after the blocks of its volumes.
fn has_margins(margins: Margins) -> bool
    ensures { result ≡ spec.has_margins margins }
{
    margins.before != 0 || margins.after != 0
}

/// Prints a note where a file has such bytes.
fn tell_margins<H: Host>(host: &mut H, has_margins: bool)
    ensures { (ok : _) × (H.history host.new ≡ spec.with_margin_note has_margins ok (H.history host.old)) }
{
    if has_margins {
        let _ = host.tell(
            "note: the file has bytes before or after the blocks of its volume: they are left out\n",
        );
    }
}

/// Rescues the volume of an image.
fn rescue_volume<H: Host>(
    host: &mut H,
    alloc: Global,
    image: &[u8],
    new: &str,
) -> Result<(), Ending>
    ensures { RescuesVolume new.now image.now (H.history host.old) result (H.history host.new) }
{
    let salvage = salvage_of(host, alloc, image)?;
    let lines = lines_of(alloc, &salvage)?;
    make_first(host, alloc, new, &salvage.image)?;
    finish(host, salvage.is_complete(), &lines)
}

/// What is salvaged of an image, which is refused as other commands refuse it.
fn salvage_of<H: Host>(host: &mut H, alloc: Global, image: &[u8]) -> Result<Salvage, Ending>
    ensures { Answers (Salvages image.now) (length image.now) (H.history host.old) result (H.history host.new) }
{
    match salvage_image(alloc, image) {
        Ok(salvaged) => Ok(salvaged),
        Err(fault) => Err(refuse_image(host, image.len(), fault)),
    }
}

/// The lines that are printed of a salvage.
fn lines_of(alloc: Global, salvage: &Salvage) -> Result<Vec<u8>, Ending>
    ensures { AreLines (rescued_text salvage.now) result }
{
    let lines = salvage.lines(alloc)?;
    Ok(lines)
}

/// Prints the lines of a salvage, and ends the command with the status of a refusal where something is lost, also where nobody reads them.
fn finish<H: Host>(host: &mut H, is_complete: bool, lines: &[u8]) -> Result<(), Ending>
    ensures { Finishes is_complete lines.now (H.history host.old) result (H.history host.new) }
{
    if is_complete {
        return report(host, lines);
    }
    match report(host, lines) {
        Ok(()) => Err(Ending::Failure),
        Err(Ending::NoReader) => Err(Ending::Failure),
        Err(_) => Err(Ending::Unreported),
    }
}
