//! Changes of the files of a volume by their names alone. Each writes an image file once, and only once the whole new image stands in
//! memory; where a name is refused nothing is written.
ghost use Rattle.std.specs.Prelude.{length};
ghost use Rattle.archive_files.specs.Asking.{target_of};
ghost use Rattle.archive_files.specs.Squeezing.{SqueezesFiles};
ghost use Rattle.image_files.specs.Answers.{Answers};
ghost use Rattle.change_commands.specs.Changing.{Squeezes, Renames, GivesName};

use archive_files::{Asked, RenameFault, RenamedImage, SqueezedImage, rename, squeeze};
use hosts::Host;
use image_files::{Image, answer_of, program_line, refuse_image, store};
use outcome::Ending;
use program_reports::ProgramLine;
use program_tasks::ImageForm;
use std::alloc::Global;

/// Moves the files of the volume in an image file together.
pub fn squeeze_files<H: Host>(host: &mut H, alloc: Global, form: &ImageForm) -> Result<(), Ending>
    ensures { Squeezes form.now (H.history host.old) result (H.history host.new) }
{
    let image = Image::open(host, alloc, form)?;
    let new = squeezed_image(host, alloc, &image.bytes)?;
    let line = program_line(alloc, &ProgramLine::Squeezed(new.move_count))?;
    store(host, alloc, image, &new.bytes, &line)
}

fn squeezed_image<H: Host>(
    host: &mut H,
    alloc: Global,
    image: &[u8],
) -> Result<SqueezedImage, Ending>
    ensures { Answers (SqueezesFiles image.now) (length image.now) (H.history host.old) result (H.history host.new) }
{
    let answer = squeeze(alloc, image);
    answer_of(host, image.len(), answer)
}

/// Gives a file of the volume in an image file another name.
pub fn rename_file<H: Host>(
    host: &mut H,
    alloc: Global,
    form: &ImageForm,
    file: &Asked,
    other: &str,
) -> Result<(), Ending>
    ensures { Renames (target_of file.now) other.now form.now (H.history host.old) result (H.history host.new) }
{
    let image = Image::open(host, alloc, form)?;
    let new = renamed_image(host, alloc, &image.bytes, file, other)?;
    let line = program_line(alloc, &ProgramLine::Renamed(new.old_name, new.new_name))?;
    store(host, alloc, image, &new.bytes, &line)
}

fn renamed_image<H: Host>(
    host: &mut H,
    alloc: Global,
    image: &[u8],
    asked: &Asked,
    other: &str,
) -> Result<RenamedImage, Ending>
    ensures { GivesName (target_of asked.now) other.now image.now (H.history host.old) result (H.history host.new) }
{
    match rename(alloc, image, asked, other.as_bytes()) {
        Ok(new) => Ok(new),
        Err(fault) => match fault {
            RenameFault::Archive(fault) => Err(refuse_image(host, image.len(), fault)),
            RenameFault::Exists => Err(Ending::Line(ProgramLine::Exists)),
        },
    }
}
