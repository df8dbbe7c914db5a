//! The commands that print blocks of an image, or the BIN tape of a core image on its volume. No file changes.
ghost use Rattle.get_commands.specs.ShowingParts.{GivesBlocks, GivesTape, PrintsTape, ShowsBlocks, ShowsTape};

use archive_files::{Asked, GetForm};
use archive_many::{BlocksFault, blocks_of};
use hosts::Host;
use image_files::{look_at, print, program_line, refuse_image, show_file, tell_line};
use outcome::Ending;
use program_reports::{ProgramLine, core_tape};
use program_tasks::{BlocksForm, ImageForm};
use std::alloc::Global;
use word12::Cell;

/// Writes blocks of an image file, whatever its directory says.
pub fn get_blocks<H: Host>(host: &mut H, alloc: Global, form: &BlocksForm) -> Result<(), Ending>
    ensures { ShowsBlocks form.now (H.history host.old) result (H.history host.new) }
{
    let image = look_at(host, alloc, &form.image)?;
    let given = given_blocks(host, alloc, form, &image)?;
    print(host, &given)
}

fn given_blocks<H: Host>(
    host: &mut H,
    alloc: Global,
    form: &BlocksForm,
    image: &[u8],
) -> Result<Vec<u8>, Ending>
    ensures { GivesBlocks form.now image.now (H.history host.old) result (H.history host.new) }
{
    match blocks_of(alloc, image, form.first, form.count, form.form) {
        Ok(given) => Ok(given),
        Err(fault) => match fault {
            BlocksFault::Archive(fault) => Err(refuse_image(host, image.len(), fault)),
            BlocksFault::NoBlocks(has) => Err(Ending::Line(ProgramLine::OnlyBlocks(has))),
        },
    }
}

/// Writes the BIN tape of a core image on the volume in an image file, and then prints on standard error where its program starts.
pub fn get_bin<H: Host>(
    host: &mut H,
    alloc: Global,
    image: &ImageForm,
    file: Asked,
) -> Result<(), Ending>
    ensures { ShowsTape file image.now (H.history host.old) result (H.history host.new) }
{
    let bytes = look_at(host, alloc, image)?;
    let frames = show_file(host, alloc, &bytes, &file, GetForm::Frames)?;
    let bin = tape_of(alloc, &frames)?;
    print_tape(host, alloc, bin)
}

/// The BIN tape of a core image, and the cell where its program starts.
fn tape_of(alloc: Global, frames: &[u8]) -> Result<(Vec<u8>, Cell), Ending>
    ensures { GivesTape frames.now result }
{
    let bin = core_tape(alloc, frames)?;
    Ok(bin)
}

/// Prints a tape, and then where its program starts.
fn print_tape<H: Host>(host: &mut H, alloc: Global, bin: (Vec<u8>, Cell)) -> Result<(), Ending>
    ensures { PrintsTape bin (H.history host.old) result (H.history host.new) }
{
    let (tape, start) = bin;
    let line = program_line(alloc, &ProgramLine::Start(start))?;
    print(host, &tape)?;
    tell_line(host, &line);
    Ok(())
}
