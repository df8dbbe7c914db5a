//! The command that prints what a file of the volume in an image file has. No file changes.
ghost use Rattle.archive_files.specs.Getting.{Gets};
ghost use Rattle.get_commands.specs.Showing.{Shows};
ghost use Rattle.archive_files.specs.Asking.{target_of};

use archive_files::{Asked, GetForm};
use hosts::Host;
use image_files::{look_at, print, show_file};
use outcome::Ending;
use program_tasks::ImageForm;
use std::alloc::Global;

/// Writes what a file has on the volume in an image file: its frames, its text, or the tape that it begins with.
pub fn get_file<H: Host>(
    host: &mut H,
    alloc: Global,
    image: &ImageForm,
    file: Asked,
    form: GetForm,
) -> Result<(), Ending>
    ensures { Shows (λ bytes. Gets bytes (target_of file) form) image.now (H.history host.old) result (H.history host.new) }
{
    let bytes = look_at(host, alloc, image)?;
    let given = show_file(host, alloc, &bytes, &file, form)?;
    print(host, &given)
}
