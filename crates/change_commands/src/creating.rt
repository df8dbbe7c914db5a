//! The commands that make a new volume in a file.
ghost use Rattle.change_commands.specs.Creating.{CreatesFile, CreatesVolume, IsBlankDisk, IsBlankImage, IsBlankTapeFile, MakesIf, MakesVolume};

use disk_layouts::blank_tape;
use hosts::Host;
use image_files::{Image, make_file, make_first, program_line, report, store};
use outcome::{Content, Ending};
use program_reports::ProgramLine;
use program_tasks::{CreateForm, ImageForm};
use std::alloc::Global;
use volume_image::MemoryVolume;

/// The blocks of the volume of a DECtape (OS/8 Software Support Manual).
pub const TAPE_BLOCKS: usize = 737;

/// The blocks of each volume of an RK05 disk (OS/8 Software Support Manual).
pub const DISK_BLOCKS: usize = 3248;

/// Makes the file of an empty volume of so many blocks, in place of any file of its name unless it is to be the first, and prints its line.
pub fn create_image<H: Host>(
    host: &mut H,
    alloc: Global,
    form: &CreateForm,
    blocks: usize,
) -> Result<(), Ending>
    ensures { CreatesFile (IsBlankImage blocks) form.now blocks (H.history host.old) result (H.history host.new) }
{
    let file = blank_image(alloc, blocks)?;
    make_volume(host, alloc, form, &file, blocks)
}

/// Makes the file of a DECtape with an empty volume, in place of any file of its name unless it is to be the first, and prints its line.
pub fn create_tape<H: Host>(host: &mut H, alloc: Global, form: &CreateForm) -> Result<(), Ending>
    ensures { CreatesFile IsBlankTapeFile form.now TAPE_BLOCKS (H.history host.old) result (H.history host.new) }
{
    let file = blank_tape_file(alloc)?;
    make_volume(host, alloc, form, &file, TAPE_BLOCKS)
}

/// Makes the file of a disk of two empty volumes, in place of any file of its name unless it is to be the first. It prints the blocks of each.
pub fn create_disk<H: Host>(host: &mut H, alloc: Global, form: &CreateForm) -> Result<(), Ending>
    ensures { CreatesFile IsBlankDisk form.now DISK_BLOCKS (H.history host.old) result (H.history host.new) }
{
    let file = blank_disk(alloc)?;
    make_volume(host, alloc, form, &file, DISK_BLOCKS)
}

/// Makes a volume of the disk in an image file an empty one, and prints its line. The bytes of the other volume stay.
pub fn create_volume<H: Host>(host: &mut H, alloc: Global, form: &ImageForm) -> Result<(), Ending>
    ensures { CreatesVolume form.now (H.history host.old) result (H.history host.new) }
{
    let image = Image::open(host, alloc, form)?;
    let new = blank_image(alloc, DISK_BLOCKS)?;
    let line = program_line(alloc, &ProgramLine::Created(DISK_BLOCKS))?;
    store(host, alloc, image, &new, &line)
}

/// The file of a disk of two empty volumes.
fn blank_disk(alloc: Global) -> Result<Vec<u8>, Ending>
    ensures { IsBlankDisk result }
{
    let image = blank_image(alloc, DISK_BLOCKS)?;
    let mut file = Vec::new(alloc);
    file.extend_from_slice(&image)?;
    file.extend_from_slice(&image)?;
    Ok(file)
}

/// The image of an empty volume.
fn blank_image(alloc: Global, blocks: usize) -> Result<Vec<u8>, Ending>
    ensures { IsBlankImage blocks result }
{
    let volume = MemoryVolume::create(alloc, blocks)?;
    let bytes = volume.to_bytes(alloc)?;
    Ok(bytes)
}

/// The file of a DECtape with an empty volume.
fn blank_tape_file(alloc: Global) -> Result<Vec<u8>, Ending>
    ensures { IsBlankTapeFile result }
{
    let volume = MemoryVolume::create(alloc, TAPE_BLOCKS)?;
    let bytes = volume.to_bytes(alloc)?;
    let file = blank_tape(alloc, &bytes)?;
    Ok(file)
}

/// Makes the file of a volume of so many blocks, and prints its line.
fn make_volume<H: Host>(
    host: &mut H,
    alloc: Global,
    form: &CreateForm,
    file: &[u8],
    blocks: usize,
) -> Result<(), Ending>
    ensures { MakesVolume form.now file.now blocks (H.history host.old) result (H.history host.new) }
{
    let line = program_line(alloc, &ProgramLine::Created(blocks))?;
    make_wanted(host, alloc, form, file)?;
    report(host, &line)
}

/// Makes the file of a volume.
fn make_wanted<H: Host>(
    host: &mut H,
    alloc: Global,
    form: &CreateForm,
    file: &[u8],
) -> Result<(), Ending>
    ensures { MakesIf form.now.is_new form.now.file.bytes.items file.now (H.history host.old) result (H.history host.new) }
{
    if form.is_new {
        return make_first(host, alloc, form.file.as_str(), file);
    }
    make_file(host, alloc, Content::Image, form.file.as_str(), file)
}
