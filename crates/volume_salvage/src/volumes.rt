ghost use Rattle.std.specs.Prelude.{◌≡◌, ℕ, ◌↔◌, IsTrue};
ghost use Rattle.os8_dir.specs.Entries.{IsNamed};
ghost use Rattle.os8_files.specs.Calls.{IsReady};
ghost use Rattle.volume_image.specs.Image.{IsNewVolume};
ghost use Rattle.volume_salvage.specs.Rescued.{AreBlocks, Keeps, Rescues};
ghost use Rattle.volume_salvage.specs.Steps.{KeepsFiles, Mounts};

use crate::{Refusal, RescueFault};
use os8_dir::Name;
use os8_dir::laws::{directory_numbers, files_found, new_volumes, sound_directory};
use os8_files::{FileFault, FileService};
use std::alloc::Global;
use volume_image::MemoryVolume;
use word12::{BLOCK, Word};

/// A file that is to be kept.
#[derive(Debug, Drop)]
pub struct KeptFile {
    pub name: Name,
    pub words: Vec<Word>,
    pub info: [Word; 10],
}

/// The image of a new volume of 8 to 4095 blocks with just these files, in their order from block 7 on. Each has its words and, as far
/// as a new directory has room for them, its information words (OS/8 Software Support Manual; the faults and their order are this
/// project's profile). The last of two files of one name counts. The first file that is refused is reported by its place.
pub fn volume_of_files(
    alloc: Global,
    blocks: usize,
    files: &[KeptFile],
) -> Result<Vec<u8>, RescueFault>
    ensures { Rescues blocks files.now result }
{
    new_volumes();
    let volume = MemoryVolume::create(alloc, blocks)?;
    let mut service = mount_new(alloc, blocks, volume)?;
    keep_files(alloc, &mut service, files)?;
    let full = service.into_store();
    let image = full.to_bytes(alloc)?;
    Ok(image)
}

/// The files of a new volume of so many blocks, of which there are none.
pub(crate) fn mount_new(
    alloc: Global,
    blocks: usize,
    volume: MemoryVolume,
) -> Result<FileService<MemoryVolume>, RescueFault>
    requires { IsNewVolume blocks volume.blocks }
    ensures { Mounts blocks result }
{
    let _size = blocks;
    new_volumes();
    directory_numbers();
    sound_directory();
    files_found();
    match FileService::mount(alloc, volume) {
        Ok(service) => Ok(service),
        Err(_) => Err(RescueFault::Unread),
    }
}

/// Puts files into a volume, one after the other.
fn keep_files(
    alloc: Global,
    service: &mut FileService<MemoryVolume>,
    files: &[KeptFile],
) -> Result<(), Refusal>
    requires { IsReady service.old }
    ensures { KeepsFiles service.old files.now result service.new }
{
    let mut place: usize = 0;
    let mut rest = files;
    while let [file, others @ ..] = rest {
        keep_file(alloc, service, file, place)?;
        place += 1;
        rest = others;
    }
    Ok(())
}

/// Puts a file, which has this place among others, into a volume.
pub(crate) fn keep_file(
    alloc: Global,
    service: &mut FileService<MemoryVolume>,
    file: &KeptFile,
    place: usize,
) -> Result<(), Refusal>
    requires { IsReady service.old }
    ensures { Keeps service.old file.now place result service.new }
{
    if !has_first_word(file.name) {
        return Err(Refusal::NoName(place));
    }
    if !are_blocks(&file.words) {
        return Err(Refusal::NotWhole(place));
    }
    match service.put_with(alloc, file.name, &file.words, &file.info) {
        Ok(()) => Ok(()),
        Err(FileFault::NoRoom(largest)) => Err(Refusal::NoRoom(place, largest)),
        Err(FileFault::DirectoryFull) => Err(Refusal::DirectoryFull(place)),
        Err(_) => Err(Refusal::Failed(place)),
    }
}

/// Whether words are whole blocks, one at least.
fn are_blocks(words: &[Word]) -> bool
    ensures { IsTrue result ↔ AreBlocks words.now }
{
    !words.is_empty() && words.len().is_multiple_of(BLOCK)
}

/// Whether the first word of a name is not 0.
fn has_first_word(name: Name) -> bool
    ensures { IsTrue result ↔ IsNamed name }
{
    let [first, _, _, _] = name.words();
    first.get() > 0
}
