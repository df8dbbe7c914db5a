ghost use Rattle.std.specs.Prelude.{◌≡◌, [], option_copied};
ghost use Rattle.os8_dir.specs.Entries.{IsNamed};
ghost use Rattle.os8_files.specs.Calls.{IsReady};
ghost use Rattle.archive_files.specs.Putting.{PutsFile};
ghost use Rattle.archive_files.specs.Parts.{AreBlocks, MakesWords, PutsInformed, PutsWords};
ghost use Rattle.archive_files.specs.declared.forms.PutForm.TheVariants as form;

use crate::opening::{image_of, mount_image};
use crate::texts::text_frames;
use crate::{ArchiveFault, PutForm};
use char_pack::{is_storable, pack_blocks};
use name_spelling::typed_name;
use os8_dir::Name;
use os8_files::{FileFault, FileService};
use refusals::SessionFault;
use std::alloc::Global;
use volume_image::MemoryVolume;
use word12::{BLOCK, Word};

/// An image with a file that was put into it.
#[derive(Debug, Drop)]
pub struct NewImage {
    pub bytes: Vec<u8>,
    pub name: Name,
    /// How many blocks the file has.
    pub blocks: usize,
}

/// The image with a file of the fewest blocks for some bytes, zeros after the last, in place of an older file of the name. It gets the information
/// words that are given, or keeps those of the older file; missing ones are 0. The image that is handed in stays as it is (OS/8 Software Support
/// Manual; the faults and their order are this project's profile).
pub fn put(
    alloc: Global,
    image: &[u8],
    name: &[u8],
    bytes: &[u8],
    form: PutForm,
    info: Option<&[Word]>,
) -> Result<NewImage, ArchiveFault>
    ensures { PutsFile image.now name.now form bytes.now (option_copied info.entry) result }
{
    let files = mount_image(alloc, image)?;
    match typed_name(name) {
        None => Err(ArchiveFault::Refused(SessionFault::File(FileFault::BadName))),
        Some(name) => {
            let words = stored_words(alloc, bytes, form)?;
            let new = put_words(alloc, files, name, &words, info)?;
            Ok(new)
        }
    }
}

/// The words of bytes in a file, whole blocks of 256 with zeros after the last byte. The bytes are frames, of which there is one at least, or a
/// text of the host (OS/8 Software Support Manual; what is refused is this project's profile).
pub fn stored_words(alloc: Global, bytes: &[u8], form: PutForm) -> Result<Vec<Word>, SessionFault>
    ensures { MakesWords form bytes.now result }
{
    match form {
        PutForm::Frames => words_of_frames(alloc, bytes),
        PutForm::Text => words_of_text(alloc, bytes),
    }
}

/// The words of frames in a file.
fn words_of_frames(alloc: Global, frames: &[u8]) -> Result<Vec<Word>, SessionFault>
    ensures { MakesWords form.Frames frames.now result }
{
    if frames.is_empty() {
        return Err(SessionFault::File(FileFault::NothingWritten));
    }
    let words = pack_blocks(alloc, frames)?;
    Ok(words)
}

/// The words of a text in a file.
fn words_of_text(alloc: Global, text: &[u8]) -> Result<Vec<Word>, SessionFault>
    ensures { MakesWords form.Text text.now result }
{
    if !is_storable(text) {
        return Err(SessionFault::BadText);
    }
    let frames = text_frames(alloc, text)?;
    let words = pack_blocks(alloc, &frames)?;
    Ok(words)
}

/// The image with a file of these words, of whole blocks of 256. It has the information words that are given, or those of the older file of the
/// name, which no file that is held has (OS/8 Software Support Manual). The faults and their order are this project's profile.
pub fn put_words(
    alloc: Global,
    mut files: FileService<MemoryVolume>,
    name: Name,
    words: &[Word],
    info: Option<&[Word]>,
) -> Result<NewImage, SessionFault>
    requires named { IsNamed name }
    requires words { AreBlocks words.now }
    requires ready { IsReady files }
    requires free { files.holds ≡ [] }
    ensures { PutsWords files name (option_copied info.entry) words.now result }
{
    let put = put_informed(alloc, &mut files, name, words, info);
    let volume = files.into_store();
    put?;
    let bytes = image_of(alloc, &volume)?;
    Ok(NewImage {
        bytes,
        name,
        blocks: words.len() / BLOCK,
    })
}

/// Makes a file of these words, of whole blocks of 256. It has the information words that are given or those of the older file of the name (OS/8
/// Software Support Manual). The faults and their order are this project's profile.
pub fn put_informed(
    alloc: Global,
    files: &mut FileService<MemoryVolume>,
    name: Name,
    words: &[Word],
    info: Option<&[Word]>,
) -> Result<(), FileFault>
    requires named { IsNamed name }
    requires words { AreBlocks words.now }
    requires ready { IsReady files.old }
    ensures { PutsInformed files.old name (option_copied info.entry) words.now result files.new }
{
    if let Some(given) = info {
        return files.put_with(alloc, name, words, given);
    }
    match files.information(&name) {
        Some(kept) => files.put_with(alloc, name, words, &kept),
        None => files.put_with(alloc, name, words, &[]),
    }
}
