ghost use Rattle.std.specs.Prelude.{◌≡◌, false};
ghost use Rattle.volume_image.specs.Volume.{IsVolume};
ghost use Rattle.archive_files.specs.Asking.{target_of};
ghost use Rattle.archive_files.specs.Getting.{Gets};
ghost use Rattle.archive_files.specs.Parts.{FindsWords, GivesFile, ReadsWords};
ghost use Rattle.archive_files.specs.Steps.{IsWhole};

use crate::asking::find_name;
use crate::frames::frames_of;
use crate::tapes::tape_of;
use crate::texts::host_text;
use crate::{ArchiveFault, Asked, GetForm};
use os8_dir::Name;
use os8_files::laws::whole_files;
use os8_files::{FileFault, FileService};
use refusals::SessionFault;
use std::alloc::Global;
use volume_image::{BlockStore, MemoryVolume};
use word12::{BLOCK, Word};

/// What a file of an image has: its frames, its text, or the tape that it begins with (OS/8 Software Support Manual; PAL III Symbolic
/// Assembler manual, BIN format). The faults and their order are this project's profile.
pub fn get(
    alloc: Global,
    image: &[u8],
    asked: &Asked,
    form: GetForm,
) -> Result<Vec<u8>, ArchiveFault>
    ensures { Gets image.now (target_of asked.now) form result }
{
    let (files, name) = find_name(alloc, image, asked)?;
    let words = words_of(alloc, files, name)?;
    let bytes = content_of_words(alloc, &words, form)?;
    Ok(bytes)
}

/// What a file of these words gives: their frames, their text, or the tape that they begin with (OS/8 Software Support Manual; PAL III
/// Symbolic Assembler manual, BIN format).
pub fn content_of_words(
    alloc: Global,
    words: &[Word],
    form: GetForm,
) -> Result<Vec<u8>, SessionFault>
    ensures { GivesFile form words.now result }
{
    match form {
        GetForm::Frames => {
            let frames = frames_of(alloc, words)?;
            Ok(frames)
        }
        GetForm::Text => {
            let text = host_text(alloc, words)?;
            Ok(text)
        }
        GetForm::Tape => tape_of(alloc, words),
    }
}

/// The words of the file of a name.
pub fn words_of(
    alloc: Global,
    mut files: FileService<MemoryVolume>,
    name: Name,
) -> Result<Vec<Word>, SessionFault>
    requires running { files.stopped ≡ false }
    requires volume { IsVolume files.blocks }
    ensures { FindsWords files name result }
{
    let read = read_words(alloc, &mut files, name);
    let _volume = files.into_store();
    let words = read?;
    Ok(words)
}

/// Reads the words of the file of a name, 256 for each of its blocks (OS/8 Software Support Manual).
pub fn read_words<S: BlockStore>(
    alloc: Global,
    files: &mut FileService<S>,
    name: Name,
) -> Result<Vec<Word>, FileFault>
    requires running { files.old.stopped ≡ false }
    requires volume { IsVolume files.old.blocks }
    ensures { ReadsWords files.old name result files.new }
{
    whole_files();
    match files.lookup(&name) {
        None => Err(FileFault::NotFound),
        Some(blocks) => read_blocks(alloc, files, name, blocks),
    }
}

/// Reads the blocks of a file that is there.
fn read_blocks<S: BlockStore>(
    alloc: Global,
    files: &mut FileService<S>,
    name: Name,
    blocks: usize,
) -> Result<Vec<Word>, FileFault>
    requires running { files.old.stopped ≡ false }
    requires there { IsWhole files.old name blocks }
    ensures { ReadsWords files.old name result files.new }
{
    let mut words = Vec::new(alloc);
    let mut block = [Word::ZERO; BLOCK];
    for k in 0..blocks {
        files.read_block(&name, k, &mut block)?;
        words.extend_from_slice(&block)?;
    }
    Ok(words)
}
