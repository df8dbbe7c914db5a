ghost use Rattle.std.specs.Prelude.{Some, option_copied};
ghost use Rattle.os8_dir.specs.Entries.{IsNamed};
ghost use Rattle.name_spelling.specs.Reading.{typed_name};
ghost use Rattle.archive_files.specs.Asking.{target_of};
ghost use Rattle.archive_files.specs.ChangeSteps.{PutsBlocks, ReadsFile};
ghost use Rattle.archive_files.specs.Copying.{CopiesFile};
ghost use Rattle.archive_files.specs.Parts.{AreBlocks};

use crate::asking::find_name;
use crate::getting::words_of;
use crate::opening::mount_image;
use crate::putting::put_words;
use crate::{ArchiveFault, Asked, CopyFault, NewImage};
use name_spelling::typed_name;
use os8_dir::Name;
use os8_files::FileFault;
use os8_files::laws::whole_files;
use refusals::SessionFault;
use std::alloc::Global;
use word12::Word;

/// The name of a file, its information words with zeros after them, and its words.
#[derive(Drop)]
struct FileWords {
    name: Name,
    info: [Word; 10],
    words: Vec<Word>,
}

/// The image into which a file of another image is put, under a new name or its own. The file has its words and its information
/// words, and stands in place of an older file of that name there. Both images that are handed in stay as they are (OS/8 Software
/// Support Manual; the faults and their order are this project's profile).
pub fn copy(
    alloc: Global,
    from: &[u8],
    asked: &Asked,
    to: &[u8],
    new_name: Option<&[u8]>,
) -> Result<NewImage, CopyFault>
    ensures { CopiesFile from.now (target_of asked.now) to.now (option_copied new_name.entry) result }
{
    match read_file(alloc, from, asked) {
        Err(fault) => Err(CopyFault::From(fault)),
        Ok(file) => {
            let FileWords { name, info, words } = file;
            let put = match new_name {
                Some(other) => put_typed(alloc, to, other, &words, &info),
                None => put_blocks(alloc, to, name, &words, &info),
            };
            match put {
                Err(fault) => Err(CopyFault::To(fault)),
                Ok(new) => Ok(new),
            }
        }
    }
}

/// The file that is asked for, with its name, its information words and its words.
fn read_file(alloc: Global, image: &[u8], asked: &Asked) -> Result<FileWords, ArchiveFault>
    ensures { ReadsFile image.now (target_of asked.now) result }
{
    let (files, name) = find_name(alloc, image, asked)?;
    match files.information(&name) {
        None => Err(ArchiveFault::Refused(SessionFault::File(FileFault::NotFound))),
        Some(info) => {
            whole_files();
            let words = words_of(alloc, files, name)?;
            Ok(FileWords { name, info, words })
        }
    }
}

/// The image with a file of these words under a typed name.
fn put_typed(
    alloc: Global,
    image: &[u8],
    name: &[u8],
    words: &[Word],
    info: &[Word],
) -> Result<NewImage, ArchiveFault>
    requires { AreBlocks words.now }
    ensures { PutsBlocks image.now (typed_name name.now) info.now words.now result }
{
    let files = mount_image(alloc, image)?;
    match typed_name(name) {
        None => Err(ArchiveFault::Refused(SessionFault::File(FileFault::BadName))),
        Some(name) => {
            let new = put_words(alloc, files, name, words, Some(info))?;
            Ok(new)
        }
    }
}

/// The image with a file of these words under a name.
fn put_blocks(
    alloc: Global,
    image: &[u8],
    name: Name,
    words: &[Word],
    info: &[Word],
) -> Result<NewImage, ArchiveFault>
    requires named { IsNamed name }
    requires words { AreBlocks words.now }
    ensures { PutsBlocks image.now (Some name) info.now words.now result }
{
    let files = mount_image(alloc, image)?;
    let new = put_words(alloc, files, name, words, Some(info))?;
    Ok(new)
}
