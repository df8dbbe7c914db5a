ghost use Rattle.std.specs.Prelude.{◌≡◌, ◌<◌, length, MatchResult};
ghost use Rattle.archive_files.specs.Asking.{target_of};
ghost use Rattle.archive_many.specs.Choosing as spec;
ghost use Rattle.archive_many.specs.Choosing.{Chooses, beginning_at, files_like};

use crate::{ChoiceFault, VolumeFile};
use archive_files::Asked;
use name_spelling::{is_choice, matches, typed_name};
use os8_dir::Name;
use os8_files::FileFault;
use std::alloc::{AllocError, Global};

/// The files that a word chooses, in their order: that of a typed name, or all that are like a pattern. A pattern is 1 to 12 capital
/// letters, digits and signs, then nothing, or a dot and 1 to 4 more (this project's profile). In it `*` stands for any characters,
/// also none, and `?` for one. Without a dot it is of names with no extension.
pub fn choose_files(
    alloc: Global,
    files: &[VolumeFile],
    word: &[u8],
) -> Result<Vec<VolumeFile>, ChoiceFault>
    ensures { Chooses files.now word.now result }
{
    if !is_choice(word) {
        return Err(ChoiceFault::BadName);
    }
    let chosen = matching(alloc, files, word)?;
    if chosen.is_empty() {
        return Err(ChoiceFault::NotFound);
    }
    Ok(chosen)
}

/// The files whose names are like a word; memory is wanted only where there is one.
fn matching(alloc: Global, files: &[VolumeFile], word: &[u8]) -> Result<Vec<VolumeFile>, AllocError>
    ensures { MatchResult result (λ chosen. chosen.items ≡ files_like word.now files.now)
        (λ _. 0 < length (files_like word.now files.now)) }
{
    let mut chosen = Vec::new(alloc);
    let mut rest = files;
    while let [file, others @ ..] = rest {
        if matches(word, file.name) {
            chosen.push(*file)?;
        }
        rest = others;
    }
    Ok(chosen)
}

/// The file of some that begins at a block, none where no file does.
pub fn at_place(files: &[VolumeFile], place: usize) -> Option<VolumeFile>
    ensures { result ≡ beginning_at place files.now }
{
    let mut rest = files;
    while let [file, others @ ..] = rest {
        if file.place == place {
            return Some(*file);
        }
        rest = others;
    }
    None
}

/// The file of some that is asked for. Where a text is no name, or no file is there, that is the fault (this project's profile).
pub fn file_asked(asked: &Asked, files: &[VolumeFile]) -> Result<VolumeFile, FileFault>
    ensures { result ≡ spec.file_asked (target_of asked.now) files.now }
{
    match asked {
        Asked::Name(text) => match typed_name(text.as_bytes()) {
            None => Err(FileFault::BadName),
            Some(name) => file_or_none(file_named(name, files)),
        },
        Asked::At(place) => file_or_none(at_place(files, *place)),
    }
}

fn file_or_none(found: Option<VolumeFile>) -> Result<VolumeFile, FileFault>
    ensures { result ≡ spec.file_or_none found }
{
    match found {
        None => Err(FileFault::NotFound),
        Some(file) => Ok(file),
    }
}

/// The file of these that has a name.
fn file_named(name: Name, files: &[VolumeFile]) -> Option<VolumeFile>
    ensures { result ≡ spec.file_named name files.now }
{
    let mut rest = files;
    while let [file, others @ ..] = rest {
        if file.name == name {
            return Some(*file);
        }
        rest = others;
    }
    None
}
