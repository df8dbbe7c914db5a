ghost use Rattle.std.specs.Prelude.{◌≡◌, ◌+◌, ◌≤◌, ◌++◌, IfOk, OnOk};
ghost use Rattle.word12.specs.declared.sizes.TheConstants.{MOST_BLOCKS};
ghost use Rattle.os8_dir.specs.Entries.{total};
ghost use Rattle.volume_image.specs.Image.{block_word};
ghost use Rattle.archive_many.specs.Opened.{GetsFile, OpensVolume, files_on, first_of, first_word, information_on};
ghost use Rattle.archive_many.specs.Cutting.{are_zeros, is_cut};
ghost use Rattle.archive_many.specs.Steps.{file_of_entry, files_of_entries};

use crate::images::volume_of;
use archive_files::parts::{content_of_words, words_at};
use archive_files::{ArchiveFault, GetForm};
use os8_dir::laws::{files_found, files_inside, sound_directory};
use os8_dir::{DirEntry, DirFault, Directory, Name};
use os8_files::FileFault;
use refusals::SessionFault;
use std::alloc::{AllocError, Global};
use std::marker::Model;
use volume_image::{BlockStore, MemoryVolume};
use word12::Word;

/// A file of a volume: its name, its first block, and its length in blocks.
#[derive(Clone, Copy, PartialEq, Eq, Debug)]
pub struct VolumeFile {
    pub name: Name,
    pub place: usize,
    pub blocks: usize,
}

/// A sound volume whose directory was read. A contract sees its blocks.
#[derive(Drop)]
pub struct OpenVolume {
    volume: MemoryVolume,
    directory: Directory,
}

impl Model for OpenVolume {
    ghost use Rattle.std.specs.Prelude.{◌≡◌, ℕ, List, Ok};
    ghost use Rattle.os8_dir.specs.Reading.{directory_of};

    ghost Value = { List (List ℕ) };

    ghost view = { λ opened. opened.volume.blocks };

    ghost invariant = { λ opened. directory_of opened.volume.blocks ≡ Ok opened.directory };
}

/// Opens an image, which is accepted or refused as a mount does (OS/8 Software Support Manual; the faults and their order are this
/// project's profile).
pub fn open(alloc: Global, image: &[u8]) -> Result<OpenVolume, ArchiveFault>
    ensures { OpensVolume image.now result }
{
    let mut volume = volume_of(alloc, image)?;
    match Directory::read(alloc, &mut volume) {
        Err(DirFault::Memory) => Err(ArchiveFault::Refused(SessionFault::Memory)),
        Err(fault) => Err(ArchiveFault::Directory(fault)),
        Ok(directory) => Ok(OpenVolume { volume, directory }),
    }
}

impl OpenVolume {
    /// All files of the volume, in order of their blocks (OS/8 Software Support Manual).
    pub fn files(&self, alloc: Global) -> Result<Vec<VolumeFile>, AllocError>
        ensures { IfOk result (λ files. files.items ≡ files_on self.now) }
    {
        sound_directory();
        let mut files = Vec::new(alloc);
        put_files(
            self.directory.first_block(),
            self.directory.entries(),
            &mut files,
        )?;
        Ok(files)
    }

    /// The first information word of the file of a name, where there is one and the volume has information words (OS/8 Software Support
    /// Manual).
    pub fn first_word(&self, name: Name) -> Option<Word>
        ensures { result ≡ first_word self.now name }
    {
        let count = self.directory.information_words();
        match self.directory.information(&name) {
            Some(words) => first_of(words.split_at(count).0),
            None => None,
        }
    }

    /// Whether a copy of the file of a name lacks an information word that is not 0, where it gets so many of them (OS/8 Software Support Manual).
    pub fn is_cut(&self, name: Name, count: usize) -> bool
        ensures { result ≡ is_cut self.now name count }
    {
        match self.directory.information(&name) {
            Some(words) => !are_zeros(words.split_at(count.min(words.len())).1),
            None => false,
        }
    }

    /// How many information words each file of the volume has (OS/8 Software Support Manual).
    pub fn information_words(&self) -> usize
        ensures { result ≡ information_on self.now }
    {
        self.directory.information_words()
    }

    /// The last word of block 0, where a system disk has the word at 07777 of field 0 (OS/8 Software Support Manual).
    pub fn last_word(&self) -> Word
        ensures { result ≡ block_word self.now 0 0o377 }
    {
        let _blocks = self.volume.blocks();
        let words = self.volume.block(0);
        words[0o377]
    }

    /// What one of the volume's files has: its frames, its text, or the tape that it begins with, as `archive_files::get` gives it. One
    /// that does not lie where it is said to is `NotFound` (OS/8 Software Support Manual; the faults are this project's profile).
    pub fn get(
        &self,
        alloc: Global,
        file: &VolumeFile,
        form: GetForm,
    ) -> Result<Vec<u8>, SessionFault>
        ensures { GetsFile self.now file.now form result }
    {
        sound_directory();
        files_found();
        files_inside();
        match self.directory.find(&file.name) {
            None => Err(SessionFault::File(FileFault::NotFound)),
            Some((place, size)) => {
                if place != file.place || size != file.blocks {
                    return Err(SessionFault::File(FileFault::NotFound));
                }
                let words = words_at(alloc, &self.volume, place, size)?;
                let bytes = content_of_words(alloc, &words, form)?;
                Ok(bytes)
            }
        }
    }
}

/// Whether words are all 0.
fn are_zeros(words: &[Word]) -> bool
    ensures { result ≡ are_zeros words.now }
{
    let mut rest = words;
    while let [word, others @ ..] = rest {
        if *word > Word::ZERO {
            return false;
        }
        rest = others;
    }
    true
}

/// The first of some words, if there is one.
fn first_of(words: &[Word]) -> Option<Word>
    ensures { result ≡ first_of words.now }
{
    match words {
        [] => None,
        [word, ..] => Some(*word),
    }
}

/// Appends the files among entries, the first of which begins at a block.
fn put_files(
    first: usize,
    entries: &[DirEntry],
    files: &mut Vec<VolumeFile>,
) -> Result<(), AllocError>
    requires { first + total entries.now ≤ MOST_BLOCKS }
    ensures { OnOk result (files.new.items ≡ files.old.items ++ files_of_entries first entries.now) }
{
    let mut place = first;
    let mut rest = entries;
    while let [entry, others @ ..] = rest {
        put_file(place, entry, files)?;
        place += entry.length();
        rest = others;
    }
    Ok(())
}

/// Appends the file of an entry that begins at a block.
fn put_file(place: usize, entry: &DirEntry, files: &mut Vec<VolumeFile>) -> Result<(), AllocError>
    ensures { OnOk result (files.new.items ≡ files.old.items ++ file_of_entry place entry.now) }
{
    match entry {
        DirEntry::File { name, length, .. } => {
            files.push(VolumeFile {
                name: *name,
                place,
                blocks: *length,
            })?;
            Ok(())
        }
        DirEntry::Empty { .. } => Ok(()),
    }
}
