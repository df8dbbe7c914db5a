//! The writing of a file.
ghost use Rattle.std.specs.Prelude.{◌≡◌, ◌/◌, ◌<◌, ◌+◌, nat_lt, slice_index};
ghost use Rattle.os8_files.specs.Calls.{Enters, WritesBlock, ClosesFile, IsOf};
ghost use Rattle.os8_files.specs.Steps.{IsPlaced, PlacesFile};

use super::changes::changed_directory;
use crate::begun::Begun;
use crate::{FileFault, FileService, Tentative};
use os8_dir::Name;
use os8_dir::laws::{
    directory_blocks, directory_numbers, entry_counts, file_placed, files_found, files_made, rooms,
    sound_directory,
};
use std::alloc::Global;
use volume_image::{Block, BlockStore};
use word12::Word;

/// Whether the first of some words is not 0.
fn begins_high(words: &[Word]) -> bool
    ensures { result ≡ nat_lt 0 (slice_index words.now 0) }
{
    match words {
        [] => false,
        [first, ..] => *first > Word::ZERO,
    }
}

/// Whether the first word of a name is not 0.
pub(super) fn has_first_word(name: Name) -> bool
    ensures { result ≡ nat_lt 0 (name / 68719476736) }
{
    let words = name.words();
    begins_high(&words)
}

impl<S: BlockStore> FileService<S> {
    /// Begins a file in the smallest empty that has at least `wish` blocks. For a wish of 0 it is the largest, and of equals the
    /// first (this project's profile). `BadName` is for a name whose first word is 0. Then come `TentativeOpen` while
    /// a file is written, `Busy` where the file is held, and `NoRoom` with the blocks of the largest empty.
    pub fn enter(&mut self, name: Name, wish: usize) -> Result<Tentative, FileFault>
        ensures { Enters self.old name wish result self.new }
    {
        if self.stopped {
            return Err(FileFault::Stopped);
        }
        if !has_first_word(name) {
            return Err(FileFault::BadName);
        }
        if self.tentative.is_some() {
            return Err(FileFault::TentativeOpen);
        }
        if self.is_held(name) {
            return Err(FileFault::Busy(name));
        }
        rooms();
        directory_numbers();
        sound_directory();
        files_made();
        entry_counts();
        match self.directory.fitting(wish) {
            None => Err(FileFault::NoRoom(self.directory.largest())),
            Some((place, room)) => {
                self.tentative = Some(Begun {
                    name,
                    place,
                    room,
                    blocks_written: 0,
                });
                Ok(Tentative::new(name))
            }
        }
    }

    /// Writes the next block of the file that is being written. Where its empty has no more blocks it is `TooLong`.
    pub fn write(&mut self, tentative: &mut Tentative, words: &Block) -> Result<(), FileFault>
        requires { IsOf self.old tentative.old }
        ensures call { WritesBlock self.old words.now result self.new }
        ensures token { tentative.new ≡ tentative.old }
    {
        if self.stopped {
            return Err(FileFault::Stopped);
        }
        match self.tentative {
            None => unreachable!(),
            Some(begun) => {
                let Begun {
                    name,
                    place,
                    room,
                    blocks_written: written,
                } = begun;
                if written >= room {
                    return Err(FileFault::TooLong);
                }
                directory_blocks();
                directory_numbers();
                files_found();
                sound_directory();
                rooms();
                let result = self.store.write(place + written, words);
                let _blocks = self.store.blocks();
                match result {
                    Ok(()) => {
                        self.tentative = Some(Begun {
                            name,
                            place,
                            room,
                            blocks_written: written + 1,
                        });
                        Ok(())
                    }
                    Err(_) => {
                        self.stopped = true;
                        Err(FileFault::Device)
                    }
                }
            }
        }
    }

    /// Makes the file that is being written one of the directory, and writes that: one write for each of blocks 1 to 6
    /// whose words change. Of the words given the first are its information words, and missing ones are 0; an older file
    /// of the name goes. Where no block was written it is `NothingWritten`; then come `Busy` where the file is held, and
    /// `DirectoryFull` where the new list is too long. On each of these the file is given up.
    pub fn close(
        &mut self,
        alloc: Global,
        tentative: Tentative,
        info: &[Word],
    ) -> Result<(), FileFault>
        requires { IsOf self.old tentative }
        ensures { ClosesFile self.old tentative info.now result self.new }
    {
        let name = tentative.spend();
        let begun = self.tentative;
        self.tentative = None;
        if self.stopped {
            return Err(FileFault::Stopped);
        }
        match begun {
            None => unreachable!(),
            Some(begun) => self.place(alloc, name, begun, info),
        }
    }

    /// Places a file that was written in the directory, and writes that.
    fn place(
        &mut self,
        alloc: Global,
        name: Name,
        begun: Begun,
        info: &[Word],
    ) -> Result<(), FileFault>
        requires begun { IsPlaced self.old begun }
        requires names { begun.name ≡ name }
        ensures { PlacesFile self.old name begun info.now result self.new }
    {
        if begun.blocks_written == 0 {
            return Err(FileFault::NothingWritten);
        }
        if self.is_held(name) {
            return Err(FileFault::Busy(name));
        }
        directory_numbers();
        files_found();
        sound_directory();
        file_placed();
        files_made();
        entry_counts();
        rooms();
        let placed = self
            .directory
            .with_new_file(alloc, &name, info, begun.place, begun.blocks_written);
        let directory = changed_directory(placed)?;
        if directory.entries().len() > directory.limit() {
            return Err(FileFault::DirectoryFull);
        }
        self.rewrite(directory)
    }
}
