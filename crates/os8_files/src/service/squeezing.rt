//! The moving of files to lower blocks.
ghost use Rattle.std.specs.Prelude.{◌≡◌, ◌+◌, ◌<◌, ◌≤◌, false, None, Some, length};
ghost use Rattle.word12.specs.declared.sizes.TheConstants.{FIRST_FILE_BLOCK};
ghost use Rattle.os8_files.specs.Calls.{Squeezes, IsReady};
ghost use Rattle.os8_files.specs.Failed.{lowest_or};
ghost use Rattle.os8_files.specs.WriteSteps.{CopiesBlocks};
ghost use Rattle.os8_dir.specs.Reading.{directory_of};

use super::changes::changed_directory;
use crate::copying::{blank_run, read_run, write_run};
use crate::{FileFault, FileService, Squeezed};
use os8_dir::laws::{
    directory_blocks, directory_numbers, entry_counts, file_moved_down, files_found, files_made,
    lowest_file, rooms, sound_directory,
};
use os8_dir::{Directory, Name};
use std::alloc::Global;
use volume_image::BlockStore;

impl<S: BlockStore> FileService<S> {
    /// Moves the lowest file with an empty directly below it down by that empty's blocks, with one read and one write for
    /// each of its blocks. Then writes the directory, with one write for each of blocks 1 to 6 whose words change. Where
    /// there is no such file it is `Nothing` (this project's profile). A held file is moved too. While a file is written
    /// it is `TentativeOpen`; then comes `DirectoryFull` where the new list is too long. All blocks of the file are read
    /// before the first is written, so a read that fails changes nothing.
    pub fn squeeze_turn(&mut self, alloc: Global) -> Result<Squeezed, FileFault>
        ensures { Squeezes self.old result self.new }
    {
        if self.stopped {
            return Err(FileFault::Stopped);
        }
        if self.tentative.is_some() {
            return Err(FileFault::TentativeOpen);
        }
        lowest_file();
        directory_numbers();
        sound_directory();
        match self.directory.lowest_above() {
            None => Ok(Squeezed::Nothing),
            Some((name, gap)) => self.move_down(alloc, name, gap),
        }
    }

    /// Moves the file of a name down by the empty directly below it.
    fn move_down(&mut self, alloc: Global, name: Name, gap: usize) -> Result<Squeezed, FileFault>
        requires ready { IsReady self.old }
        requires lowest { lowest_or (directory_of self.old.blocks) ≡ Some (name, gap) }
        ensures { Squeezes self.old result self.new }
    {
        lowest_file();
        directory_numbers();
        directory_blocks();
        sound_directory();
        files_found();
        rooms();
        files_made();
        entry_counts();
        file_moved_down();
        let directory = changed_directory(self.directory.moved_down(alloc, &name))?;
        if directory.entries().len() > directory.limit() {
            return Err(FileFault::DirectoryFull);
        }
        match self.directory.find(&name) {
            None => unreachable!(),
            Some((place, size)) => {
                self.copy_down(alloc, place, size, gap)?;
                self.rewrite(directory)?;
                Ok(Squeezed::Moved(name))
            }
        }
    }

    /// Copies a run of blocks so many blocks down. All are read before the first is written.
    fn copy_down(
        &mut self,
        alloc: Global,
        place: usize,
        size: usize,
        gap: usize,
    ) -> Result<(), FileFault>
        requires running { self.old.stopped ≡ false }
        requires none { self.old.tentative ≡ None }
        requires high { FIRST_FILE_BLOCK + gap ≤ place }
        requires inside { place + size ≤ length self.old.blocks }
        ensures { CopiesBlocks self.old place size gap result self.new }
    {
        directory_blocks();
        let mut run = blank_run(alloc, size)?;
        read_run(&mut self.store, place, &mut run)?;
        match write_run(&mut self.store, place - gap, &run) {
            Ok(()) => Ok(()),
            Err(_) => {
                self.stopped = true;
                Err(FileFault::Device)
            }
        }
    }
}
