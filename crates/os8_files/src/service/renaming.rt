//! Other names of files.
ghost use Rattle.std.specs.Prelude.{◌≡◌, false, None};
ghost use Rattle.std.specs.FinMap.{get};
ghost use Rattle.os8_dir.specs.Entries.{IsNamed};
ghost use Rattle.os8_dir.specs.Files.{files_of};
ghost use Rattle.os8_files.specs.Calls.{IsReady, IsThere, IsFree};
ghost use Rattle.os8_files.specs.Renames.{RenamesFile};

use super::changes::changed_directory;
use super::writing::has_first_word;
use crate::{FileFault, FileService};
use os8_dir::Name;
use os8_dir::laws::{directory_numbers, file_renamed, files_found, files_made, sound_directory};
use std::alloc::Global;
use volume_image::BlockStore;

impl<S: BlockStore> FileService<S> {
    /// Gives a file a name that no file has, and writes that: one write for each of blocks 1 to 6 whose words change. It lies where
    /// it lay, with its information words (this project's profile). `BadName` is for a new name whose first word is 0. Then come
    /// `TentativeOpen` while a file is written, `NotFound`, `Busy` where one of the names is held, and `DirectoryFull` where the
    /// list is too long.
    pub fn rename(&mut self, alloc: Global, name: &Name, new_name: Name) -> Result<(), FileFault>
        requires { self.old.stopped ≡ false → get (files_of self.old.blocks) new_name ≡ None }
        ensures { RenamesFile self.old name.now new_name result self.new }
    {
        if self.stopped {
            return Err(FileFault::Stopped);
        }
        if !has_first_word(new_name) {
            return Err(FileFault::BadName);
        }
        if self.tentative.is_some() {
            return Err(FileFault::TentativeOpen);
        }
        files_found();
        if self.directory.find(name).is_none() {
            return Err(FileFault::NotFound);
        }
        if self.is_held(*name) {
            return Err(FileFault::Busy(*name));
        }
        if self.is_held(new_name) {
            return Err(FileFault::Busy(new_name));
        }
        self.give_name(alloc, name, new_name)
    }

    /// Writes the directory in which a file has a new name.
    fn give_name(&mut self, alloc: Global, name: &Name, new_name: Name) -> Result<(), FileFault>
        requires ready { IsReady self.old }
        requires named { IsNamed new_name }
        requires there { IsThere self.old name.now }
        requires fresh { get (files_of self.old.blocks) new_name ≡ None }
        requires free { IsFree self.old name.now }
        requires unheld { IsFree self.old new_name }
        ensures { RenamesFile self.old name.now new_name result self.new }
    {
        directory_numbers();
        sound_directory();
        files_found();
        files_made();
        file_renamed();
        let directory = changed_directory(self.directory.with_new_name(alloc, name, new_name))?;
        if directory.entries().len() > directory.limit() {
            return Err(FileFault::DirectoryFull);
        }
        self.rewrite(directory)
    }
}
