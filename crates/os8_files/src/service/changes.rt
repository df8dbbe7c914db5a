//! Changes of the directory.
ghost use Rattle.std.specs.Prelude.{◌≡◌, ◌≤◌, false, None, Ok, IfOk, length};
ghost use Rattle.os8_dir.specs.Found.{IsDirectory, limit};
ghost use Rattle.os8_files.specs.Calls.{DeletesFile};
ghost use Rattle.os8_files.specs.WriteSteps.{RewritesDirectory};

use crate::segments::write_segments;
use crate::{FileFault, FileService};
use os8_dir::laws::{
    directory_numbers, entry_counts, file_removed, files_found, files_made, read_back,
    sound_directory,
};
use os8_dir::{DirFault, Directory, Name};
use std::alloc::{AllocError, Global};
use volume_image::BlockStore;

/// What a change of a directory made; it fails only where memory runs out.
pub(crate) fn changed_directory(made: Result<Directory, DirFault>) -> Result<Directory, AllocError>
    ensures { IfOk result (λ directory. made ≡ Ok directory) }
{
    match made {
        Ok(directory) => Ok(directory),
        Err(_) => Err(AllocError),
    }
}

impl<S: BlockStore> FileService<S> {
    /// Writes another directory.
    pub(crate) fn rewrite(&mut self, directory: Directory) -> Result<(), FileFault>
        requires running { self.old.stopped ≡ false }
        requires none { self.old.tentative ≡ None }
        requires sound { IsDirectory (length self.old.blocks) directory }
        requires fits { length directory.entries ≤ limit directory }
        ensures { RewritesDirectory self.old directory result self.new }
    {
        read_back();
        match write_segments(&mut self.store, &mut self.segments, &directory) {
            Ok(()) => {
                self.directory = directory;
                Ok(())
            }
            Err(_) => {
                self.stopped = true;
                Err(FileFault::Device)
            }
        }
    }

    /// Takes a file out of the directory, and writes that: one write for each of blocks 1 to 6 whose words change. While a
    /// file is written it is `TentativeOpen`; then come `NotFound`, `Busy` where the file is held, and `DirectoryFull`
    /// where the list without it is too long.
    pub fn delete(&mut self, alloc: Global, name: &Name) -> Result<(), FileFault>
        ensures { DeletesFile self.old name.now result self.new }
    {
        if self.stopped {
            return Err(FileFault::Stopped);
        }
        if self.tentative.is_some() {
            return Err(FileFault::TentativeOpen);
        }
        files_found();
        if self.directory.find(name).is_none() {
            return Err(FileFault::NotFound);
        }
        if self.is_held(*name) {
            return Err(FileFault::Busy(*name));
        }
        directory_numbers();
        sound_directory();
        file_removed();
        files_made();
        entry_counts();
        let directory = changed_directory(self.directory.without_file(alloc, name))?;
        if directory.entries().len() > directory.limit() {
            return Err(FileFault::DirectoryFull);
        }
        self.rewrite(directory)
    }
}
