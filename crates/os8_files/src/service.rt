ghost use Rattle.std.specs.Prelude.{◌≡◌, ℕ, ◌+◌, ◌<◌, ◌≤◌, ◌↔◌, List, [], true, false, Option, Some, None, Ok, IfOk, IfErr, OnOk};
ghost use Rattle.std.specs.FinMap.{get};
ghost use Rattle.os8_dir.specs.Reading.{Sound, HasFault, MeetsFault, directory_of};
ghost use Rattle.std.specs.Option.{is_some};
ghost use Rattle.os8_dir.specs.Found.{free_blocks, count_files};
ghost use Rattle.os8_dir.specs.Files.{files_of, capacity_of, above_of};
ghost use Rattle.os8_dir.specs.declared.faults.DirFault.TheVariants.{Device};
ghost use Rattle.volume_image.specs.Volume.{IsVolume};
ghost use Rattle.os8_files.specs.Mounted.{AreSegments};
ghost use Rattle.os8_files.specs.Service.{blocks_of, information_of, blocks_in_use, count_of};
ghost use Rattle.os8_files.specs.Failed.{information_in, size_in};
ghost use Rattle.os8_files.specs.Holds.{without_hold};
ghost use Rattle.os8_files.specs.Calls.{ReadsBlock, ListsFiles, HoldsFile, IsLonger};
ghost use Rattle.os8_dir.specs.Entries.{DirectoryState, contains};

use crate::begun::Begun;
use crate::copying::{blank_run, read_run};
use crate::holds::{add_hold, first_of};
use crate::lengths::files_by_name;
use crate::{FileFault, Hold, Tentative};
use os8_dir::laws::{
    directory_numbers, file_information, files_found, files_inside, files_made, sound_directory,
};
use os8_dir::{DirFault, Directory, Name};
use std::alloc::Global;
use std::marker::Model;
use volume_image::{Block, BlockStore};
use word12::Word;

mod changes;
mod putting;
mod renaming;
mod squeezing;
mod writing;

/// The files of a sound volume.
#[derive(Drop)]
pub struct FileService<S: BlockStore> {
    store: S,
    directory: Directory,
    segments: Vec<Block>,
    stopped: bool,
    holds: Vec<Name>,
    tentative: Option<Begun>,
}

impl<S: BlockStore> Model for FileService<S> {
    ghost use Rattle.std.specs.Prelude.{if◌then◌else◌, Some, None};
    ghost use Rattle.os8_files.specs.Mounted.{MountState, IsMounted};

    ghost Value = { MountState };

    ghost view = { λ s. record {
      blocks = S.contents s.store;
      reads = S.reads s.store;
      writes = S.writes s.store;
      failed_reads = S.failed_reads s.store;
      failed_writes = S.failed_writes s.store;
      stopped = s.stopped;
      last = if s.stopped then Some s.directory else None;
      holds = s.holds.items;
      tentative = s.tentative;
    } };

    ghost invariant = { λ s.
        IsMounted (S.contents s.store) s.segments.items s.directory s.stopped s.tentative };
}

/// The directory of a store, and the words of blocks 1 to 6.
fn read_parts<S: BlockStore>(
    alloc: Global,
    store: &mut S,
) -> Result<(Directory, Vec<Block>), DirFault>
    ensures directory { IfOk result (λ parts. directory_of (S.contents store.old) ≡ Ok parts.0) }
    ensures segments { IfOk result (λ parts. AreSegments (S.contents store.old) parts.1.items) }
    ensures fault { IfErr result (λ fault. MeetsFault fault (directory_of (S.contents store.old))) }
    ensures device { IfErr result (λ fault. (fault ≡ Device)
        ↔ (S.failed_reads store.old < S.failed_reads store.new)) }
    ensures failed_reads { OnOk result (S.failed_reads store.new ≡ S.failed_reads store.old) }
    ensures volume { IsVolume (S.contents store.new) }
    ensures same { S.contents store.new ≡ S.contents store.old }
    ensures reads { S.reads store.new ≤ S.reads store.old + 12 }
    ensures writes { S.writes store.new ≡ S.writes store.old }
    ensures failed_writes { S.failed_writes store.new ≡ S.failed_writes store.old }
{
    let _blocks = store.blocks();
    let directory = Directory::read(alloc, store)?;
    let mut segments = blank_run(alloc, 6)?;
    read_run(store, 1, &mut segments)?;
    Ok((directory, segments))
}

impl<S: BlockStore> FileService<S> {
    /// The files of a sound volume, after at most twelve reads: those of its directory, and then those of blocks 1 to 6,
    /// whose words are kept. Another store is handed back with the first fault of its directory; so is any store with
    /// `Device` where a read failed, and with `Memory`.
    pub fn mount(alloc: Global, mut store: S) -> Result<FileService<S>, (S, DirFault)>
        ensures blocks { IfOk result (λ s. s.blocks ≡ S.contents store) }
        ensures sound { IfOk result (λ s. Sound (S.contents store)) }
        ensures fresh { IfOk result (λ s. (s.stopped ≡ false) × (s.holds ≡ []) × (s.last ≡ None)
            × (s.tentative ≡ None)) }
        ensures reads { IfOk result (λ s. (s.reads ≤ S.reads store + 12) × (s.writes ≡ S.writes store)
            × (s.failed_reads ≡ S.failed_reads store) × (s.failed_writes ≡ S.failed_writes store)) }
        ensures no_write { IfErr result (λ e. S.writes e.0 ≡ S.writes store) }
        ensures handed_back { IfErr result (λ e. (S.contents e.0 ≡ S.contents store)
            × (S.reads e.0 ≤ S.reads store + 12) × (S.failed_writes e.0 ≡ S.failed_writes store)) }
        ensures fault { IfErr result (λ e. MeetsFault e.1 (directory_of (S.contents store))) }
        ensures device { IfErr result (λ e. (e.1 ≡ Device) ↔ (S.failed_reads store < S.failed_reads e.0)) }
    {
        match read_parts(alloc, &mut store) {
            Ok((directory, segments)) => Ok(FileService {
                store,
                directory,
                segments,
                stopped: false,
                holds: Vec::new(alloc),
                tentative: None,
            }),
            Err(fault) => Err((store, fault)),
        }
    }

    /// The store.
    pub fn into_store(self) -> S
        ensures blocks { S.contents result ≡ self.blocks }
        ensures counts { (S.reads result ≡ self.reads) × (S.writes result ≡ self.writes)
            × (S.failed_reads result ≡ self.failed_reads) × (S.failed_writes result ≡ self.failed_writes) }
    {
        let FileService {
            store,
            directory,
            segments,
            stopped: _,
            holds,
            tentative: _,
        } = self;
        drop(directory);
        drop(segments);
        drop(holds);
        store
    }

    /// The store as it stands, to be looked at.
    pub fn store(&self) -> &S
        ensures blocks { S.contents result.now ≡ self.now.blocks }
        ensures counts { (S.reads result.now ≡ self.now.reads) × (S.writes result.now ≡ self.now.writes)
            × (S.failed_reads result.now ≡ self.now.failed_reads)
            × (S.failed_writes result.now ≡ self.now.failed_writes) }
    {
        &self.store
    }

    /// The length in blocks of the file of a name; nothing where there is none. Where a write has failed it is that of the
    /// directory that was held then.
    pub fn lookup(&self, name: &Name) -> Option<usize>
        ensures running { self.now.stopped ≡ false → result
            ≡ blocks_of (get (files_of self.now.blocks) name.now) }
        ensures stopped { (d : DirectoryState) → self.now.last ≡ Some d → result ≡ size_in d name.now }
    {
        files_found();
        sound_directory();
        match self.directory.find(name) {
            Some((_, length)) => Some(length),
            None => None,
        }
    }

    /// The information words of the file of a name, with zeros after them; nothing where there is none (OS/8 Software Support
    /// Manual). Where a write has failed they are those of the directory that was held then.
    pub fn information(&self, name: &Name) -> Option<[Word; 10]>
        ensures running { self.now.stopped ≡ false → result
            ≡ information_of (get (files_of self.now.blocks) name.now) }
        ensures stopped { (d : DirectoryState) → self.now.last ≡ Some d → result ≡ information_in d name.now }
    {
        files_found();
        sound_directory();
        file_information();
        self.directory.information(name)
    }

    /// The covered blocks that belong to no file. Where a write has failed they are those of the directory that was held
    /// then.
    pub fn free(&self) -> usize
        ensures running { self.now.stopped ≡ false → result + blocks_in_use (files_of self.now.blocks)
            ≡ capacity_of self.now.blocks }
        ensures stopped { (d : DirectoryState) → self.now.last ≡ Some d → result ≡ free_blocks d.entries }
    {
        sound_directory();
        files_made();
        directory_numbers();
        self.directory.free()
    }

    /// How many files there are, no fewer than have a free block below them. Where a write has failed they are those of the
    /// directory that was held then.
    pub fn count(&self) -> usize
        ensures running { self.now.stopped ≡ false → result ≡ count_of (files_of self.now.blocks) }
        ensures above { self.now.stopped ≡ false → above_of self.now.blocks ≤ result }
        ensures stopped { (d : DirectoryState) → self.now.last ≡ Some d → result ≡ count_files d.entries }
        ensures range { result < 18446744073709551615 }
    {
        sound_directory();
        files_made();
        directory_numbers();
        self.directory.count()
    }

    /// The names of the files in name order, each with its length in blocks.
    pub fn listing(&self, alloc: Global) -> Result<Vec<(Name, usize)>, FileFault>
        ensures { ListsFiles self.now result }
    {
        if self.stopped {
            return Err(FileFault::Stopped);
        }
        sound_directory();
        files_made();
        let list = files_by_name(alloc, self.directory.entries())?;
        Ok(list)
    }

    /// Whether a write has failed. From then on each call that can answer a `FileFault` answers `Stopped`, and the other
    /// calls answer by the directory that was held then.
    pub fn is_stopped(&self) -> bool
        ensures value { result ≡ self.now.stopped }
        ensures last { result ≡ is_some self.now.last }
    {
        self.stopped
    }

    /// Reads block `k` of a file, counted from 0, by one read. A file that is there has more than `k` blocks. Where no
    /// file has the name it is `NotFound`, and a read that fails is `Device`.
    pub fn read_block(&mut self, name: &Name, k: usize, words: &mut Block) -> Result<(), FileFault>
        requires { IsLonger self.old name.now k }
        ensures { ReadsBlock self.old name.now k words.old result self.new words.new }
    {
        if self.stopped {
            return Err(FileFault::Stopped);
        }
        files_found();
        sound_directory();
        files_inside();
        match self.directory.find(name) {
            None => Err(FileFault::NotFound),
            Some((place, _)) => {
                self.store.read(place + k, words)?;
                Ok(())
            }
        }
    }

    /// Holds a file: it is then neither replaced nor deleted. It may be held more than once. Where no file has the name
    /// it is `NotFound`.
    pub fn hold(&mut self, name: &Name) -> Result<Hold, FileFault>
        ensures { HoldsFile self.old name.now result self.new }
    {
        if self.stopped {
            return Err(FileFault::Stopped);
        }
        files_found();
        sound_directory();
        files_inside();
        match self.directory.find(name) {
            None => Err(FileFault::NotFound),
            Some(_) => {
                add_hold(&mut self.holds, *name)?;
                Ok(Hold::new(*name))
            }
        }
    }

    /// Releases one hold of a file. It stays held where other holds of it are left.
    pub fn release(&mut self, hold: Hold)
        ensures { self.new ≡ record self.old { holds = without_hold hold self.old.holds } }
    {
        let name = hold.spend();
        let place = first_of(&self.holds, name);
        if place < self.holds.len() {
            let _name = self.holds.remove(place);
        }
    }

    /// Whether a name is held.
    pub fn is_held(&self, name: Name) -> bool
        ensures { result ≡ contains self.now.holds name }
    {
        first_of(&self.holds, name) < self.holds.len()
    }

    /// Gives up the file that is being written. Its blocks stay those of no file.
    pub fn give_up(&mut self, tentative: Tentative)
        ensures { self.new ≡ record self.old { tentative = None } }
    {
        let _name = tentative.spend();
        self.tentative = None;
    }
}
