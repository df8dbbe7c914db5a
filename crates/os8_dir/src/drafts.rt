ghost use Rattle.std.specs.Prelude.{◌≡◌, ℕ, ◌+◌, ◌<◌, ◌≤◌, length};
ghost use Rattle.word12.specs.declared.sizes.TheConstants.{MOST_BLOCKS};
ghost use Rattle.os8_dir.specs.Entries.{size_of};
ghost use Rattle.os8_dir.specs.Reading.{head_of, with_entry, with_entries, with_segment};
ghost use Rattle.os8_dir.specs.Steps.{Leaves, Shows};

use crate::appending::append;
use crate::items::clear_items;
use crate::known::add_name;
use crate::reading::{entry_at, minus};
use crate::{DirEntry, DirFault, Directory};
use std::alloc::Global;
use std::collections::BTreeSet;
use std::marker::Model;
use volume_image::Block;
use word12::{FIRST_FILE_BLOCK, Word};

/// A directory while its segments are read, with the names of its files.
#[derive(Drop)]
pub struct Draft {
    first: usize,
    info: usize,
    end: usize,
    entries: Vec<DirEntry>,
    names: BTreeSet<u64>,
}

impl Model for Draft {
    ghost use Rattle.os8_dir.specs.Entries.{DirectoryState};
    ghost use Rattle.os8_dir.specs.Steps.{IsDraft};

    ghost Value = { DirectoryState };

    ghost view = { λ d. record { first = d.first; info = d.info; entries = d.entries.items } };

    ghost invariant = { λ d. IsDraft d.first d.info d.end d.entries.items d.names };
}

impl Draft {
    /// What the first segment says of the whole directory.
    pub fn head(alloc: Global, volume: usize, words: &Block) -> Result<Draft, DirFault>
        requires { volume ≤ MOST_BLOCKS }
        ensures reading { Shows (λ d. d) result (head_of volume words.now) }
    {
        let info = minus(words[4]);
        if info > 10 {
            return Err(DirFault::BadCount(1));
        }
        let first = usize::from(words[1].get());
        if first < FIRST_FILE_BLOCK || first > volume {
            return Err(DirFault::WrongFirstBlock);
        }
        Ok(Draft {
            first,
            info,
            end: first,
            entries: Vec::new(alloc),
            names: BTreeSet::new(alloc),
        })
    }

    /// Adds an entry after the others. Where there is no memory for it, no entry is left.
    fn add(&mut self, volume: usize, entry: DirEntry) -> Result<(), DirFault>
        requires most { volume ≤ MOST_BLOCKS }
        requires small { size_of entry < 0o10000 }
        ensures reading { Leaves result self.new (with_entry volume self.old entry) }
    {
        let length = entry.length();
        if self.end + length > volume {
            return Err(DirFault::PastVolume);
        }
        let new = add_name(&mut self.names, &entry)?;
        if !new {
            return Err(DirFault::SameName);
        }
        match append(&mut self.entries, entry) {
            Ok(()) => {
                self.end += length;
                Ok(())
            }
            Err(error) => {
                clear_items(&mut self.entries);
                self.names.clear();
                self.end = self.first;
                Err(DirFault::from(error))
            }
        }
    }

    /// Adds the entries that the words hold, so many.
    fn add_entries(&mut self, volume: usize, count: usize, words: &[Word]) -> Result<(), DirFault>
        requires { volume ≤ MOST_BLOCKS }
        ensures reading { Leaves result self.new (with_entries count volume self.old words.now) }
    {
        let mut rest = words;
        for _done in 0..count {
            let info = self.info;
            match entry_at(rest, info) {
                Ok((entry, following)) => {
                    self.add(volume, entry)?;
                    rest = following;
                }
                Err(fault) => return Err(fault),
            }
        }
        Ok(())
    }

    /// Adds the segment whose block has a number and these words.
    pub fn add_segment(
        &mut self,
        volume: usize,
        number: usize,
        words: &Block,
    ) -> Result<(), DirFault>
        requires { volume ≤ MOST_BLOCKS }
        ensures reading { Leaves result self.new (with_segment volume self.old number words.now) }
    {
        let info = minus(words[4]);
        if info > 10 {
            return Err(DirFault::BadCount(number));
        }
        if info != self.info {
            return Err(DirFault::MixedInfo);
        }
        if usize::from(words[1].get()) != self.end {
            return Err(DirFault::WrongFirstBlock);
        }
        let (_, entries) = words.split_at(5);
        self.add_entries(volume, minus(words[0]), entries)
    }

    /// The directory that was read.
    pub fn finish(self) -> Directory
        ensures { result ≡ self }
    {
        let Draft {
            first,
            info,
            end,
            entries,
            names,
        } = self;
        drop(names);
        Directory::of_parts(first, info, end, entries)
    }
}
