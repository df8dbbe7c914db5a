ghost use Rattle.std.specs.Prelude.{◌≡◌, ℕ, ◌+◌, ◌<◌, ◌≤◌, length, IfOk, IfSome};
ghost use Rattle.word12.specs.declared.sizes.TheConstants.{FIRST_FILE_BLOCK, MOST_BLOCKS};
ghost use Rattle.os8_dir.specs.Entries.{DirectoryState, minus as minus_of, size_of, total, IsTidy, capacity as capacity_of};
ghost use Rattle.os8_dir.specs.Kept.{IsKept};
ghost use Rattle.os8_dir.specs.Found.{files_at, rooms_at, find as found, extent_of, information_of as information_of_found, largest as largest_of, size_or_zero, free_blocks, used_blocks, count_files as count_of, limit as limit_of};
ghost use Rattle.os8_dir.specs.Changes.{fitting as fitting_of, lowest_above as lowest_above_of};

use crate::found::{
    count_files, find, fitting, free_blocks, information_of, largest_room, lowest_above,
};
use crate::{DirEntry, Name};
use std::marker::Model;
use word12::Word;

/// The directory of a volume: the entries of all its segments in order of their blocks (OS/8 Software Support Manual).
#[derive(Drop)]
pub struct Directory {
    first: usize,
    info: usize,
    end: usize,
    entries: Vec<DirEntry>,
}

impl Model for Directory {
    ghost use Rattle.os8_dir.specs.Entries.{DirectoryState};
    ghost use Rattle.os8_dir.specs.Kept.{IsKept};

    ghost Value = { DirectoryState };

    ghost view = { λ d. record { first = d.first; info = d.info; entries = d.entries.items } };

    ghost invariant = { λ d. IsKept d.first d.info d.end d.entries.items };
}

impl Directory {
    /// The first block and the length of the file of a name; nothing where no file has it (OS/8 Software Support
    /// Manual).
    pub fn find(&self, name: &Name) -> Option<(usize, usize)>
        ensures { result ≡ extent_of (found name.now (files_at self.now.first self.now.entries)) }
    {
        find(self.entries.as_slice(), self.first, *name)
    }

    /// The information words of the file of a name, with zeros after them; nothing where no file has it (OS/8 Software Support
    /// Manual).
    pub fn information(&self, name: &Name) -> Option<[Word; 10]>
        ensures { result ≡ information_of_found (found name.now (files_at self.now.first self.now.entries)) }
    {
        information_of(self.entries.as_slice(), *name)
    }

    /// The length of the largest empty, 0 where there is none (this project's profile).
    pub fn largest(&self) -> usize
        ensures { result ≡ size_or_zero (largest_of (rooms_at self.now.first self.now.entries)) }
    {
        largest_room(self.entries.as_slice())
    }

    /// The first block and the length of the smallest empty that has at least `wish` blocks; for a wish of 0 of the
    /// largest. Of equals it is the first; nothing where no empty fits (this project's profile).
    pub fn fitting(&self, wish: usize) -> Option<(usize, usize)>
        ensures room { result ≡ fitting_of wish (rooms_at self.now.first self.now.entries) }
        ensures low { IfSome result (λ room. self.now.first ≤ room.0) }
        ensures high { IfSome result (λ room. room.0 + room.1 ≤ MOST_BLOCKS) }
    {
        fitting(self.entries.as_slice(), self.first, wish)
    }

    /// The lowest file with an empty directly below it, and how many blocks that empty has; nothing where no file has
    /// one (this project's profile).
    pub fn lowest_above(&self) -> Option<(Name, usize)>
        ensures { result ≡ lowest_above_of self.now.entries }
    {
        lowest_above(self.entries.as_slice())
    }

    /// How many covered blocks belong to no file (this project's profile).
    pub fn free(&self) -> usize
        ensures empties { result ≡ free_blocks self.now.entries }
        ensures files { result + used_blocks (files_at self.now.first self.now.entries)
            ≡ capacity_of self.now }
    {
        free_blocks(self.entries.as_slice())
    }

    /// How many files there are (OS/8 Software Support Manual).
    pub fn count(&self) -> usize
        ensures value { result ≡ count_of self.now.entries }
        ensures range { result < 18446744073709551615 }
    {
        count_files(self.entries.as_slice())
    }

    /// The first block that the directory covers, 7 to 4095 (OS/8 Software Support Manual; 7 is this project's profile).
    pub fn first_block(&self) -> usize
        ensures value { result ≡ self.now.first }
        ensures low { FIRST_FILE_BLOCK ≤ result }
        ensures high { result ≤ MOST_BLOCKS }
    {
        self.first
    }

    /// How many information words an entry of a file has, 0 to 10 (OS/8 Software Support Manual; 10 is this project's
    /// profile).
    pub fn information_words(&self) -> usize
        ensures value { result ≡ self.now.info }
        ensures range { result ≤ 10 }
    {
        self.info
    }

    /// How many blocks the directory covers, 0 to 4088 (OS/8 Software Support Manual).
    pub fn capacity(&self) -> usize
        ensures value { result ≡ capacity_of self.now }
        ensures range { self.now.first + result ≤ MOST_BLOCKS }
    {
        self.end - self.first
    }

    /// How many entries six segments take, 96 to 300 (OS/8 Software Support Manual: a segment has 251 words for them).
    pub fn limit(&self) -> usize
        ensures value { result ≡ limit_of self.now }
        ensures range { result ≤ 300 }
    {
        6 * (251 / (5 + self.info))
    }

    /// The entries in order of their blocks: none has length 0, and no empties touch (this project's profile).
    pub fn entries(&self) -> &[DirEntry]
        ensures list { result.now ≡ self.now.entries }
        ensures neat { IsTidy self.now.entries }
        ensures blocks { self.now.first + total self.now.entries ≤ MOST_BLOCKS }
    {
        self.entries.as_slice()
    }

    /// The directory of these entries; the block after the last of them is `end`.
    pub(crate) fn of_parts(
        first: usize,
        info: usize,
        end: usize,
        entries: Vec<DirEntry>,
    ) -> Directory
        requires { IsKept first info end entries.items }
        ensures { result ≡ record { first = first; info = info; entries = entries.items } }
    {
        Directory {
            first,
            info,
            end,
            entries,
        }
    }
}
