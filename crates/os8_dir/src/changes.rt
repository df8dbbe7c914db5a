ghost use Rattle.std.specs.Prelude.{◌≡◌, ◌+◌, ◌<◌, ◌≤◌, ◌++◌, OnOk, IfOk, IfErr, IsSome};
ghost use Rattle.word12.specs.declared.sizes.TheConstants.{MOST_BLOCKS};
ghost use Rattle.os8_dir.specs.Entries.{size_of, total, tidy, IsTidy, IsNamed};
ghost use Rattle.os8_dir.specs.Found.{files_at, rooms_at, find as found, extent_of};
ghost use Rattle.os8_dir.specs.Changes.{emptied_entry, without_file as removed_of, parts_of_empty, put, entries_without as emptied_of, with_new_file as placed_of, with_file_lower, moved_down as moved_down_of, gap_below, LieIn, directory_with, new_file};
ghost use Rattle.os8_dir.specs.declared.faults.DirFault.TheVariants.{Memory};

use crate::appending::{append, append_all};
use crate::found::gap_place;
use crate::reading::information;
use crate::{DirEntry, DirFault, Directory, Name};
use std::alloc::{AllocError, Global};
use word12::Word;

/// An entry, or its blocks where it is the file of a name.
fn entry_without(entry: &DirEntry, name: Name) -> DirEntry
    ensures { result ≡ emptied_entry name entry.now }
{
    match entry {
        DirEntry::File {
            name: other,
            length,
            ..
        } => {
            if *other == name {
                DirEntry::Empty { length: *length }
            } else {
                *entry
            }
        }
        DirEntry::Empty { .. } => *entry,
    }
}

/// The entries without the file of a name.
fn without(alloc: Global, entries: &[DirEntry], name: Name) -> Result<Vec<DirEntry>, AllocError>
    requires { total entries.now ≤ MOST_BLOCKS }
    ensures { IfOk result (λ kept. kept.items ≡ removed_of name entries.now) }
{
    let mut kept = Vec::new(alloc);
    for entry in entries {
        append(&mut kept, entry_without(entry, name))?;
    }
    Ok(kept)
}

/// Adds an entry that begins at `place`, or what is left of it beside a file that lies in it from `from` on.
fn append_laid(
    kept: &mut Vec<DirEntry>,
    place: usize,
    from: usize,
    file: &DirEntry,
    entry: DirEntry,
) -> Result<(), AllocError>
    requires neat { IsTidy kept.old.items }
    requires fits { total kept.old.items + size_of entry ≤ MOST_BLOCKS }
    requires inside { place + size_of entry ≤ MOST_BLOCKS }
    requires near { from + size_of file.now ≤ MOST_BLOCKS }
    ensures { OnOk result (kept.new.items ≡ tidy (kept.old.items ++ parts_of_empty place from file.now entry)) }
{
    match entry {
        DirEntry::File { .. } => append(kept, entry),
        DirEntry::Empty { length } => {
            let end = place + length;
            let following = from + file.length();
            if place <= from && following <= end {
                let below = DirEntry::Empty {
                    length: from - place,
                };
                let above = DirEntry::Empty {
                    length: end - following,
                };
                append_all(kept, &[below, *file, above])
            } else {
                append(kept, entry)
            }
        }
    }
}

/// The entries, of which the first begins at `first`, with a file that begins at `from`; an older one of its name goes.
fn with_file(
    alloc: Global,
    entries: &[DirEntry],
    first: usize,
    from: usize,
    name: Name,
    file: &DirEntry,
) -> Result<Vec<DirEntry>, AllocError>
    requires inside { first + total entries.now ≤ MOST_BLOCKS }
    requires near { from + size_of file.now ≤ MOST_BLOCKS }
    ensures { IfOk result (λ kept. kept.items
        ≡ tidy (put first from file.now (emptied_of name entries.now))) }
{
    let mut kept = Vec::new(alloc);
    let mut place = first;
    for entry in entries {
        append_laid(&mut kept, place, from, file, entry_without(entry, name))?;
        place += entry.length();
    }
    Ok(kept)
}

/// The entries, where the file of a name stands below the empty that was directly below it.
fn entries_with_file_lower(
    alloc: Global,
    entries: &[DirEntry],
    name: Name,
) -> Result<Vec<DirEntry>, AllocError>
    requires gap { 0 < gap_below name entries.now }
    requires fits { total entries.now ≤ MOST_BLOCKS }
    ensures { IfOk result (λ kept. kept.items ≡ moved_down_of name entries.now) }
{
    let (prefix, rest) = entries.split_at(gap_place(entries, name));
    let (gap, rest) = rest.split_at(1);
    let (file, rest) = rest.split_at(1);
    let mut kept = Vec::new(alloc);
    append_all(&mut kept, prefix)?;
    append_all(&mut kept, file)?;
    append_all(&mut kept, gap)?;
    append_all(&mut kept, rest)?;
    Ok(kept)
}

impl Directory {
    /// The directory with another list of as many blocks.
    pub(crate) fn with_list(&self, entries: Vec<DirEntry>) -> Directory
        requires neat { IsTidy entries.items }
        requires same { total entries.items ≡ total self.now.entries }
        ensures { result ≡ directory_with self.now entries.items }
    {
        let first = self.first_block();
        let end = first + self.capacity();
        Directory::of_parts(first, self.information_words(), end, entries)
    }

    /// The directory without the file of a name, whose blocks are an empty (this project's profile). The only fault is
    /// that there is no memory.
    pub fn without_file(&self, alloc: Global, name: &Name) -> Result<Directory, DirFault>
        requires there { IsSome (extent_of (found name.now (files_at self.now.first self.now.entries))) }
        ensures list { IfOk result (λ d. d ≡ directory_with self.now (removed_of name.now self.now.entries)) }
        ensures err { IfErr result (λ fault. fault ≡ Memory) }
    {
        let entries = without(alloc, self.entries(), *name)?;
        Ok(self.with_list(entries))
    }

    /// The directory with one more file, of `length` blocks from `first_block` on, which lie in one empty; an older file
    /// of its name goes. Of the words given the first are its information words, and missing ones are 0 (this project's
    /// profile). The only fault is that there is no memory.
    pub fn with_new_file(
        &self,
        alloc: Global,
        name: &Name,
        info: &[Word],
        first_block: usize,
        length: usize,
    ) -> Result<Directory, DirFault>
        requires named { IsNamed name.now }
        requires some { 0 < length }
        requires room { LieIn first_block length (rooms_at self.now.first self.now.entries) }
        ensures list { IfOk result (λ d. d
            ≡ directory_with self.now (placed_of self.now.first
            (new_file self.now name.now info.now first_block length) self.now.entries)) }
        ensures err { IfErr result (λ fault. fault ≡ Memory) }
    {
        let first = self.first_block();
        let count = self.information_words();
        let file = DirEntry::File {
            name: *name,
            info: information(info, count.min(info.len())),
            length,
        };
        let entries = with_file(alloc, self.entries(), first, first_block, *name, &file)?;
        Ok(self.with_list(entries))
    }

    /// The directory in which the file of a name stands below the empty that was directly below it (this project's
    /// profile). The only fault is that there is no memory.
    pub fn moved_down(&self, alloc: Global, name: &Name) -> Result<Directory, DirFault>
        requires gap { 0 < gap_below name.now self.now.entries }
        ensures list { IfOk result (λ d. d ≡ directory_with self.now (moved_down_of name.now self.now.entries)) }
        ensures err { IfErr result (λ fault. fault ≡ Memory) }
    {
        let entries = entries_with_file_lower(alloc, self.entries(), *name)?;
        Ok(self.with_list(entries))
    }
}
