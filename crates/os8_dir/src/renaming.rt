ghost use Rattle.std.specs.Prelude.{◌≡◌, None, IfOk, IfErr, IsSome};
ghost use Rattle.os8_dir.specs.Entries.{IsNamed};
ghost use Rattle.os8_dir.specs.Found.{files_at, find as found, extent_of};
ghost use Rattle.os8_dir.specs.Changes.{directory_with};
ghost use Rattle.os8_dir.specs.Renaming.{renamed_name as renamed_name_of, renamed_entry as renamed_entry_of, with_new_name as renamed_of};
ghost use Rattle.os8_dir.specs.declared.faults.DirFault.TheVariants.{Memory};

use crate::{DirEntry, DirFault, Directory, Name};
use std::alloc::{AllocError, Global};

/// A name, or the new one where it is the old one.
fn renamed_name(other: Name, name: Name, new_name: Name) -> Name
    ensures { result ≡ renamed_name_of name new_name other }
{
    if other == name { new_name } else { other }
}

/// An entry, under the new name where it is the file of the old one.
fn renamed_entry(entry: &DirEntry, name: Name, new_name: Name) -> DirEntry
    ensures { result ≡ renamed_entry_of name new_name entry.now }
{
    match entry {
        DirEntry::File {
            name: other,
            info,
            length,
        } => DirEntry::File {
            name: renamed_name(*other, name, new_name),
            info: *info,
            length: *length,
        },
        DirEntry::Empty { .. } => *entry,
    }
}

/// The entries, where the file of a name has the new one.
fn with_name(
    alloc: Global,
    entries: &[DirEntry],
    name: Name,
    new_name: Name,
) -> Result<Vec<DirEntry>, AllocError>
    ensures { IfOk result (λ kept. kept.items ≡ renamed_of name new_name entries.now) }
{
    let mut kept = Vec::new(alloc);
    for entry in entries {
        kept.push(renamed_entry(entry, name, new_name))?;
    }
    Ok(kept)
}

impl Directory {
    /// The directory in which the file of a name has a new one, that no file has. Its entry keeps its place, its length and its
    /// information words (this project's profile). The only fault is that there is no memory.
    pub fn with_new_name(
        &self,
        alloc: Global,
        name: &Name,
        new_name: Name,
    ) -> Result<Directory, DirFault>
        requires there { IsSome (extent_of (found name.now (files_at self.now.first self.now.entries))) }
        requires named { IsNamed new_name }
        requires fresh { found new_name (files_at self.now.first self.now.entries) ≡ None }
        ensures list { IfOk result (λ d. d
            ≡ directory_with self.now (renamed_of name.now new_name self.now.entries)) }
        ensures err { IfErr result (λ fault. fault ≡ Memory) }
    {
        let entries = with_name(alloc, self.entries(), *name, new_name)?;
        Ok(self.with_list(entries))
    }
}
