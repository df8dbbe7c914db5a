ghost use Rattle.std.specs.Prelude.{◌≡◌, ◌+◌, ◌<◌, ◌≤◌, [], ◌∷◌, ◌++◌, OnOk};
ghost use Rattle.word12.specs.declared.sizes.TheConstants.{MOST_BLOCKS};
ghost use Rattle.os8_dir.specs.Entries.{contains, names_of, total, tidy, size_of, IsTidy};
ghost use Rattle.os8_dir.specs.Reading.{is_new as is_new_in};
ghost use Rattle.os8_dir.specs.declared.entries.DirEntry.TheVariants.{Empty};

use crate::DirEntry;
use crate::found::last_room;
use crate::items::{drop_last, push_item};
use std::alloc::AllocError;

/// Adds blocks of no file after the others; where there are none, it adds nothing.
fn append_room(entries: &mut Vec<DirEntry>, length: usize) -> Result<(), AllocError>
    requires neat { IsTidy entries.old.items }
    requires fits { total entries.old.items + length ≤ MOST_BLOCKS }
    ensures { OnOk result (entries.new.items ≡ tidy (entries.old.items ++ Empty length ∷ [])) }
{
    if length == 0 {
        return Ok(());
    }
    let before = last_room(entries.as_slice());
    let joined = before + length;
    if before > 0 {
        drop_last(entries);
        return push_item(entries, DirEntry::Empty { length: joined });
    }
    push_item(entries, DirEntry::Empty { length })
}

/// Adds an entry after the others. One of length 0 is nothing, and empties that touch are one.
pub fn append(entries: &mut Vec<DirEntry>, entry: DirEntry) -> Result<(), AllocError>
    requires neat { IsTidy entries.old.items }
    requires fits { total entries.old.items + size_of entry ≤ MOST_BLOCKS }
    ensures { OnOk result (entries.new.items ≡ tidy (entries.old.items ++ entry ∷ [])) }
{
    match entry {
        DirEntry::File { length, .. } => {
            if length == 0 {
                return Ok(());
            }
            push_item(entries, entry)
        }
        DirEntry::Empty { length } => append_room(entries, length),
    }
}

/// Adds entries after the others, each as `append` does.
pub fn append_all(entries: &mut Vec<DirEntry>, more: &[DirEntry]) -> Result<(), AllocError>
    requires neat { IsTidy entries.old.items }
    requires fits { total entries.old.items + total more.now ≤ MOST_BLOCKS }
    ensures { OnOk result (entries.new.items ≡ tidy (entries.old.items ++ more.now)) }
{
    for entry in more {
        append(entries, *entry)?;
    }
    Ok(())
}
