//! Files beside a path that programs left there which were ended.

use crate::besides::Besides;
use crate::files::{answer, has_taken_lock, is_same, path_of};
use hosts::HostFault;
use std::alloc::Global;
use std::fs::{self, DirEntry, File, Files, Metadata, OpenOptions};
use std::os::unix::fs::MetadataExt;

/// Takes away what a held file has beside it: further names of it, and what writers left there that were ended.
pub(crate) fn remove_besides<R: Files<File = File> + AllocGlobal>(
    rt: &R,
    file: &File,
    besides: &Besides,
) -> Result<(), HostFault> {
    let own = answer(file.metadata())?;
    let _count = count_removed(rt, besides, &own, true);
    Ok(())
}

/// Takes away what writers of the file of a name left beside it that were ended, and says how many names that were.
pub(crate) fn remove_leftovers<R: Files<File = File> + AllocGlobal>(
    rt: &R,
    alloc: Global,
    name: &str,
) -> Result<usize, HostFault> {
    let path = path_of(rt, alloc, name)?;
    let own = answer(fs::metadata(rt, path.as_str()))?;
    let besides = Besides::new(alloc, path.as_str())?;
    Ok(count_removed(rt, &besides, &own, false))
}

/// Goes through the folder of a file, which may be held. A folder that can't be read, or not to its end, is left as it is from there on.
fn count_removed<R: Files<File = File> + AllocGlobal>(
    rt: &R,
    besides: &Besides,
    own: &Metadata,
    is_held: bool,
) -> usize {
    let folder = match besides.folder() {
        "" => ".",
        folder => folder,
    };
    let mut count: usize = 0;
    if let Ok(entries) = fs::read_dir(&rt, folder) {
        for entry in entries {
            if let Ok(entry) = entry
                && has_removed(rt, besides, own, is_held, &entry)
            {
                count = count.saturating_add(1);
            }
        }
    }
    count
}

/// Whether a name in the folder of a file is one that a writer left there, and is taken away now.
fn has_removed<R: Files<File = File>, D: Files + Drop>(
    rt: &R,
    besides: &Besides,
    own: &Metadata,
    is_held: bool,
    entry: &DirEntry<D, Global>,
) -> bool {
    let is_drawn = besides.has(entry.file_name());
    if !is_drawn && !besides.has_numbered(entry.file_name()) {
        return false;
    }
    let path = entry.path().as_os_str();
    let Ok(named) = fs::symlink_metadata(rt, path) else {
        return false;
    };
    if is_same(&named, own) {
        return has_removed_second(rt, path, &named, is_held);
    }
    is_drawn && may_be_left(&named, own) && is_let_go(rt, path, &named)
}

/// Whether a further name of a file is taken away. A new file has one as long as its maker holds it.
fn has_removed_second<R: Files<File = File>>(
    rt: &R,
    path: &str,
    named: &Metadata,
    is_held: bool,
) -> bool {
    if named.nlink() < 2 {
        return false;
    }
    if is_held {
        return fs::remove_file(rt, path).is_ok();
    }
    is_let_go(rt, path, named)
}

/// Whether a file may be what a writer left: a plain one of one name and the same owner. One that has no byte yet may have another owner,
/// since a new file gets that of the older one before it gets its bytes.
fn may_be_left(named: &Metadata, own: &Metadata) -> bool {
    named.is_file() && named.nlink() == 1 && (named.uid() == own.uid() || named.len() == 0)
}

/// Takes a file away that no program holds. Its lock is held until its name is gone, so a writer that has just made it finds that out.
fn is_let_go<R: Files<File = File>>(rt: &R, path: &str, named: &Metadata) -> bool {
    let Ok(file) = OpenOptions::new().read(true).write(true).open(rt, path) else {
        return false;
    };
    let Ok(opened) = file.metadata() else {
        return false;
    };
    if !is_same(&opened, named) || !matches!(has_taken_lock(&file), Ok(true)) {
        return false;
    }
    is_named(rt, path, &opened) && fs::remove_file(rt, path).is_ok()
}

/// Whether a name is still that of a file, and no link to it.
pub(crate) fn is_named<R: Files<File = File>>(rt: &R, name: &str, own: &Metadata) -> bool {
    match fs::symlink_metadata(rt, name) {
        Ok(named) => is_same(&named, own),
        Err(_) => false,
    }
}
