//! Whether two names lead to one file.
use crate::files::{fault_of, free_path, is_same};
use hosts::HostFault;
use std::alloc::Global;
use std::fs::{self, File, Files, Metadata};
use std::io::ErrorKind;
use std::os::unix::fs::FileTypeExt;
use std::path::Path;

/// The folder that a name without one is in.
const HERE: &str = ".";

/// Whether two names lead, through links, to one plain file or one block device, or to one path that no file has. It is a fault where the
/// system doesn't say.
pub(crate) fn leads_to_same<R: Files<File = File> + AllocGlobal>(
    rt: &R,
    alloc: Global,
    one: &str,
    other: &str,
) -> Result<bool, HostFault> {
    match (file_of(rt, one)?, file_of(rt, other)?) {
        (Some(named), Some(beside)) => Ok(is_same(&named, &beside) && has_bytes(&named)),
        (None, None) => is_one_path(rt, alloc, one, other),
        _ => Ok(false),
    }
}

/// The file that a name leads to, or none.
fn file_of<R: Files<File = File>>(rt: &R, name: &str) -> Result<Option<Metadata>, HostFault> {
    match fs::metadata(rt, name) {
        Ok(named) => Ok(Some(named)),
        Err(error) => match error.kind() {
            ErrorKind::NotFound => Ok(None),
            _ => Err(fault_of(&error)),
        },
    }
}

/// Whether a file keeps what is written to it, as a plain file and a disk do.
fn has_bytes(named: &Metadata) -> bool {
    named.is_file() || named.file_type().is_block_device()
}

/// Whether two names that no file has lead to one path.
fn is_one_path<R: Files<File = File> + AllocGlobal>(
    rt: &R,
    alloc: Global,
    one: &str,
    other: &str,
) -> Result<bool, HostFault> {
    let first = free_path(rt, alloc, one)?;
    let second = free_path(rt, alloc, other)?;
    if last_part(&first) != last_part(&second) {
        return Ok(false);
    }
    is_one_folder(rt, folder_of(&first), folder_of(&second))
}

/// A path's last part, or no text where it has none.
fn last_part(path: &str) -> &str {
    match Path::new(path).file_name() {
        Some(last) => last,
        None => "",
    }
}

/// The folder that a path is in.
fn folder_of(path: &str) -> &str {
    match Path::new(path).parent() {
        Some(folder) => {
            let text = folder.as_os_str();
            if text.is_empty() { HERE } else { text }
        }
        None => HERE,
    }
}

/// Whether two names are one folder's. A folder that isn't there has no file that could be lost.
fn is_one_folder<R: Files<File = File>>(rt: &R, one: &str, other: &str) -> Result<bool, HostFault> {
    if one == other {
        return Ok(true);
    }
    match (file_of(rt, one)?, file_of(rt, other)?) {
        (Some(named), Some(beside)) => Ok(is_same(&named, &beside)),
        _ => Ok(false),
    }
}
