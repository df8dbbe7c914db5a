//! How a file beside a path is made, and gets its owner and its permissions. All of it is done to the open file, and nothing by its name.

use crate::besides::Besides;
use crate::files::{answer, apart, fault_of, has_taken_lock};
use crate::leftovers::is_named;
use hosts::HostFault;
use std::fs::{self, File, Files, OpenOptions};
use std::io::{self, ErrorKind};
use std::os::unix::fs::{MetadataExt, OpenOptionsExt, fchown};
use std::random::RandomSource;

/// How many names beside a file are drawn at most.
const TRIES: u16 = 100;

/// The permissions of a new file that takes no file's place, less the bits that the user's own mask takes off.
pub(crate) const NEW_MODE: u32 = 0o666;

/// The permissions of one that is to have those of an older file, until it gets them.
pub(crate) const OWN_MODE: u32 = 0o600;

/// A new file of a name that was drawn, which is locked if its file system has locks.
pub(crate) fn made_beside<R: Files<File = File> + RandomSource>(
    rt: &R,
    besides: &mut Besides,
    mode: u32,
) -> Result<File, HostFault> {
    for _ in 0..TRIES {
        let name = besides.draw(rt)?;
        match create_new(rt, name, mode) {
            Ok(file) => {
                if is_kept(rt, name, &file) {
                    return Ok(file);
                }
                let _ = fs::remove_file(rt, name);
            }
            Err(error) => match error.kind() {
                ErrorKind::AlreadyExists => {}
                _ => return Err(fault_of(&error)),
            },
        }
    }
    Err(HostFault::Failed)
}

/// Takes the lock of a new file, and looks whether it still has its name: a program that takes leftovers away may have met it before it was
/// locked.
fn is_kept<R: Files<File = File>>(rt: &R, name: &str, file: &File) -> bool {
    match (has_taken_lock(file), file.metadata()) {
        (Ok(_), Ok(own)) => is_named(rt, name, &own),
        _ => false,
    }
}

/// A new file of this name, which is taken away again where it can't be given a number of its own.
pub(crate) fn create_new<R: Files<File = File>>(rt: &R, name: &str, mode: u32) -> io::Result<File> {
    let file = OpenOptions::new()
        .read(true)
        .write(true)
        .create_new(true)
        .mode(mode)
        .open(rt, name)?;
    let numbered = apart(file);
    if numbered.is_err() {
        let _ = fs::remove_file(rt, name);
    }
    numbered
}

/// Gives an open file the owner and the permissions of an older one. That the user may not give it the owner is a reason of its own.
pub(crate) fn take_owner(file: &File, older: &File) -> Result<(), HostFault> {
    let old = answer(older.metadata())?;
    let new = answer(file.metadata())?;
    if new.uid() != old.uid() || new.gid() != old.gid() {
        if let Err(error) = fchown(file, Some(old.uid()), Some(old.gid())) {
            return Err(owner_fault(&error));
        }
    }
    answer(file.set_permissions(old.permissions()))
}

/// Why a file doesn't get the owner of another one.
fn owner_fault(error: &io::Error) -> HostFault {
    match error.kind() {
        ErrorKind::PermissionDenied => HostFault::Owner,
        _ => fault_of(error),
    }
}
