//! Calls of the file system, and what they answer.
ghost use Rattle.std.specs.Prelude.{◌≤◌, ◌+◌, length, IfOk};

use crate::making::{NEW_MODE, create_new};
use hosts::{HostFault, LinkFault, PrintFault, RenameFault};
use std::alloc::{AllocError, Global};
use std::env::{Env, FillError};
use std::fs::{self, File, Files, Metadata, OpenOptions, TryLockError};
use std::io::{self, ErrorKind, Input, Read, Seek, SeekFrom, Write};
use std::os::unix::fs::{FileTypeExt, MetadataExt};
use std::path::{Path, PathBuf};
use std::thread;
use std::time::{Clock, Duration, Instant, SystemTime};

/// How often a file is locked anew whose name leads elsewhere meanwhile.
const TRIES: u16 = 1000;

/// How many links are followed at most, as Linux does.
const MOST_LINKS: usize = 40;

/// The time between two tries, in thousandths of a second.
const PAUSE_TIME: u64 = 50;

/// The bytes of the first room for a word of the command line, and how often it is doubled at most. Linux hands on no word of more bytes than
/// the largest room has.
const FIRST_ROOM: usize = 0o400;

const MOST_DOUBLINGS: u32 = 16;

/// Why a call failed, by the kind of its error.
pub(crate) fn fault_of(error: &io::Error) -> HostFault {
    match error.kind() {
        ErrorKind::OutOfMemory => HostFault::Memory,
        ErrorKind::NotFound => HostFault::Absent,
        ErrorKind::AlreadyExists => HostFault::Busy,
        ErrorKind::PermissionDenied => HostFault::Denied,
        ErrorKind::ReadOnlyFilesystem => HostFault::ReadOnly,
        ErrorKind::IsADirectory => HostFault::Folder,
        ErrorKind::NotADirectory => HostFault::NoFolder,
        ErrorKind::StorageFull | ErrorKind::QuotaExceeded => HostFault::Full,
        ErrorKind::FilesystemLoop | ErrorKind::TooManyLinks => HostFault::Links,
        ErrorKind::FileTooLarge => HostFault::Large,
        _ => HostFault::Failed,
    }
}

/// What a call answered that gives something.
pub(crate) fn answer<T: Drop>(done: io::Result<T>) -> Result<T, HostFault> {
    match done {
        Ok(it) => Ok(it),
        Err(error) => Err(fault_of(&error)),
    }
}

/// The path of the file that a name leads to.
pub(crate) fn path_of<R: Files<File = File> + AllocGlobal>(
    rt: &R,
    alloc: Global,
    name: &str,
) -> Result<String, HostFault> {
    let found = answer(fs::canonicalize(rt, name))?;
    let path = String::from_str(alloc, found.as_str())?;
    Ok(path)
}

/// A file of a path that is opened and locked, and whether it is; the path leads to it then.
pub(crate) fn hold_path<R: Files<File = File>>(
    rt: &R,
    path: &str,
) -> Result<(File, bool), HostFault> {
    if is_pipe(rt, path) {
        return Err(HostFault::Pipe);
    }
    for _ in 0..TRIES {
        let file = answer(open_file(rt, path))?;
        let has_lock = has_taken_lock(&file)?;
        if leads_to(rt, path, &file) {
            return Ok((file, has_lock));
        }
    }
    Err(HostFault::Busy)
}

/// Whether a path leads to a pipe. A program that may write it never sees its end.
fn is_pipe<R: Files<File = File>>(rt: &R, path: &str) -> bool {
    match fs::metadata(rt, path) {
        Ok(named) => named.file_type().is_fifo(),
        Err(_) => false,
    }
}

fn open_file<R: Files<File = File>>(rt: &R, path: &str) -> io::Result<File> {
    apart(OpenOptions::new().read(true).write(true).open(rt, path)?)
}

/// The same open file by a number after those of the standard streams. Where one of these is closed, a file that is opened gets its
/// number, and what is then written to the stream would go into the file.
pub(crate) fn apart(file: File) -> io::Result<File> {
    file.try_clone()
}

/// Takes the lock of a file, and answers whether its file system has locks: `Busy` where another program has it.
pub(crate) fn has_taken_lock(file: &File) -> Result<bool, HostFault> {
    match file.try_lock() {
        Ok(()) => Ok(true),
        Err(TryLockError::WouldBlock) => Err(HostFault::Busy),
        Err(TryLockError::Error(_)) => Ok(false),
    }
}

/// Whether a path leads to an open file, and not to one that took its place.
pub(crate) fn leads_to<R: Files<File = File>>(rt: &R, path: &str, file: &File) -> bool {
    match (fs::metadata(rt, path), file.metadata()) {
        (Ok(named), Ok(own)) => is_same(&named, &own),
        _ => false,
    }
}

pub(crate) fn is_same(named: &Metadata, own: &Metadata) -> bool {
    named.dev() == own.dev() && named.ino() == own.ino()
}

/// The bytes that are left in a reader, or one byte more than are wanted.
pub(crate) fn bytes_of<F: Read + Drop>(
    alloc: Global,
    from: F,
    most: usize,
) -> Result<Vec<u8>, HostFault>
    ensures { IfOk result (λ bytes. length bytes.items ≤ most + 1) }
{
    let mut bytes = Vec::new(alloc);
    let read = from
        .take((most as u64).saturating_add(1))
        .read_to_end(&mut bytes);
    if let Err(error) = read {
        return Err(fault_of(&error));
    }
    if bytes.len() > most && bytes.len() - 1 > most {
        return Err(HostFault::Failed);
    }
    Ok(bytes)
}

/// The bytes of a file by its name.
pub(crate) fn file_bytes<R: Files<File = File>>(
    rt: &R,
    alloc: Global,
    name: &str,
    most: usize,
) -> Result<Vec<u8>, HostFault>
    ensures { IfOk result (λ bytes. length bytes.items ≤ most + 1) }
{
    match fs::open(rt, name) {
        Ok(file) => still_bytes(alloc, &file, most),
        Err(error) => Err(fault_of(&error)),
    }
}

/// The bytes that are left in an open file, which stays open. It is a fault where another program changed the file as it was read.
pub(crate) fn still_bytes(alloc: Global, file: &File, most: usize) -> Result<Vec<u8>, HostFault>
    ensures { IfOk result (λ bytes. length bytes.items ≤ most + 1) }
{
    let before = answer(file.metadata())?;
    let bytes = bytes_of(alloc, file, most)?;
    let after = answer(file.metadata())?;
    if is_changed(&before, &after) {
        return Err(HostFault::Changed);
    }
    Ok(bytes)
}

/// Whether a plain file has another length or another time of its last change than before. A device or a pipe may have another time since
/// it was read.
fn is_changed(before: &Metadata, after: &Metadata) -> bool {
    before.is_file()
        && (before.len() != after.len()
            || before.mtime() != after.mtime()
            || before.mtime_nsec() != after.mtime_nsec())
}

/// Whether a new file may take the place of an open one with nothing lost.
pub(crate) fn stands_alone(file: &File) -> Result<bool, HostFault> {
    match file.metadata() {
        Ok(own) => Ok(own.is_file() && own.nlink() == 1),
        Err(error) => Err(fault_of(&error)),
    }
}

/// A new empty file of a path that no file has, which is locked.
pub(crate) fn claim_path<R: Files<File = File>>(rt: &R, path: &str) -> Result<File, HostFault> {
    let empty = answer(create_new(rt, path, NEW_MODE))?;
    let _has_lock = has_taken_lock(&empty)?;
    if !leads_to(rt, path, &empty) {
        return Err(HostFault::Busy);
    }
    Ok(empty)
}

/// Writes bytes to an open file from a byte on.
pub(crate) fn put_at(file: &mut File, at: usize, bytes: &[u8]) -> io::Result<()> {
    file.seek(SeekFrom::Start(at as u64))?;
    file.write_all(bytes)?;
    file.flush()
}

/// Cuts an open file, and has the disk hold it; a device stays as it is.
pub(crate) fn cut_at(file: &mut File, size: usize) -> io::Result<()> {
    if file.metadata()?.is_file() {
        file.set_len(size as u64)?;
        file.sync_all()?;
    }
    Ok(())
}

/// Has the disk hold the names of the folder that a path is in. No memory is taken.
pub(crate) fn folder_synced<R: Files<File = File>>(rt: &R, path: &str) -> io::Result<()> {
    let folder = match Path::new(path).parent() {
        Some(folder) => folder.as_os_str(),
        None => "",
    };
    if folder.is_empty() {
        return fs::open(rt, ".")?.sync_all();
    }
    fs::open(rt, folder)?.sync_all()
}

/// The path to which a name leads that no file has: a link's text stands for the name, from the link's folder on.
pub(crate) fn free_path<R: Files<File = File> + AllocGlobal>(
    rt: &R,
    alloc: Global,
    name: &str,
) -> Result<String, HostFault> {
    let mut path = PathBuf::from_str(alloc, name)?;
    for _ in 0..MOST_LINKS {
        if is_free(rt, &path)? {
            return Ok(path.into_string());
        }
        let text = answer(fs::read_link(rt, &path))?;
        let _ = path.pop();
        path.push(&text)?;
    }
    Err(HostFault::Links)
}

/// Whether nothing has this name; else it is that of a link.
fn is_free<R: Files>(rt: &R, path: &PathBuf) -> Result<bool, HostFault> {
    match fs::symlink_metadata(rt, path) {
        Ok(named) => {
            if named.is_symlink() {
                return Ok(false);
            }
            Err(HostFault::Busy)
        }
        Err(error) => match error.kind() {
            ErrorKind::NotFound => Ok(true),
            _ => Err(fault_of(&error)),
        },
    }
}

/// Has an open file be last changed so many seconds after the begin of 1970 in UTC.
pub(crate) fn set_time(file: &File, seconds: u64) -> Result<(), HostFault> {
    match SystemTime::UNIX_EPOCH.checked_add(Duration::from_secs(seconds)) {
        Some(time) => answer(file.set_modified(time)),
        None => Err(HostFault::Failed),
    }
}

/// When the file of a name was last changed, in seconds after the begin of 1970 in UTC, or 0 where that was before.
pub(crate) fn time_of<R: Files<File = File>>(rt: &R, name: &str) -> Result<u64, HostFault> {
    let named = answer(fs::metadata(rt, name))?;
    match u64::try_from(named.mtime()) {
        Ok(seconds) => Ok(seconds),
        Err(_) => Ok(0),
    }
}

/// Makes a folder, unless there is one of that name.
pub(crate) fn folder_made<R: Files<File = File>>(rt: &R, name: &str) -> Result<(), HostFault> {
    if fs::metadata(rt, name).is_ok() {
        return Ok(());
    }
    answer(fs::create_dir(rt, name))
}

pub(crate) fn rename_fault(error: &io::Error) -> RenameFault {
    match error.kind() {
        ErrorKind::ResourceBusy => RenameFault::Mount,
        _ => RenameFault::Failed(fault_of(error)),
    }
}

pub(crate) fn link_fault(error: &io::Error) -> LinkFault {
    match error.kind() {
        ErrorKind::AlreadyExists => LinkFault::Exists,
        ErrorKind::PermissionDenied | ErrorKind::Unsupported | ErrorKind::TooManyLinks => {
            LinkFault::NoLinks
        }
        _ => LinkFault::Failed(fault_of(error)),
    }
}

/// Writes bytes to standard output, all of them.
pub(crate) fn print_bytes<R: Print>(rt: &R, bytes: &[u8]) -> Result<(), PrintFault> {
    match rt.write_all(bytes) {
        Ok(()) => Ok(()),
        Err(error) => match error.kind() {
            ErrorKind::BrokenPipe => Err(PrintFault::Abandoned),
            _ => Err(PrintFault::Failed),
        },
    }
}

/// All bytes of standard input, or one more than are wanted.
pub(crate) fn input_bytes<R: Input>(
    rt: &R,
    alloc: Global,
    most: usize,
) -> Result<Vec<u8>, HostFault>
    ensures { IfOk result (λ bytes. length bytes.items ≤ most + 1) }
{
    bytes_of(alloc, rt.reader(), most)
}

/// Lets the twentieth part of a second pass.
pub(crate) fn pause<R: Clock>(rt: &R) {
    thread::sleep(rt, Duration::from_millis(PAUSE_TIME));
}

/// The bytes of the word at a place of the command line, or none after the last one. They are copied to a room that is doubled until it holds
/// them.
pub(crate) fn given_word<R: Env>(
    rt: &R,
    alloc: Global,
    place: usize,
) -> Result<Option<Vec<u8>>, AllocError> {
    for doublings in 0..MOST_DOUBLINGS {
        let mut room = vec![in alloc; 0; FIRST_ROOM << doublings]?;
        match rt.arg(place, room.as_mut_slice()) {
            Ok(count) => {
                room.truncate(count);
                return Ok(Some(room));
            }
            Err(FillError::NotPresent) => return Ok(None),
            Err(FillError::TooLong) => {}
        }
    }
    Err(AllocError)
}

/// How many seconds have passed since this was first asked.
pub(crate) fn seconds_since<R: Clock>(rt: &R, begun: &mut Option<Instant>) -> u64 {
    match *begun {
        Some(begun) => match begun.elapsed(rt) {
            Ok(passed) => passed.as_secs(),
            Err(_) => 0,
        },
        None => {
            *begun = Instant::now(rt).ok();
            0
        }
    }
}
