//! The system that the program runs in. Each method makes the call that it is named for. `hosts::Recorded` then notes that, with its answer,
//! once, as the prover shows. It can't show that the call was made: the files of this crate are read for that.
//!
//! What a reader believes of the calls, in the terms of `hosts`' page of places:
//! - `resolve`: `realpath`. The path that it gives has no link in it.
//! - `hold`: `stat`, `open` for reading and writing, a second number for the file, `flock` without waiting, and `stat` and `fstat`, again
//!   where the path leads to another file by then. While the lock is held no other program that asks for it gets it; so no other program
//!   that holds what it writes changes the file.
//! - `drop_seconds`: the folder's names are read. Those beside the path that have the held file's number go, by `lstat` and `unlink`. They end
//!   as `make_beside` has it, or with three digits, as earlier versions had it. So do leftovers: plain files of one name, of this prefix and length, and of the held file's owner, or empty. `open` and `flock` without waiting
//!   show that no program holds one. Its name still leads to it then, and it goes before its lock does. No path that a person names changes.
//!   On a file system without locks nothing goes. A folder that can't be read is left as it is.
//! - `drop_leftovers`: `realpath` and `stat` of the name, and the same of leftovers beside it; of further names too, if no program holds it.
//! - `look_held`, `look`, `take_input`: `read` until the end, or one byte past the most that is wanted. It gives what the file had as it was
//!   read. A file that others replace is read whole, and one that is held is changed by nobody who asks for its lock. Others may write a
//!   plain file in place. `fstat` before and after the read finds that, and the call fails: the length is another, or the time of the last
//!   change. Two changes within one tick of the file system's clock have one time.
//! - `is_alone`, `leads_to_held`, `is_there`, `is_terminal`, `time_of`: `fstat`, `stat`, `lstat`, `isatty` of the open stream, `stat`, and nothing
//!   changes.
//! - `make_beside`: `getentropy` for the end of a name, `.NAME.pdp8-` and ten characters of 32, so nobody can guess it. `open` of it with
//!   `O_CREAT` and `O_EXCL` follows no link and takes no file that is there. Then a second number for it, `flock`, and `lstat`: where it was
//!   taken away meanwhile, another one is made. Where the path has a held file, only the user may open the new one (0600) until `own_beside`,
//!   before which it has no byte. Else it is a new file, whose bytes are its user's to show. That has 0666 less his mask from the first. No
//!   path that a person names changes.
//! - `own_beside`: `fstat`, `fchown` where the owner or the group differs, `fchmod`, all of the open file. Where `fchown` is not permitted it
//!   answers that the owner can't be kept. No byte changes.
//! - `lock_beside`: `flock` without waiting, which `make_beside` has done before.
//! - `write_beside`: `write` until all bytes are written. A failed one may have written some.
//! - `date_beside`: `futimens`, which sets the time that `stat` gives as that of the last change, or doesn't. No byte changes.
//! - `sync_beside`: `fsync`. Where it succeeds the disk has the file's bytes; where it fails nothing is known of them.
//! - `drop_beside`: `unlink` of the name beside.
//! - `rename`: `fstat` and `lstat` of the name beside, which must still be the file's. Then `rename`, which is done or not done, for every
//!   reader and for a crash. A crash after it may leave either file under the path until the folder is synced. Who may take names out of the
//!   folder could put another file in its place between the two, as he could under the path itself.
//! - `link_new`: the same look, and `link`, which fails where the path has a file, and else is done as a rename is. `claim`: `open` with `O_EXCL`, likewise, and
//!   `flock`. `drop_claim`: `unlink`.
//! - `sync_folder`: `open` and `fsync` of the folder. Where it succeeds the disk has its names.
//! - `write_over`: `lseek` and `write`; a crash meanwhile may leave any bytes. `finish_over`: `ftruncate` and `fsync` of a plain file.
//! - `leads_to_same`: `stat` of both names, through links. Two names with one device and one number have one file. Where neither has a file
//!   the links are followed as for `free_path`, and the last part of both names is one, and `stat` gives one folder. Nothing changes.
//! - `free_path`: `lstat` and `readlink` until a name is met that nothing has. `make_folder`: `stat`, and `mkdir` where it finds nothing.
//! - `print`, `tell`: `write` to 1 and to 2 until all bytes are written. A failed one may have written some.
//! - `seconds`: the clock that only goes on. `pause`: `clock_nanosleep`. `word`: a word that the program was started with, which the kernel
//!   has laid into its memory; it ends before the first byte 0.
use crate::opened::Opened;
use crate::terminals::{Outputs, is_terminal};
use crate::{files, leftovers, same};
use hosts::{HostFault, LinkFault, PrintFault, RawHost, RenameFault, Stream};
use std::alloc::{AllocError, Global};
use std::env::Env;
use std::fs::{self, File, Files};
use std::io::{Input, IsTerminal};
use std::random::RandomSource;
use std::time::{Clock, Instant};

/// The operating system, and the files that are open.
#[derive(Drop)]
pub struct System<'a, R> {
    rt: &'a R,
    files: Opened,
    start: Option<Instant>,
}

impl<'a, R: Files<File = File> + AllocGlobal> System<'a, R> {
    pub fn new(rt: &'a R) -> System<'a, R> {
        System {
            rt,
            files: Opened::new(rt.alloc()),
            start: None,
        }
    }
}

impl<
    'a,
    R: Env
        + Files<File = File>
        + Input
        + Outputs
        + Print
        + Eprint
        + Clock
        + RandomSource
        + AllocGlobal,
> RawHost for System<'a, R>
where
    R::Reader: IsTerminal,
{
    fn resolve(&mut self, alloc: Global, name: &str) -> Result<String, HostFault> {
        files::path_of(self.rt, alloc, name)
    }

    fn hold(&mut self, alloc: Global, path: &str) -> Result<bool, HostFault> {
        self.files.hold(self.rt, alloc, path)
    }

    fn drop_seconds(&mut self, path: &str) -> Result<(), HostFault> {
        self.files.drop_seconds(self.rt, path)
    }

    fn drop_leftovers(&mut self, alloc: Global, name: &str) -> Result<usize, HostFault> {
        leftovers::remove_leftovers(self.rt, alloc, name)
    }

    fn look_held(&mut self, alloc: Global, path: &str, most: usize) -> Result<Vec<u8>, HostFault> {
        self.files.look(alloc, path, most)
    }

    fn look(&mut self, alloc: Global, name: &str, most: usize) -> Result<Vec<u8>, HostFault> {
        files::file_bytes(self.rt, alloc, name, most)
    }

    fn take_input(&mut self, alloc: Global, most: usize) -> Result<Vec<u8>, HostFault> {
        files::input_bytes(self.rt, alloc, most)
    }

    fn is_alone(&mut self, path: &str) -> Result<bool, HostFault> {
        self.files.is_alone(path)
    }

    fn leads_to_held(&mut self, path: &str) -> bool {
        self.files.leads(self.rt, path)
    }

    fn make_beside(&mut self, alloc: Global, path: &str) -> Result<(), HostFault> {
        self.files.make_beside(self.rt, alloc, path)
    }

    fn own_beside(&mut self, path: &str) -> Result<(), HostFault> {
        self.files.own_beside(path)
    }

    fn lock_beside(&mut self, _path: &str) -> Result<(), HostFault> {
        self.files.lock_beside()
    }

    fn write_beside(&mut self, _path: &str, bytes: &[u8]) -> Result<(), HostFault> {
        self.files.write_beside(bytes)
    }

    fn date_beside(&mut self, _path: &str, seconds: u64) -> Result<(), HostFault> {
        self.files.date_beside(seconds)
    }

    fn sync_beside(&mut self, _path: &str) -> Result<(), HostFault> {
        self.files.sync_beside()
    }

    fn drop_beside(&mut self, _path: &str) -> Result<(), HostFault> {
        self.files.drop_beside(self.rt)
    }

    fn rename(&mut self, path: &str) -> Result<(), RenameFault> {
        self.files.rename(self.rt, path)
    }

    fn link_new(&mut self, path: &str) -> Result<(), LinkFault> {
        self.files.link(self.rt, path)
    }

    fn claim(&mut self, path: &str) -> Result<(), HostFault> {
        self.files.claim(self.rt, path)
    }

    fn drop_claim(&mut self, path: &str) -> Result<(), HostFault> {
        self.files.drop_claim(self.rt, path)
    }

    fn sync_folder(&mut self, path: &str) -> Result<(), HostFault> {
        files::answer(files::folder_synced(self.rt, path))
    }

    fn write_over(&mut self, path: &str, at: usize, bytes: &[u8]) -> Result<(), HostFault> {
        self.files.write_over(path, at, bytes)
    }

    fn finish_over(&mut self, path: &str, size: usize) -> Result<(), HostFault> {
        self.files.finish_over(path, size)
    }

    fn free_path(&mut self, alloc: Global, name: &str) -> Result<String, HostFault> {
        files::free_path(self.rt, alloc, name)
    }

    fn is_there(&mut self, name: &str) -> bool {
        fs::symlink_metadata(self.rt, name).is_ok()
    }

    fn time_of(&mut self, name: &str) -> Result<u64, HostFault> {
        files::time_of(self.rt, name)
    }

    fn leads_to_same(&mut self, alloc: Global, one: &str, other: &str) -> Result<bool, HostFault> {
        same::leads_to_same(self.rt, alloc, one, other)
    }

    fn make_folder(&mut self, name: &str) -> Result<(), HostFault> {
        files::folder_made(self.rt, name)
    }

    fn print(&mut self, bytes: &[u8]) -> Result<(), PrintFault> {
        files::print_bytes(self.rt, bytes)
    }

    fn tell(&mut self, text: &str) -> Result<(), HostFault> {
        files::answer(self.rt.eprint(text))
    }

    fn is_terminal(&mut self, stream: Stream) -> bool {
        is_terminal(self.rt, stream)
    }

    fn seconds(&mut self) -> u64 {
        files::seconds_since(self.rt, &mut self.start)
    }

    fn pause(&mut self) {
        files::pause(self.rt);
    }

    fn word(&mut self, alloc: Global, place: usize) -> Result<Option<Vec<u8>>, AllocError> {
        files::given_word(self.rt, alloc, place)
    }
}
