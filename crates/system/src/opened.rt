//! The files that are open: those that are held, and the one that is made beside a path.

ghost use Rattle.std.specs.Prelude.{◌≤◌, ◌+◌, length, IfOk};

use crate::besides::Besides;
use crate::files::{
    answer, claim_path, cut_at, has_taken_lock, hold_path, leads_to, link_fault, put_at,
    rename_fault, set_time, stands_alone, still_bytes,
};
use crate::leftovers::{is_named, remove_besides};
use crate::making::{NEW_MODE, OWN_MODE, made_beside, take_owner};
use hosts::{HostFault, LinkFault, RenameFault};
use std::alloc::{AllocError, Global};
use std::fs::{self, File, Files};
use std::io::Write;
use std::random::RandomSource;

/// A path, and the names beside it.
#[derive(Drop)]
struct Beside {
    path: String,
    names: Besides,
}

/// The file of a path that is held.
#[derive(Drop)]
struct HeldFile {
    path: String,
    file: File,
}

/// The files that are held, and the one that is made beside a path.
#[derive(Drop)]
pub(crate) struct Opened {
    files: Vec<HeldFile>,
    beside: Option<File>,
    place: Option<Beside>,

    /// A new file that has its path, and still its name beside that; or an empty one that has the path until another takes it.
    new_file: Option<File>,
}

impl Opened {
    pub(crate) fn new(alloc: Global) -> Opened {
        Opened {
            files: Vec::new(alloc),
            beside: None,
            place: None,
            new_file: None,
        }
    }

    /// Has the names beside a path at hand. Where they are, no memory is taken.
    fn place(&mut self, alloc: Global, path: &str) -> Result<&mut Besides, HostFault> {
        if !is_of(&self.place, path) {
            let names = Besides::new(alloc, path)?;
            let path = String::from_str(alloc, path)?;
            self.place = Some(Beside { path, names });
        }
        match &mut self.place {
            Some(place) => Ok(&mut place.names),
            None => Err(HostFault::Failed),
        }
    }

    /// The name of the file beside a path.
    fn name_beside(&self) -> &str {
        match &self.place {
            Some(place) => place.names.last(),
            None => "",
        }
    }

    /// Whether the name beside a path is still that of the file that was made there.
    fn is_beside<R: Files<File = File>>(&self, rt: &R) -> bool {
        match &self.beside {
            Some(file) => match file.metadata() {
                Ok(own) => is_named(rt, self.name_beside(), &own),
                Err(_) => false,
            },
            None => false,
        }
    }

    pub(crate) fn hold<R: Files<File = File>>(
        &mut self,
        rt: &R,
        alloc: Global,
        path: &str,
    ) -> Result<bool, HostFault> {
        let _names = self.place(alloc, path)?;
        let own = String::from_str(alloc, path)?;
        let (file, has_lock) = hold_path(rt, path)?;
        keep(&mut self.files, HeldFile { path: own, file })?;
        Ok(has_lock)
    }

    pub(crate) fn drop_seconds<R: Files<File = File> + AllocGlobal>(
        &self,
        rt: &R,
        path: &str,
    ) -> Result<(), HostFault> {
        match (file_of(&self.files, path), &self.place) {
            (Some(file), Some(place)) => remove_besides(rt, file, &place.names),
            _ => Err(HostFault::Absent),
        }
    }

    pub(crate) fn look(&self, alloc: Global, path: &str, most: usize) -> Result<Vec<u8>, HostFault>
        ensures { IfOk result (λ bytes. length bytes.items ≤ most + 1) }
    {
        match file_of(&self.files, path) {
            Some(file) => still_bytes(alloc, file, most),
            None => Err(HostFault::Absent),
        }
    }

    pub(crate) fn is_alone(&self, path: &str) -> Result<bool, HostFault> {
        match file_of(&self.files, path) {
            Some(file) => stands_alone(file),
            None => Err(HostFault::Absent),
        }
    }

    pub(crate) fn leads<R: Files<File = File>>(&self, rt: &R, path: &str) -> bool {
        match file_of(&self.files, path) {
            Some(file) => leads_to(rt, path, file),
            None => false,
        }
    }

    pub(crate) fn make_beside<R: Files<File = File> + RandomSource>(
        &mut self,
        rt: &R,
        alloc: Global,
        path: &str,
    ) -> Result<(), HostFault> {
        let mode = match file_of(&self.files, path) {
            Some(_) => OWN_MODE,
            None => NEW_MODE,
        };
        let file = made_beside(rt, self.place(alloc, path)?, mode)?;
        self.beside = Some(file);
        Ok(())
    }

    pub(crate) fn own_beside(&self, path: &str) -> Result<(), HostFault> {
        match (&self.beside, file_of(&self.files, path)) {
            (Some(file), Some(older)) => take_owner(file, older),
            _ => Err(HostFault::Absent),
        }
    }

    pub(crate) fn lock_beside(&self) -> Result<(), HostFault> {
        match &self.beside {
            Some(file) => match has_taken_lock(file) {
                Ok(_) => Ok(()),
                Err(fault) => Err(fault),
            },
            None => Err(HostFault::Absent),
        }
    }

    pub(crate) fn write_beside(&mut self, bytes: &[u8]) -> Result<(), HostFault> {
        match &mut self.beside {
            Some(file) => answer(file.write_all(bytes)),
            None => Err(HostFault::Absent),
        }
    }

    pub(crate) fn date_beside(&self, seconds: u64) -> Result<(), HostFault> {
        match &self.beside {
            Some(file) => set_time(file, seconds),
            None => Err(HostFault::Absent),
        }
    }

    pub(crate) fn sync_beside(&self) -> Result<(), HostFault> {
        match &self.beside {
            Some(file) => answer(file.sync_all()),
            None => Err(HostFault::Absent),
        }
    }

    pub(crate) fn drop_beside<R: Files<File = File>>(&mut self, rt: &R) -> Result<(), HostFault> {
        let done = answer(fs::remove_file(rt, self.name_beside()));
        self.beside = None;
        self.new_file = None;
        done
    }

    pub(crate) fn rename<R: Files<File = File>>(
        &mut self,
        rt: &R,
        path: &str,
    ) -> Result<(), RenameFault> {
        if !self.is_beside(rt) {
            return Err(RenameFault::Failed(HostFault::Busy));
        }
        if let Err(error) = fs::rename(rt, self.name_beside(), path) {
            return Err(rename_fault(&error));
        }
        if let Some(file) = self.beside.take() {
            put_in_place(&mut self.files, path, file);
        }
        self.new_file = None;
        Ok(())
    }

    pub(crate) fn link<R: Files<File = File>>(
        &mut self,
        rt: &R,
        path: &str,
    ) -> Result<(), LinkFault> {
        if !self.is_beside(rt) {
            return Err(LinkFault::Failed(HostFault::Busy));
        }
        if let Err(error) = fs::hard_link(rt, self.name_beside(), path) {
            return Err(link_fault(&error));
        }
        self.new_file = self.beside.take();
        Ok(())
    }

    pub(crate) fn claim<R: Files<File = File>>(
        &mut self,
        rt: &R,
        path: &str,
    ) -> Result<(), HostFault> {
        let empty = claim_path(rt, path)?;
        self.new_file = Some(empty);
        Ok(())
    }

    pub(crate) fn drop_claim<R: Files<File = File>>(
        &mut self,
        rt: &R,
        path: &str,
    ) -> Result<(), HostFault> {
        self.new_file = None;
        answer(fs::remove_file(rt, path))
    }

    pub(crate) fn write_over(
        &mut self,
        path: &str,
        at: usize,
        bytes: &[u8],
    ) -> Result<(), HostFault> {
        for it in &mut self.files {
            if it.path.as_str() == path {
                return answer(put_at(&mut it.file, at, bytes));
            }
        }
        Err(HostFault::Absent)
    }

    pub(crate) fn finish_over(&mut self, path: &str, size: usize) -> Result<(), HostFault> {
        for it in &mut self.files {
            if it.path.as_str() == path {
                return answer(cut_at(&mut it.file, size));
            }
        }
        Err(HostFault::Absent)
    }
}

fn keep(files: &mut Vec<HeldFile>, file: HeldFile) -> Result<(), AllocError> {
    files.push(file)?;
    Ok(())
}

/// The file of a path, if it is held.
fn file_of<'a>(files: &'a [HeldFile], path: &str) -> Option<&'a File> {
    for it in files {
        if it.path.as_str() == path {
            return Some(&it.file);
        }
    }
    None
}

/// Has a file held in place of the one of a path, if that is held.
fn put_in_place(files: &mut Vec<HeldFile>, path: &str, file: File) {
    for it in files {
        if it.path.as_str() == path {
            it.file = file;
            return;
        }
    }
}

fn is_of(place: &Option<Beside>, path: &str) -> bool {
    match place {
        Some(place) => place.path.as_str() == path,
        None => false,
    }
}
