//! The calls of a host in memory. Every name leads to its one file.
use crate::memory::{InMemory, first_of, grow, over};
use hosts::{HostFault, LinkFault, PrintFault, RawHost, RenameFault, Stream};
use std::alloc::{AllocError, Global};

impl RawHost for InMemory {
    fn resolve(&mut self, alloc: Global, name: &str) -> Result<String, HostFault> {
        self.path_of(alloc, name)
    }

    fn hold(&mut self, _alloc: Global, _path: &str) -> Result<bool, HostFault> {
        self.answer(true)
    }

    fn drop_seconds(&mut self, _path: &str) -> Result<(), HostFault> {
        self.pass()
    }

    fn drop_leftovers(&mut self, _alloc: Global, _name: &str) -> Result<usize, HostFault> {
        self.answer(0)
    }

    fn look_held(&mut self, alloc: Global, _path: &str, most: usize) -> Result<Vec<u8>, HostFault> {
        self.file_bytes(alloc, most)
    }

    fn look(&mut self, alloc: Global, _name: &str, most: usize) -> Result<Vec<u8>, HostFault> {
        self.file_bytes(alloc, most)
    }

    fn take_input(&mut self, alloc: Global, most: usize) -> Result<Vec<u8>, HostFault> {
        if let Err(fault) = self.pass() {
            return Err(fault);
        }
        first_of(alloc, &self.input, most)
    }

    fn is_alone(&mut self, _path: &str) -> Result<bool, HostFault> {
        let is_alone = self.is_alone;
        self.answer(is_alone)
    }

    fn leads_to_held(&mut self, _path: &str) -> bool {
        self.pass().is_ok()
    }

    fn make_beside(&mut self, alloc: Global, _path: &str) -> Result<(), HostFault> {
        self.pass()?;
        self.beside = Some(Vec::new(alloc));
        self.beside_time = 0;
        Ok(())
    }

    fn own_beside(&mut self, _path: &str) -> Result<(), HostFault> {
        self.pass()
    }

    fn lock_beside(&mut self, _path: &str) -> Result<(), HostFault> {
        self.pass()
    }

    fn write_beside(&mut self, _path: &str, bytes: &[u8]) -> Result<(), HostFault> {
        self.pass()?;
        match &mut self.beside {
            Some(beside) => {
                self.beside_time = 0;
                grow(beside, bytes)
            }
            None => Err(HostFault::Absent),
        }
    }

    fn date_beside(&mut self, _path: &str, seconds: u64) -> Result<(), HostFault> {
        self.pass()?;
        self.beside_time = seconds;
        Ok(())
    }

    fn sync_beside(&mut self, _path: &str) -> Result<(), HostFault> {
        self.pass()
    }

    fn drop_beside(&mut self, _path: &str) -> Result<(), HostFault> {
        self.pass()?;
        self.beside = None;
        Ok(())
    }

    fn rename(&mut self, _path: &str) -> Result<(), RenameFault> {
        if let Err(why) = self.pass() {
            return Err(RenameFault::Failed(why));
        }
        if self.is_mount {
            return Err(RenameFault::Mount);
        }
        match self.beside.take() {
            Some(beside) => {
                self.file = Some(beside);
                self.time = self.beside_time;
                Ok(())
            }
            None => Err(RenameFault::Failed(HostFault::Absent)),
        }
    }

    fn link_new(&mut self, _path: &str) -> Result<(), LinkFault> {
        if let Err(why) = self.pass() {
            return Err(LinkFault::Failed(why));
        }
        if self.file.is_some() {
            return Err(LinkFault::Exists);
        }
        if !self.has_links {
            return Err(LinkFault::NoLinks);
        }
        self.file = self.beside.take();
        self.time = self.beside_time;
        Ok(())
    }

    fn claim(&mut self, _path: &str) -> Result<(), HostFault> {
        self.pass()?;
        if self.file.is_some() {
            return Err(HostFault::Busy);
        }
        self.file = Some(Vec::new(self.alloc));
        Ok(())
    }

    fn drop_claim(&mut self, _path: &str) -> Result<(), HostFault> {
        self.pass()?;
        self.file = None;
        Ok(())
    }

    fn sync_folder(&mut self, _path: &str) -> Result<(), HostFault> {
        self.pass()
    }

    fn write_over(&mut self, _path: &str, at: usize, bytes: &[u8]) -> Result<(), HostFault> {
        self.pass()?;
        let mut laid = Vec::new(self.alloc);
        let old: &[u8] = match &self.file {
            Some(file) => file,
            None => &[],
        };
        over(old, at, bytes, &mut laid)?;
        self.file = Some(laid);
        Ok(())
    }

    fn finish_over(&mut self, _path: &str, size: usize) -> Result<(), HostFault> {
        self.pass()?;
        match &mut self.file {
            Some(file) => {
                file.truncate(size);
                Ok(())
            }
            None => Err(HostFault::Absent),
        }
    }

    fn free_path(&mut self, alloc: Global, name: &str) -> Result<String, HostFault> {
        self.path_of(alloc, name)
    }

    fn is_there(&mut self, _name: &str) -> bool {
        self.file.is_some()
    }

    fn time_of(&mut self, _name: &str) -> Result<u64, HostFault> {
        self.pass()?;
        match &self.file {
            Some(_) => Ok(self.time),
            None => Err(HostFault::Absent),
        }
    }

    fn leads_to_same(
        &mut self,
        _alloc: Global,
        _one: &str,
        _other: &str,
    ) -> Result<bool, HostFault> {
        let is_one = self.is_one;
        self.answer(is_one)
    }

    fn make_folder(&mut self, _name: &str) -> Result<(), HostFault> {
        self.pass()
    }

    fn print(&mut self, bytes: &[u8]) -> Result<(), PrintFault> {
        if self.pass().is_err() || grow(&mut self.output, bytes).is_err() {
            return Err(PrintFault::Failed);
        }
        Ok(())
    }

    fn tell(&mut self, text: &str) -> Result<(), HostFault> {
        self.pass()?;
        grow(&mut self.errors, text.as_bytes())
    }

    fn is_terminal(&mut self, _stream: Stream) -> bool {
        false
    }

    fn seconds(&mut self) -> u64 {
        0
    }

    fn pause(&mut self) {}

    fn word(&mut self, _alloc: Global, _place: usize) -> Result<Option<Vec<u8>>, AllocError> {
        Ok(None)
    }
}
