//! A host that notes each call.
ghost use Rattle.std.specs.Prelude.{◌≡◌, []};
ghost use Rattle.hosts.specs.Raw.{events_of};

use crate::notes::{
    ALONE, CLAIM, DATE_BESIDE, DROP_BESIDE, DROP_CLAIM, DROP_LEFTOVERS, DROP_SECONDS, END_OF_WORDS,
    FINISH_OVER, FREE, HOLD, LEADS, LINK_NEW, LOCK_BESIDE, LOOK, MAKE_BESIDE, MAKE_FOLDER,
    OWN_BESIDE, PAUSE, PRINT, RENAME, RESOLVE, SAME, SECONDS, SYNC_BESIDE, SYNC_FOLDER, TAKE_INPUT,
    TELL, TERMINAL, THERE, TIME_OF, WORD, WRITE_BESIDE, WRITE_OVER, fault_number, link_number,
    number, rename_number,
};
use crate::record::Record;
use crate::{Host, HostFault, LinkFault, PrintFault, RawHost, RenameFault, Stream};
use std::alloc::{AllocError, Global};

/// A host of whose calls each is noted with its answer, once.
#[derive(Drop)]
pub struct Recorded<H> {
    raw: H,
    record: Record,
}

impl<H> Recorded<H> {
    /// A host of which no call was made yet.
    pub fn new(raw: H) -> Recorded<H>
        ensures raw { result.raw ≡ raw }
        ensures history { events_of result.record.events ≡ [] }
    {
        Recorded {
            raw,
            record: Record::new(),
        }
    }

    /// What makes the calls.
    pub fn raw(&self) -> &H
        ensures { result.now ≡ self.now.raw }
    {
        &self.raw
    }
}

impl<H: RawHost> Host for Recorded<H> {
    ghost history = { λ s. events_of s.record.events };

    fn resolve(&mut self, alloc: Global, name: &str) -> Result<String, HostFault> {
        let done = self.raw.resolve(alloc, name);
        match &done {
            Ok(it) => self
                .record
                .note(&[RESOLVE, 1, 0], name.as_bytes(), it.as_bytes()),
            Err(fault) => self.record.note_fault(RESOLVE, name, fault),
        }
        done
    }

    fn hold(&mut self, alloc: Global, path: &str) -> Result<bool, HostFault> {
        let done = self.raw.hold(alloc, path);
        match &done {
            Ok(has_lock) => self
                .record
                .note(&[HOLD, 1, u64::from(*has_lock)], path.as_bytes(), &[]),
            Err(fault) => self.record.note_fault(HOLD, path, fault),
        }
        done
    }

    fn drop_seconds(&mut self, path: &str) -> Result<(), HostFault> {
        let done = self.raw.drop_seconds(path);
        self.record.note_step(DROP_SECONDS, path, &done);
        done
    }

    fn drop_leftovers(&mut self, alloc: Global, name: &str) -> Result<usize, HostFault> {
        let done = self.raw.drop_leftovers(alloc, name);
        match &done {
            Ok(count) => self
                .record
                .note(&[DROP_LEFTOVERS, 1, *count as u64], name.as_bytes(), &[]),
            Err(fault) => self.record.note_fault(DROP_LEFTOVERS, name, fault),
        }
        done
    }

    fn look_held(&mut self, alloc: Global, path: &str, most: usize) -> Result<Vec<u8>, HostFault> {
        let done = self.raw.look_held(alloc, path, most);
        match &done {
            Ok(it) => self.record.note(&[LOOK, 1, 0], path.as_bytes(), it),
            Err(fault) => self.record.note_fault(LOOK, path, fault),
        }
        done
    }

    fn look(&mut self, alloc: Global, name: &str, most: usize) -> Result<Vec<u8>, HostFault> {
        let done = self.raw.look(alloc, name, most);
        match &done {
            Ok(it) => self.record.note(&[LOOK, 1, 0], name.as_bytes(), it),
            Err(fault) => self.record.note_fault(LOOK, name, fault),
        }
        done
    }

    fn take_input(&mut self, alloc: Global, most: usize) -> Result<Vec<u8>, HostFault> {
        let done = self.raw.take_input(alloc, most);
        match &done {
            Ok(it) => self.record.note(&[TAKE_INPUT, 1, 0], &[], it),
            Err(fault) => self.record.note_fault(TAKE_INPUT, "", fault),
        }
        done
    }

    fn is_alone(&mut self, path: &str) -> Result<bool, HostFault> {
        let done = self.raw.is_alone(path);
        match &done {
            Ok(is) => self
                .record
                .note(&[ALONE, 1, u64::from(*is)], path.as_bytes(), &[]),
            Err(fault) => self.record.note_fault(ALONE, path, fault),
        }
        done
    }

    fn leads_to_held(&mut self, path: &str) -> bool {
        let is = self.raw.leads_to_held(path);
        self.record
            .note(&[LEADS, u64::from(is), 0], path.as_bytes(), &[]);
        is
    }

    fn make_beside(&mut self, alloc: Global, path: &str) -> Result<(), HostFault> {
        let done = self.raw.make_beside(alloc, path);
        self.record.note_step(MAKE_BESIDE, path, &done);
        done
    }

    fn own_beside(&mut self, path: &str) -> Result<(), HostFault> {
        let done = self.raw.own_beside(path);
        self.record.note_step(OWN_BESIDE, path, &done);
        done
    }

    fn lock_beside(&mut self, path: &str) -> Result<(), HostFault> {
        let done = self.raw.lock_beside(path);
        self.record.note_step(LOCK_BESIDE, path, &done);
        done
    }

    fn write_beside(&mut self, path: &str, bytes: &[u8]) -> Result<(), HostFault> {
        let done = self.raw.write_beside(path, bytes);
        match &done {
            Ok(()) => self
                .record
                .note(&[WRITE_BESIDE, 1, 0], path.as_bytes(), bytes),
            Err(fault) => self.record.note_fault(WRITE_BESIDE, path, fault),
        }
        done
    }

    fn date_beside(&mut self, path: &str, seconds: u64) -> Result<(), HostFault> {
        let done = self.raw.date_beside(path, seconds);
        self.record.note(&[DATE_BESIDE, number(&done), seconds], path.as_bytes(), &[]);
        done
    }

    fn sync_beside(&mut self, path: &str) -> Result<(), HostFault> {
        let done = self.raw.sync_beside(path);
        self.record.note_step(SYNC_BESIDE, path, &done);
        done
    }

    fn drop_beside(&mut self, path: &str) -> Result<(), HostFault> {
        let done = self.raw.drop_beside(path);
        self.record.note_step(DROP_BESIDE, path, &done);
        done
    }

    fn rename(&mut self, path: &str) -> Result<(), RenameFault> {
        let done = self.raw.rename(path);
        match &done {
            Ok(()) => self.record.note(&[RENAME, 1, 0], path.as_bytes(), &[]),
            Err(fault) => self
                .record
                .note(&[RENAME, 0, rename_number(fault)], path.as_bytes(), &[]),
        }
        done
    }

    fn link_new(&mut self, path: &str) -> Result<(), LinkFault> {
        let done = self.raw.link_new(path);
        match &done {
            Ok(()) => self.record.note(&[LINK_NEW, 1, 0], path.as_bytes(), &[]),
            Err(fault) => self
                .record
                .note(&[LINK_NEW, 0, link_number(fault)], path.as_bytes(), &[]),
        }
        done
    }

    fn claim(&mut self, path: &str) -> Result<(), HostFault> {
        let done = self.raw.claim(path);
        self.record.note_step(CLAIM, path, &done);
        done
    }

    fn drop_claim(&mut self, path: &str) -> Result<(), HostFault> {
        let done = self.raw.drop_claim(path);
        self.record.note_step(DROP_CLAIM, path, &done);
        done
    }

    fn sync_folder(&mut self, path: &str) -> Result<(), HostFault> {
        let done = self.raw.sync_folder(path);
        self.record.note_step(SYNC_FOLDER, path, &done);
        done
    }

    fn write_over(&mut self, path: &str, at: usize, bytes: &[u8]) -> Result<(), HostFault> {
        let done = self.raw.write_over(path, at, bytes);
        match &done {
            Ok(()) => self
                .record
                .note(&[WRITE_OVER, 1, at as u64], path.as_bytes(), bytes),
            Err(fault) => self.record.note_fault(WRITE_OVER, path, fault),
        }
        done
    }

    fn finish_over(&mut self, path: &str, size: usize) -> Result<(), HostFault> {
        let done = self.raw.finish_over(path, size);
        match &done {
            Ok(()) => self
                .record
                .note(&[FINISH_OVER, 1, size as u64], path.as_bytes(), &[]),
            Err(fault) => self.record.note_fault(FINISH_OVER, path, fault),
        }
        done
    }

    fn free_path(&mut self, alloc: Global, name: &str) -> Result<String, HostFault> {
        let done = self.raw.free_path(alloc, name);
        match &done {
            Ok(it) => self
                .record
                .note(&[FREE, 1, 0], name.as_bytes(), it.as_bytes()),
            Err(fault) => self.record.note_fault(FREE, name, fault),
        }
        done
    }

    fn is_there(&mut self, name: &str) -> bool {
        let is = self.raw.is_there(name);
        self.record
            .note(&[THERE, u64::from(is), 0], name.as_bytes(), &[]);
        is
    }

    fn time_of(&mut self, name: &str) -> Result<u64, HostFault> {
        let done = self.raw.time_of(name);
        match &done {
            Ok(seconds) => self
                .record
                .note(&[TIME_OF, 1, *seconds], name.as_bytes(), &[]),
            Err(fault) => self.record.note_fault(TIME_OF, name, fault),
        }
        done
    }

    fn leads_to_same(&mut self, alloc: Global, one: &str, other: &str) -> Result<bool, HostFault> {
        let done = self.raw.leads_to_same(alloc, one, other);
        match &done {
            Ok(is) => self.record.note(
                &[SAME, 1, u64::from(*is)],
                one.as_bytes(),
                other.as_bytes(),
            ),
            Err(fault) => self.record.note(
                &[SAME, 0, fault_number(fault)],
                one.as_bytes(),
                other.as_bytes(),
            ),
        }
        done
    }

    fn make_folder(&mut self, name: &str) -> Result<(), HostFault> {
        let done = self.raw.make_folder(name);
        self.record.note_step(MAKE_FOLDER, name, &done);
        done
    }

    fn print(&mut self, bytes: &[u8]) -> Result<(), PrintFault> {
        let done = self.raw.print(bytes);
        match &done {
            Ok(()) => self.record.note(&[PRINT, 1, 0], &[], bytes),
            Err(PrintFault::Abandoned) => self.record.note(&[PRINT, 0, 1], &[], bytes),
            Err(PrintFault::Failed) => self.record.note(&[PRINT, 0, 0], &[], bytes),
        }
        done
    }

    fn tell(&mut self, text: &str) -> Result<(), HostFault> {
        let done = self.raw.tell(text);
        self.record
            .note(&[TELL, number(&done), 0], &[], text.as_bytes());
        done
    }

    fn is_terminal(&mut self, stream: Stream) -> bool {
        let is = self.raw.is_terminal(stream);
        match stream {
            Stream::Input => self.record.note(&[TERMINAL, u64::from(is), 0], &[], &[]),
            Stream::Output => self.record.note(&[TERMINAL, u64::from(is), 1], &[], &[]),
            Stream::Errors => self.record.note(&[TERMINAL, u64::from(is), 2], &[], &[]),
        }
        is
    }

    fn seconds(&mut self) -> u64 {
        let passed = self.raw.seconds();
        self.record.note(&[SECONDS, 1, passed], &[], &[]);
        passed
    }

    fn pause(&mut self) {
        self.raw.pause();
        self.record.note(&[PAUSE, 1, 0], &[], &[]);
    }

    fn word(&mut self, alloc: Global, place: usize) -> Result<Option<Vec<u8>>, AllocError> {
        let done = self.raw.word(alloc, place);
        match &done {
            Ok(Some(word)) => self.record.note(&[WORD, 1, place as u64], &[], word),
            Ok(None) => self.record.note(&[END_OF_WORDS, 1, place as u64], &[], &[]),
            Err(_) => self.record.note(&[WORD, 0, 2], &[], &[]),
        }
        done
    }
}
