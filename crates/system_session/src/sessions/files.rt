//! The entries of files.
ghost use Rattle.std.specs.Prelude.{◌≡◌, ℕ, true, false, List, Some};
ghost use Rattle.char_pack.specs.Texts as spec;
ghost use Rattle.os8_dir.specs.Entries.{IsNamed};
ghost use Rattle.os8_dir.specs.Names.{parsed_name};
ghost use Rattle.os8_files.specs.Puts.{TellsRoom};
ghost use Rattle.os8_dir.specs.declared.file_faults.FileFault.TheVariants.{Busy, Stopped};
ghost use Rattle.script8.specs.declared.entries.Entry.TheVariants as entry;
ghost use Rattle.script8.specs.declared.entries.FileEntry.TheVariants as filing;
ghost use Rattle.refusals.specs.declared.faults.SessionFault.TheVariants.{BadText, File};
ghost use Rattle.system_session.specs.Room.{IfFile, EntryTellsRoom};
ghost use Rattle.system_session.specs.SessionSteps.{LeavesAlone, DoesEntry};

use super::Session;
use char_pack::{TextFault, is_storable, store};
use os8_dir::Name;
use os8_files::FileFault;
use os8_files::laws::{block_reads, file_places, kept_holds};
use refusals::SessionFault;
use script8::{FileEntry, FileLengths, LineReply, Reply, Report};
use std::alloc::Global;
use volume_image::BlockStore;
use volume_jobs::laws::{disturbed_jobs, held_names, settled_calls};
use word12::BLOCK;

impl<S: BlockStore> Session<S> {
    /// Does an entry of files.
    pub(super) fn enter_files(
        &mut self,
        alloc: Global,
        asked: &FileEntry,
    ) -> Result<Reply, SessionFault>
        ensures does { DoesEntry (entry.Files asked.now) self.old result self.new }
        ensures leaves { LeavesAlone (entry.Files asked.now) self.old self.new }
        ensures room { EntryTellsRoom (entry.Files asked.now) self.old result }
    {
        match asked {
            FileEntry::Store { name, text } => self.store(alloc, name.as_slice(), text.as_slice()),
            FileEntry::Delete { name } => self.delete(alloc, name.as_slice()),
            FileEntry::Direct => self.direct(alloc),
        }
    }

    /// Makes a file of a text.
    fn store(&mut self, alloc: Global, name: &[u8], text: &[u8]) -> Result<Reply, SessionFault>
        ensures does { DoesEntry (entry.Files (filing.Store name.now text.now)) self.old result self.new }
        ensures leaves { LeavesAlone (entry.Files (filing.Store name.now text.now)) self.old self.new }
        ensures room { EntryTellsRoom (entry.Files (filing.Store name.now text.now)) self.old result }
    {
        match Name::parse(name) {
            None => Err(SessionFault::File(FileFault::BadName)),
            Some(name) => self.store_named(alloc, name, text),
        }
    }

    /// Makes a file of a text under a name.
    fn store_named(&mut self, alloc: Global, name: Name, text: &[u8]) -> Result<Reply, SessionFault>
        requires { IsNamed name }
        ensures does { (bytes : List ℕ) → parsed_name bytes ≡ Some name
            → DoesEntry (entry.Files (filing.Store bytes text.now)) self.old result self.new }
        ensures leaves { (bytes : List ℕ) → parsed_name bytes ≡ Some name
            → LeavesAlone (entry.Files (filing.Store bytes text.now)) self.old self.new }
        ensures room { IfFile (TellsRoom self.old.volume.blocks name (spec.words_of_text text.now)) result }
    {
        block_reads();
        disturbed_jobs();
        file_places();
        held_names();
        kept_holds();
        settled_calls();
        if self.files.is_stopped() || self.files.is_held(name) {
            return Err(store_fault(text, self.files.is_stopped(), name));
        }
        match store(alloc, text) {
            Err(TextFault::BadText) => Err(SessionFault::BadText),
            Err(TextFault::Memory) => Err(SessionFault::Memory),
            Ok(words) => {
                self.files.put(alloc, name, &words)?;
                self.jobs.disturb();
                let blocks = words.len() / BLOCK;
                Ok(Reply::Line(LineReply::Stored { name, blocks }))
            }
        }
    }

    /// Takes a file out.
    fn delete(&mut self, alloc: Global, name: &[u8]) -> Result<Reply, SessionFault>
        ensures does { DoesEntry (entry.Files (filing.Delete name.now)) self.old result self.new }
        ensures leaves { LeavesAlone (entry.Files (filing.Delete name.now)) self.old self.new }
    {
        block_reads();
        disturbed_jobs();
        file_places();
        held_names();
        kept_holds();
        settled_calls();
        match Name::parse(name) {
            None => Err(SessionFault::File(FileFault::BadName)),
            Some(name) => {
                self.files.delete(alloc, &name)?;
                self.jobs.disturb();
                Ok(Reply::Line(LineReply::Deleted(name)))
            }
        }
    }

    /// The files in name order, and the free blocks.
    fn direct(&mut self, alloc: Global) -> Result<Reply, SessionFault>
        ensures does { DoesEntry (entry.Files filing.Direct) self.old result self.new }
        ensures leaves { LeavesAlone (entry.Files filing.Direct) self.old self.new }
    {
        let files = self.files.listing(alloc)?;
        let free = self.files.free();
        Ok(Reply::Report(Report::Direct {
            files: FileLengths::new(files),
            free,
        }))
    }
}

/// Why a text is not stored under a name where a write has failed, or else a job holds the name. It takes no memory.
fn store_fault(text: &[u8], stopped: bool, name: Name) -> SessionFault
    ensures bad { spec.is_storable text.now ≡ false → result ≡ BadText }
    ensures stopped { spec.is_storable text.now ≡ true → stopped ≡ true → result ≡ File Stopped }
    ensures busy { spec.is_storable text.now ≡ true → stopped ≡ false → result ≡ File (Busy name) }
{
    if !is_storable(text) {
        return SessionFault::BadText;
    }
    if stopped {
        return SessionFault::File(FileFault::Stopped);
    }
    SessionFault::File(FileFault::Busy(name))
}
