ghost use Rattle.std.specs.Prelude.{◌≡◌, ◌+◌, ◌<◌, ◌≤◌, ◌↔◌, [], false, true, None, OnOk, IfOk, IfErr, IsErrOf, vec_len, vec_capacity, Err};
ghost use Rattle.word12.specs.declared.sizes.TheConstants.{CORE};
ghost use Rattle.os8_dir.specs.Reading.{Sound, MeetsFault, directory_of};
ghost use Rattle.os8_dir.specs.declared.faults.DirFault.TheVariants.{Device};
ghost use Rattle.volume_jobs.specs.Jobs.{no_jobs};
ghost use Rattle.volume_jobs.specs.Calls.{Outlives};
ghost use Rattle.system_session.specs.Console.{is_within_limits};
ghost use Rattle.system_session.specs.Failing.{MayAnswerStopped};
ghost use Rattle.system_session.specs.System.{MayAnswer, Run};
ghost use Rattle.system_session.specs.SessionSteps.{is_memory, LeavesAlone, DoesEntry};
ghost use Rattle.system_session.specs.Interleaving.{EntryReads, EntryPlaces};
ghost use Rattle.system_session.specs.Room.{EntryTellsRoom};
ghost use Rattle.system_session.specs.Session.{state_of, NoCallFailed, IsLater, IsSame, IsReply, IsSteadied, TellsBlockCalls};
ghost use Rattle.core_load.specs.Core.{zeros};
ghost use Rattle.cpu8.specs.State.{new_machine};
ghost use Rattle.debug8.specs.Breaks.{no_breaks};
ghost use Rattle.script8.specs.declared.entries.Entry.TheVariants as entry;
ghost use Rattle.refusals.specs.declared.faults.SessionFault.TheVariants.{Memory};

use crate::consoles::Console;
use debug8::DebugFault;
use os8_dir::DirFault;
use os8_files::FileService;
use refusals::SessionFault;
use script8::{ConsoleEntry, Entry, Reply, are_steps};
use std::alloc::Global;
use std::marker::Model;
use volume_image::BlockStore;
use volume_jobs::Jobs;

mod files;
mod scripts;
mod turns;

/// How many bytes a line that takes no memory may have.
const LINE: usize = 80;

/// A session over the volume of a store. Its files are those of the store's blocks. It is ended by `into_store` alone, since its
/// jobs hold files.
pub struct Session<S: BlockStore> {
    files: FileService<S>,
    jobs: Jobs,
    console: Console,
    line: Vec<u8>,
}

impl<S: BlockStore> Model for Session<S> {
    ghost use Rattle.std.specs.Prelude.{◌≤◌, vec_capacity};
    ghost use Rattle.volume_jobs.specs.Settled.{IsSettled, plain_jobs};
    ghost use Rattle.system_session.specs.Session.{SessionView};

    ghost Value = { SessionView };

    ghost view = { λ s. record { volume = s.files; jobs = plain_jobs s.jobs; console = s.console } };

    ghost invariant = { λ s. IsSettled s.files s.jobs × (80 ≤ vec_capacity s.line) };
}

/// The answers to the entries of a run that were done, and whether want of memory ended it.
#[derive(Drop)]
pub struct Ran {
    pub replies: Vec<Result<Reply, SessionFault>>,
    pub stopped: bool,
}

impl<S: BlockStore> Session<S> {
    /// A session over a sound volume, after at most twelve reads. Another store is handed back with the first fault of its
    /// directory; so is any store with `Device` where a read failed, and with `Memory`.
    pub fn mount(alloc: Global, store: S) -> Result<Session<S>, (S, DirFault)>
        ensures blocks { IfOk result (λ s. s.volume.blocks ≡ S.contents store) }
        ensures sound { IfOk result (λ s. Sound (S.contents store)) }
        ensures fresh { IfOk result (λ s. (s.volume.stopped ≡ false) × (s.volume.holds ≡ [])
            × (s.volume.tentative ≡ None) × (s.jobs ≡ no_jobs)) }
        ensures console { IfOk result (λ s. s.console
            ≡ record { machine = new_machine (zeros CORE); breaks = no_breaks CORE; printed = [] }) }
        ensures reads { IfOk result (λ s. (s.volume.reads ≤ S.reads store + 12)
            × (s.volume.failed_reads ≡ S.failed_reads store)
            × (s.volume.failed_writes ≡ S.failed_writes store)) }
        ensures handed_back { IfErr result (λ e. (S.contents e.0 ≡ S.contents store)
            × (S.reads e.0 ≤ S.reads store + 12) × (S.failed_writes e.0 ≡ S.failed_writes store)) }
        ensures fault { IfErr result (λ e. MeetsFault e.1 (directory_of (S.contents store))) }
        ensures device { IfErr result (λ e. (e.1 ≡ Device) ↔ (S.failed_reads store < S.failed_reads e.0)) }
    {
        let Ok((line, console)) = parts(alloc) else {
            return Err((store, DirFault::Memory));
        };
        let files = FileService::mount(alloc, store)?;
        Ok(Session {
            files,
            jobs: Jobs::new(),
            console,
            line,
        })
    }

    /// The store, whose blocks hold the files.
    pub fn into_store(self) -> S
        ensures blocks { S.contents result ≡ self.volume.blocks }
        ensures counts { (S.reads result ≡ self.volume.reads)
            × (S.failed_reads result ≡ self.volume.failed_reads)
            × (S.failed_writes result ≡ self.volume.failed_writes) }
    {
        let Session {
            mut files,
            jobs,
            console,
            line,
        } = self;
        drop(line);
        drop(console);
        jobs.end(&mut files);
        files.into_store()
    }

    /// Does an entry: one step of the system machine, where no block call fails. After `Memory` all is as before; `Reader` and
    /// `Writer` are never answered. `Device` is answered just where a block call failed in this entry. After a failed write an entry
    /// of files or jobs is `Stopped`, but for a bad form, name or text and a turn of no job. One of the console goes on. No steps,
    /// and more than 1,000,000, are a `BadLine`.
    pub fn enter(&mut self, alloc: Global, entry: Entry) -> Result<Reply, SessionFault>
        ensures step { NoCallFailed self.old self.new
            → MayAnswer (state_of self.old) entry result (state_of self.new) }
        ensures later { IsLater self.old self.new }
        ensures files { self.old.volume.stopped ≡ false
            → self.old.volume.failed_writes < self.new.volume.failed_writes
            → Outlives self.old.volume.blocks self.new.volume.blocks }
        ensures running { NoCallFailed self.old self.new → self.new.volume.stopped ≡ false }
        ensures memory { IsErrOf result Memory → IsSame self.old self.new }
        ensures reply { IsReply result }
        ensures done { OnOk result (MayAnswer (state_of self.old) entry result (state_of self.new)
            × IsSteadied entry self.old self.new) }
        ensures tells { self.old.volume.stopped ≡ false → TellsBlockCalls entry self.old result self.new }
        ensures stopped { self.old.volume.stopped ≡ true
            → MayAnswerStopped (state_of self.old) entry result (state_of self.new) }
        ensures reads { EntryReads entry self.old self.new }
        ensures places { EntryPlaces entry self.old self.new }
        ensures room { EntryTellsRoom entry self.old result }
    {
        self.step(alloc, &entry)
    }

    /// Does entries in order: a run of the system machine, where no block call fails. Want of memory ends it; where no entry
    /// was done by then, it is answered.
    pub fn run(&mut self, alloc: Global, entries: &[Entry]) -> Result<Ran, SessionFault>
        ensures run { NoCallFailed self.old self.new
            → IfOk result
            (λ ran. Run (state_of self.old) entries.now ran.replies.items ran.stopped (state_of self.new)) }
        ensures later { IsLater self.old self.new }
        ensures running { NoCallFailed self.old self.new → self.new.volume.stopped ≡ false }
        ensures stopped { IfOk result (λ ran. ran.stopped ≡ true → 0 < vec_len ran.replies) }
        ensures err { IfErr result (λ fault. (fault ≡ Memory) × IsSame self.old self.new) }
    {
        let mut replies = Vec::with_capacity(alloc, entries.len())?;
        for entry in entries {
            let answer = self.step(alloc, entry);
            if is_memory(&answer) {
                if replies.is_empty() {
                    return Err(SessionFault::Memory);
                }
                return Ok(Ran {
                    replies,
                    stopped: true,
                });
            }
            replies.push_reserved(answer);
        }
        Ok(Ran {
            replies,
            stopped: false,
        })
    }

    /// Does an entry.
    fn step(&mut self, alloc: Global, entry: &Entry) -> Result<Reply, SessionFault>
        ensures does { DoesEntry entry.now self.old result self.new }
        ensures leaves { LeavesAlone entry.now self.old self.new }
        ensures room { EntryTellsRoom entry.now self.old result }
    {
        match entry {
            Entry::Files(entry) => self.enter_files(alloc, entry),
            Entry::Jobs(entry) => self.enter_jobs(alloc, entry),
            Entry::Console(entry) => self.operate(alloc, entry),
        }
    }

    /// Does an entry of the console.
    fn operate(&mut self, alloc: Global, asked: &ConsoleEntry) -> Result<Reply, SessionFault>
        ensures does { DoesEntry (entry.Console asked.now) self.old result self.new }
        ensures leaves { LeavesAlone (entry.Console asked.now) self.old self.new }
    {
        if !is_within_limits(asked) {
            return Err(SessionFault::BadLine);
        }
        match self.console.enter(alloc, asked) {
            Ok(reply) => Ok(reply),
            Err(DebugFault::TooManyBreaks) => Err(SessionFault::TooManyBreaks),
            Err(DebugFault::Memory) => Err(SessionFault::Memory),
        }
    }
}

/// What a session has beside its files: a line with room for 80 bytes, and a console.
fn parts(alloc: Global) -> Result<(Vec<u8>, Console), DebugFault>
    ensures line { IfOk result (λ parts. 80 ≤ vec_capacity parts.0) }
    ensures console { IfOk result (λ parts. parts.1
        ≡ record { machine = new_machine (zeros CORE); breaks = no_breaks CORE; printed = [] }) }
{
    let line = Vec::with_capacity(alloc, LINE)?;
    let console = Console::new(alloc)?;
    Ok((line, console))
}

/// Whether an entry that makes steps asks for as many as it may.
fn is_within_limits(entry: &ConsoleEntry) -> bool
    ensures { result ≡ is_within_limits entry.now }
{
    match entry {
        ConsoleEntry::Step(steps) | ConsoleEntry::Go(steps) | ConsoleEntry::Run { steps, .. } => {
            are_steps(*steps)
        }
        ConsoleEntry::Start(_)
        | ConsoleEntry::Key(_)
        | ConsoleEntry::Done
        | ConsoleEntry::Switches(_)
        | ConsoleEntry::Examine(_)
        | ConsoleEntry::Deposit { .. }
        | ConsoleEntry::Break { .. }
        | ConsoleEntry::Registers
        | ConsoleEntry::Printed => true,
    }
}

/// Whether an answer is want of memory.
fn is_memory(answer: &Result<Reply, SessionFault>) -> bool
    ensures { result ≡ is_memory answer.now }
{
    match answer {
        Err(SessionFault::Memory) => true,
        _ => false,
    }
}
