//! The entries of jobs.
ghost use Rattle.std.specs.Prelude.{◌≡◌, ◌<◌, ◌≤◌, Some, None, IfSome, IsErrOf, length, take};
ghost use Rattle.word12.specs.declared.sizes.TheConstants.{MOST_SOURCES};
ghost use Rattle.volume_jobs.specs.Jobs.{lowest_job, turns_left};
ghost use Rattle.script8.specs.declared.entries.Entry.TheVariants as entry;
ghost use Rattle.script8.specs.declared.entries.JobEntry.TheVariants as job;
ghost use Rattle.refusals.specs.declared.faults.SessionFault.TheVariants.{Memory};
ghost use Rattle.system_session.specs.Files.{parsed_names};
ghost use Rattle.system_session.specs.Room.{EntryTellsRoom};
ghost use Rattle.system_session.specs.SessionSteps.{DoesEntry, LeavesAlone, job_reply};
ghost use Rattle.system_session.specs.Work.{turn_reply, fault_of_job};

use super::Session;
use os8_dir::Name;
use os8_files::FileFault;
use refusals::SessionFault;
use script8::{Bytes, JobEntry, LineReply, Reply};
use std::alloc::Global;
use volume_image::BlockStore;
use volume_jobs::laws::{job_calls, job_numbers};
use volume_jobs::{JobFault, Turned};
use word12::MOST_SOURCES;

impl<S: BlockStore> Session<S> {
    /// Does an entry of jobs.
    pub(super) fn enter_jobs(
        &mut self,
        alloc: Global,
        asked: &JobEntry,
    ) -> Result<Reply, SessionFault>
        ensures does { DoesEntry (entry.Jobs asked.now) self.old result self.new }
        ensures leaves { LeavesAlone (entry.Jobs asked.now) self.old self.new }
        ensures room { EntryTellsRoom (entry.Jobs asked.now) self.old result }
    {
        match asked {
            JobEntry::Assemble { to, from } => self.assemble(alloc, to.as_slice(), from.as_slice()),
            JobEntry::Load { name } => self.load(alloc, name.as_slice()),
            JobEntry::Squeeze => self.squeeze(),
            JobEntry::Turn(number) => self.turn(alloc, *number),
        }
    }

    /// Begins a job that assembles sources to a file. It has two turns for each of their blocks, and one more.
    fn assemble(&mut self, alloc: Global, to: &[u8], from: &[Bytes]) -> Result<Reply, SessionFault>
        ensures does { DoesEntry (entry.Jobs (job.Assemble to.now from.now)) self.old result self.new }
        ensures leaves { LeavesAlone (entry.Jobs (job.Assemble to.now from.now)) self.old self.new }
    {
        if from.is_empty() || from.len() > MOST_SOURCES {
            return Err(SessionFault::BadLine);
        }
        let Some(target) = Name::parse(to) else {
            return Err(SessionFault::File(FileFault::BadName));
        };
        let Some(names) = parse_names(from, target) else {
            return Err(SessionFault::File(FileFault::BadName));
        };
        let sources = &names[..from.len()];
        job_reply(self.jobs.assemble(alloc, &mut self.files, target, sources))
    }

    /// Begins a job that loads a file. It has a turn for each of its blocks, and one more.
    fn load(&mut self, alloc: Global, name: &[u8]) -> Result<Reply, SessionFault>
        ensures does { DoesEntry (entry.Jobs (job.Load name.now)) self.old result self.new }
        ensures leaves { LeavesAlone (entry.Jobs (job.Load name.now)) self.old self.new }
    {
        let Some(name) = Name::parse(name) else {
            return Err(SessionFault::File(FileFault::BadName));
        };
        job_reply(self.jobs.load(alloc, &mut self.files, name))
    }

    /// Begins a job that squeezes. It has a turn for each file, and one more.
    fn squeeze(&mut self) -> Result<Reply, SessionFault>
        ensures does { DoesEntry (entry.Jobs job.Squeeze) self.old result self.new }
        ensures leaves { LeavesAlone (entry.Jobs job.Squeeze) self.old self.new }
    {
        job_reply(self.jobs.squeeze(&self.files))
    }

    /// Lets the job of a number take a turn.
    pub(super) fn turn(&mut self, alloc: Global, number: u32) -> Result<Reply, SessionFault>
        ensures does { DoesEntry (entry.Jobs (job.Turn number)) self.old result self.new }
        ensures leaves { LeavesAlone (entry.Jobs (job.Turn number)) self.old self.new }
        ensures room { EntryTellsRoom (entry.Jobs (job.Turn number)) self.old result }
        ensures fewer { (IsErrOf result Memory → ⊥) → lowest_job self.old.jobs ≡ Some number
            → turns_left self.new.jobs < turns_left self.old.jobs }
    {
        job_calls();
        job_numbers();
        match self
            .console
            .turn(alloc, &mut self.jobs, &mut self.files, number)
        {
            Ok(turned) => Ok(Reply::Line(turn_reply(number, turned))),
            Err(fault) => Err(fault_of_job(fault)),
        }
    }
}

/// The reply to a job that was begun.
fn job_reply(begun: Result<u32, JobFault>) -> Result<Reply, SessionFault>
    ensures { result ≡ job_reply begun }
{
    match begun {
        Ok(number) => Ok(Reply::Line(LineReply::Job(number))),
        Err(fault) => Err(fault_of_job(fault)),
    }
}

/// The names that several are, where each is one. Another name stands after them.
fn parse_names(from: &[Bytes], following: Name) -> Option<[Name; MOST_SOURCES]>
    requires { length from.now ≤ MOST_SOURCES }
    ensures names { IfSome result (λ names. parsed_names from.now ≡ Some (take (length from.now) names)) }
    ensures none { result ≡ None → parsed_names from.now ≡ None }
{
    let mut names = [following; MOST_SOURCES];
    for place in 0..from.len() {
        match Name::parse(from[place].as_slice()) {
            None => return None,
            Some(name) => names[place] = name,
        }
    }
    Some(names)
}

/// The reply to a turn.
fn turn_reply(number: u32, turned: Turned) -> LineReply
    ensures { result ≡ turn_reply number turned }
{
    match turned {
        Turned::Working => LineReply::Working(number),
        Turned::Assembled { name, blocks } => LineReply::Assembled {
            number,
            name,
            blocks,
        },
        Turned::Loaded(name) => LineReply::Loaded { number, name },
        Turned::Squeezed => LineReply::Squeezed(number),
    }
}

/// A job's fault among those of a session.
fn fault_of_job(fault: JobFault) -> SessionFault
    ensures { result ≡ fault_of_job fault }
{
    match fault {
        JobFault::NoJob => SessionFault::NoJob,
        JobFault::TooManyJobs => SessionFault::TooManyJobs,
        JobFault::File(why) => SessionFault::File(why),
        JobFault::Asm(why) => SessionFault::Asm(why),
        JobFault::Tape(why) => SessionFault::Tape(why),
        JobFault::Memory => SessionFault::Memory,
    }
}
