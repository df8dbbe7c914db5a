//! What the entries of a session do with the table of jobs.
ghost use Rattle.std.specs.Prelude.{◌≡◌, ◌≤◌, ◌<◌, ℕ, false, None, Some, length};
ghost use Rattle.word12.specs.declared.sizes.TheConstants.{MOST_SOURCES};
ghost use Rattle.os8_dir.specs.Entries.{IsNamed};
ghost use Rattle.os8_files.specs.Holds.{times};
ghost use Rattle.volume_jobs.specs.Calls.{StartsAssembling, StartsLoading, StartsSqueezing, TakesTurn};
ghost use Rattle.volume_jobs.specs.Steps.{TurnsJob, is_assembled, names_in};
ghost use Rattle.volume_jobs.specs.Jobs as plain;
ghost use Rattle.volume_jobs.specs.Settled.{IsSettled, Fits, Stands, plain_jobs};

use crate::assembling::assembling_turn;
use crate::loading::loading_turn;
use crate::squeezing::squeezing_turn;
use crate::{Assembly, Job, JobFault, Jobs, Loading, Turned, Work};
use core_load::Core;
use os8_dir::Name;
use os8_files::laws::{counted_holds, failed_writes, kept_holds};
use os8_files::{FileFault, FileService};
use std::alloc::Global;
use volume_image::BlockStore;

impl Jobs {
    /// The lowest number that has a job, 1 to 8.
    pub fn lowest(&self) -> Option<u32>
        ensures { result ≡ plain.lowest_job (plain_jobs self.now) }
    {
        match self.lowest_place() {
            None => None,
            Some(place) => Some(place as u32 + 1),
        }
    }

    /// Begins a job that assembles files to another one: its number, the least that has no job. Each of them is held from now on,
    /// as often as it is named, and the job has two turns for each of their blocks and one more. Where there are eight jobs it is
    /// `TooManyJobs`. Then come `NotFound` for a file that isn't there, and `Busy` with the target where a job holds it or it is
    /// one of them (this project's profile).
    pub fn assemble<S: BlockStore>(
        &mut self,
        alloc: Global,
        files: &mut FileService<S>,
        to: Name,
        from: &[Name],
    ) -> Result<u32, JobFault>
        requires settled { IsSettled files.old self.old }
        requires named { IsNamed to }
        requires some { 0 < length from.now }
        requires few { length from.now ≤ MOST_SOURCES }
        ensures { StartsAssembling files.old self.old to from.now result files.new self.new }
    {
        counted_holds();
        if files.is_stopped() {
            return Err(JobFault::File(FileFault::Stopped));
        }
        match self.free_place() {
            None => Err(JobFault::TooManyJobs),
            Some(place) => {
                let (assembly, left) = Assembly::begin(alloc, files, to, from)?;
                let work = Work::Assembling(assembly);
                self.put(place, Some(Job { work, turns: left }));
                Ok(place as u32 + 1)
            }
        }
    }

    /// Begins a job that loads a file over core: its number, the least that has no job. The file is held from now on, and the
    /// job has a turn for each of its blocks and one more. Where there are eight jobs it is `TooManyJobs`; then comes
    /// `NotFound` (this project's profile).
    pub fn load<S: BlockStore>(
        &mut self,
        alloc: Global,
        files: &mut FileService<S>,
        name: Name,
    ) -> Result<u32, JobFault>
        requires { IsSettled files.old self.old }
        ensures { StartsLoading files.old self.old name result files.new self.new }
    {
        counted_holds();
        if files.is_stopped() {
            return Err(JobFault::File(FileFault::Stopped));
        }
        match self.free_place() {
            None => Err(JobFault::TooManyJobs),
            Some(place) => {
                let (loading, left) = Loading::begin(alloc, files, name)?;
                let work = Work::Loading(loading);
                self.put(place, Some(Job { work, turns: left }));
                Ok(place as u32 + 1)
            }
        }
    }

    /// Begins a job that moves files down: its number, the least that has no job. It has a turn for each file and one more.
    /// Where there are eight jobs it is `TooManyJobs` (this project's profile). It takes no memory.
    pub fn squeeze<S: BlockStore>(&mut self, files: &FileService<S>) -> Result<u32, JobFault>
        requires { IsSettled files.now self.old }
        ensures { StartsSqueezing files.now self.old result files.now self.new }
    {
        if files.is_stopped() {
            return Err(JobFault::File(FileFault::Stopped));
        }
        match self.free_place() {
            None => Err(JobFault::TooManyJobs),
            Some(place) => {
                let left = files.count() + 1;
                let work = Work::Squeezing { clean: true };
                self.put(place, Some(Job { work, turns: left }));
                Ok(place as u32 + 1)
            }
        }
    }

    /// Lets the job of a number take a turn. Where there is none it is `NoJob`; after another refusal but `Memory` the job is at
    /// its end. Files that are held keep their words.
    pub fn turn<S: BlockStore>(
        &mut self,
        alloc: Global,
        files: &mut FileService<S>,
        core: &mut Core,
        number: u32,
    ) -> Result<Turned, JobFault>
        requires { IsSettled files.old self.old }
        ensures { TakesTurn files.old core.old self.old number result files.new core.new self.new }
    {
        counted_holds();
        if number == 0 || number > 8 {
            return Err(JobFault::NoJob);
        }
        let place = (number - 1) as usize;
        match self.take(place) {
            None => Err(JobFault::NoJob),
            Some(job) => {
                let (answer, after) = job_turn(alloc, files, core, job);
                self.put(place, after);
                if is_assembled(&answer) {
                    self.disturb();
                }
                answer
            }
        }
    }
}

/// Whether a job has put its target.
fn is_assembled(answer: &Result<Turned, JobFault>) -> bool
    ensures { result ≡ is_assembled answer.now }
{
    matches!(answer, Ok(Turned::Assembled { name: _, blocks: _ }))
}

/// A turn of a job. It answers, and hands the job back where it isn't at its end.
fn job_turn<S: BlockStore>(
    alloc: Global,
    files: &mut FileService<S>,
    core: &mut Core,
    job: Job,
) -> (Result<Turned, JobFault>, Option<Job>)
    requires none { files.old.tentative ≡ None }
    requires fits { Fits job.work job.turns }
    requires stands { files.old.stopped ≡ false → Stands files.old.blocks job.work job.turns }
    requires held { (name : ℕ) → times name (names_in (Some job)) ≤ times name files.old.holds }
    ensures { TurnsJob files.old core.old job result.0 result.1 files.new core.new }
{
    counted_holds();
    kept_holds();
    failed_writes();
    let Job { work, turns: left } = job;
    match work {
        Work::Assembling(assembly) => assembling_turn(alloc, files, assembly, left),
        Work::Loading(loading) => loading_turn(files, core, loading, left),
        Work::Squeezing { clean } => squeezing_turn(alloc, files, clean, left),
    }
}
