//! The turns of a job that assembles: a block a turn, all blocks twice, and the target at the last.
ghost use Rattle.std.specs.Prelude.{◌≡◌, ◌≤◌, ℕ, None, false, List};
ghost use Rattle.os8_files.specs.Holds.{times};
ghost use Rattle.volume_jobs.specs.Steps.{TurnsJob};
ghost use Rattle.volume_jobs.specs.Sources.{names_of, AssemblyFits, AssemblyStands};
ghost use Rattle.volume_jobs.specs.declared.kinds.Work.TheVariants as work;

use crate::faults::is_memory;
use crate::{Assembly, Job, JobFault, Turned, Work};
use os8_files::laws::{counted_holds, failed_writes, kept_holds};
use os8_files::{FileFault, FileService};
use std::alloc::Global;
use volume_image::BlockStore;
use word12::BLOCK;

/// A turn of a job that assembles, with so many turns left. It answers, and hands the job back where it isn't at its end. Each
/// turn but the last reads a block by one read, and ends the job where the blocks so far show a fault (this project's profile).
pub(crate) fn assembling_turn<S: BlockStore>(
    alloc: Global,
    files: &mut FileService<S>,
    job: Assembly,
    left: usize,
) -> (Result<Turned, JobFault>, Option<Job>)
    requires none { files.old.tentative ≡ None }
    requires fits { AssemblyFits job left }
    requires stands { files.old.stopped ≡ false → AssemblyStands files.old.blocks job left }
    requires held { (name : ℕ) → times name (names_of job.holds) ≤ times name files.old.holds }
    ensures { (core : List ℕ)
        → TurnsJob files.old core (record { work = work.Assembling job; turns = left }) result.0 result.1
        files.new core }
{
    counted_holds();
    if files.is_stopped() {
        job.let_go(files);
        return (Err(JobFault::File(FileFault::Stopped)), None);
    }
    if left < 2 {
        return target_turn(alloc, files, job, left);
    }
    let mut job = job;
    match job.read(alloc, files, left) {
        Ok(()) => (Ok(Turned::Working), assembles_on(job, left - 1)),
        Err(fault) => {
            if is_memory(&fault) {
                return (Err(fault), assembles_on(job, left));
            }
            job.let_go(files);
            (Err(fault), None)
        }
    }
}

/// The last turn: the sources are without fault, and the file that they are assembled to is put. Its name isn't that of a
/// source, so it is free to be put where no other job holds it.
fn target_turn<S: BlockStore>(
    alloc: Global,
    files: &mut FileService<S>,
    job: Assembly,
    left: usize,
) -> (Result<Turned, JobFault>, Option<Job>)
    requires none { files.old.tentative ≡ None }
    requires running { files.old.stopped ≡ false }
    requires last { left ≡ 1 }
    requires fits { AssemblyFits job left }
    requires stands { AssemblyStands files.old.blocks job left }
    requires held { (name : ℕ) → times name (names_of job.holds) ≤ times name files.old.holds }
    ensures { (core : List ℕ)
        → TurnsJob files.old core (record { work = work.Assembling job; turns = left }) result.0 result.1
        files.new core }
{
    counted_holds();
    kept_holds();
    failed_writes();
    match job.assembling.target(alloc) {
        Err(fault) => (Err(JobFault::from(fault)), assembles_on(job, left)),
        Ok(words) => match files.put(alloc, job.to, &words) {
            Ok(()) => {
                let name = job.to;
                let blocks = words.len() / BLOCK;
                job.let_go(files);
                (Ok(Turned::Assembled { name, blocks }), None)
            }
            Err(fault) => {
                let fault = JobFault::from(fault);
                if is_memory(&fault) {
                    return (Err(fault), assembles_on(job, left));
                }
                job.let_go(files);
                (Err(fault), None)
            }
        },
    }
}

/// The job goes on with so many turns left.
fn assembles_on(job: Assembly, left: usize) -> Option<Job>
    ensures { result ≡ Some (record { work = work.Assembling job; turns = left }) }
{
    Some(Job {
        work: Work::Assembling(job),
        turns: left,
    })
}
