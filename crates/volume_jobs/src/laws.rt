//! What holds of the jobs of a session between its entries. Each function does nothing: its contract is the law.
ghost use Rattle.std.specs.Prelude.{◌≡◌, ◌≢◌, ◌≤◌, ℕ, nat_lt, true, false, List, Option, Some, None, length};
ghost use Rattle.os8_dir.specs.Entries.{contains};
ghost use Rattle.os8_dir.specs.Files.{above_of};
ghost use Rattle.os8_files.specs.Laws.{KeepsHolds};
ghost use Rattle.os8_files.specs.Mounted.{MountState};
ghost use Rattle.volume_jobs.specs.Jobs.{Job, IsLowest, IsOfNone, IsFree, IsTaken, least_free, lowest_job, job_of, with_job, names_of_jobs, with_disturbance};
ghost use Rattle.volume_jobs.specs.Settled as settled;
ghost use Rattle.volume_jobs.specs.Settled.{work_of, IsSettled, plain_jobs};
ghost use Rattle.volume_jobs.specs.Calls.{WorkCalls, ReadsFew, MovesFew};
ghost use Rattle.volume_jobs.specs.declared.kinds.Job as kept;
ghost use Rattle.volume_jobs.specs.declared.kinds.Work.{Work};

use os8_files::laws::{block_reads, counted_holds, file_places};

/// The number that a new job gets is the lowest that no job has, and there is none where each number has a job. The job that
/// FINISH gives a turn is that of the lowest number that has one, and there is none where no number has a job.
pub fn job_numbers()
    ensures free { (jobs : List (Option Job)) (number : ℕ) → least_free jobs ≡ Some number
        → IsLowest (IsFree jobs) (length jobs) number }
    ensures full { (jobs : List (Option Job)) → least_free jobs ≡ None
        → IsOfNone (IsFree jobs) (length jobs) }
    ensures lowest { (jobs : List (Option Job)) (number : ℕ) → lowest_job jobs ≡ Some number
        → IsLowest (IsTaken jobs) (length jobs) number }
    ensures none { (jobs : List (Option Job)) → lowest_job jobs ≡ None
        → IsOfNone (IsTaken jobs) (length jobs) }
{}

/// Where a job is put, or taken away, its number has it or no job, and no other number is changed.
pub fn job_put()
    ensures it { (jobs : List (Option Job)) (number : ℕ) (job : Option Job) → 1 ≤ number
        → number ≤ length jobs → job_of number (with_job number job jobs) ≡ job }
    ensures others { (jobs : List (Option Job)) (number other : ℕ) (job : Option Job) → number ≢ other
        → job_of other (with_job number job jobs) ≡ job_of other jobs }
{}

/// What stands between entries stays after calls that keep the holds, and by which no more files have a free block below them.
/// Where it is noted for the jobs that the directory has changed, it stays after all calls that keep the holds.
pub fn settled_calls()
    ensures kept { (old new : MountState) (jobs : List (Option kept.Job)) → IsSettled old jobs
        → KeepsHolds old new → new.tentative ≡ None
        → (new.stopped ≡ false → above_of new.blocks ≤ above_of old.blocks) → IsSettled new jobs }
    ensures disturbed { (old new : MountState) (jobs : List (Option kept.Job)) → IsSettled old jobs
        → KeepsHolds old new → new.tentative ≡ None → IsSettled new (settled.with_disturbance jobs) }
{
    counted_holds();
}

/// Between entries a name is held just where a job holds it.
pub fn held_names()
    ensures { (volume : MountState) (jobs : List (Option kept.Job)) (name : ℕ) → IsSettled volume jobs
        → contains volume.holds name ≡ contains (names_of_jobs (plain_jobs jobs)) name }
{
    counted_holds();
}

/// The jobs for which a change is noted are those of the system machine that it has disturbed.
pub fn disturbed_jobs()
    ensures { (jobs : List (Option kept.Job)) → plain_jobs (settled.with_disturbance jobs)
        ≡ with_disturbance (plain_jobs jobs) }
{}

/// A turn of a job that assembles or loads reads one block of the store at most. Only one that squeezes changes the place of a
/// file that it doesn't put, and of one file at most.
pub fn job_calls()
    ensures reads { (old new : MountState) (it : Work) (left : ℕ) → WorkCalls it left old new
        → ReadsFew (work_of it) old new }
    ensures places { (old new : MountState) (it : Work) (left : ℕ) → WorkCalls it left old new
        → MovesFew (work_of it) old new }
{
    block_reads();
    file_places();
}
