//! What holds of refusals, and of the turns of squeezing jobs. Each function does nothing: its contract is the law.
ghost use Rattle.std.specs.Prelude.{◌≡◌, ℕ, Bool, List, Option, Result, false, Some, None, Err};
ghost use Rattle.std.specs.FinMap.{get};
ghost use Rattle.volume_jobs.specs.Jobs.{loading, squeezing, job_of, with_job};
ghost use Rattle.script8.specs.Replies.{job_of_entry};
ghost use Rattle.script8.specs.declared.entries.Entry.{Entry};
ghost use Rattle.script8.specs.declared.entries.Entry.TheVariants as entry;
ghost use Rattle.script8.specs.declared.entries.JobEntry.TheVariants as job;
ghost use Rattle.refusals.specs.declared.faults.SessionFault.{SessionFault};
ghost use Rattle.system_session.specs.Road.{changes_file, is_loaded, LoadsCore, ConsoleGoesOn, HasMadeFile, NoneTells};
ghost use Rattle.system_session.specs.Same.{IsAlike, IsApart, speaks_of_room};
ghost use Rattle.system_session.specs.Script.{RunsText};
ghost use Rattle.system_session.specs.ShownAnswers.{ShownAnswer, ShowsText};
ghost use Rattle.system_session.specs.State.{State};
ghost use Rattle.system_session.specs.System.{Answer, Run, MayAnswer};

use bin_tape::laws::{no_fault, one_reading};

/// A refused entry changes no file, no word of core, no register, no break and no character printed. Where it is no turn of a
/// job, it changes nothing at all (this project's profile).
pub fn refusals()
    ensures others { (old new : State) (entry : Entry) (why : SessionFault)
        → MayAnswer old entry (Err why) new
        → new ≡ record old { jobs = new.jobs } }
    ensures all { (old new : State) (entry : Entry) (why : SessionFault) → job_of_entry entry ≡ None
        → MayAnswer old entry (Err why) new → new ≡ old }
{}

/// When the turns of squeezing jobs fall matters to nothing but the refusals that speak of room and the numbers free for new jobs
/// (this project's profile). Such a turn changes its own job alone, and what is known of free blocks below files. Take two states
/// that are the same but for those, and an entry that is a turn of a squeezing job in neither. It may get the same answer, and
/// leaves them so, but for a refusal for want of free blocks or of room in the directory. Where it is to begin a job, the least
/// free number must be the same in both.
pub fn interleavings()
    ensures own { (old new : State) (number : ℕ) (clean : Bool) (left : ℕ) (answer : Answer)
        → job_of number old.jobs ≡ Some (squeezing clean left)
        → MayAnswer old (entry.Jobs (job.Turn number)) answer new
        → new ≡ record old { tight = new.tight; jobs = with_job number (job_of number new.jobs) old.jobs } }
    ensures turn { (old new : State) (number : ℕ) (clean : Bool) (left : ℕ) (answer : Answer)
        → job_of number old.jobs ≡ Some (squeezing clean left)
        → MayAnswer old (entry.Jobs (job.Turn number)) answer new
        → IsAlike old new }
    ensures others { (one two one' : State) (e : Entry) (answer : Answer) → IsAlike one two
        → IsApart e one two → speaks_of_room answer ≡ false → MayAnswer one e answer one'
        → (two' : State) × MayAnswer two e answer two' × IsAlike one' two' }
{}

/// The road of a program: from the sources that a job assembled to a file, to the processor that runs with it (this project's
/// profile). A file keeps its words until an answer says that it was written or taken out. So long as none does, a load of a file
/// that a job made from sources meets no fault of a tape. Where it ends, core is what it was before, overlaid with what the sources,
/// as they were when they were assembled, put into it. From there on, up to the next load, the console does what its entries do on
/// that core, whatever the files and the other jobs are.
pub fn road()
    ensures kept { (old new : State) (name : ℕ) (entries : List Entry) (answers : List Answer)
        (stopped : Bool) → Run old entries answers stopped new → NoneTells (changes_file name) answers
        → get new.files name ≡ get old.files name }
    ensures console { (old new : State) (entries : List Entry) (answers : List Answer) (stopped : Bool)
        → Run old entries answers stopped new → NoneTells is_loaded answers
        → ConsoleGoesOn old.console entries answers new.console }
    ensures load { (one two three four : State) (maker loader name left : ℕ) (sources : List (List ℕ))
        (entries : List Entry) (answers : List Answer) (stopped : Bool) (answer : Answer)
        → HasMadeFile maker name sources one two → Run two entries answers stopped three
        → NoneTells (changes_file name) answers → job_of loader three.jobs ≡ Some (loading name left)
        → MayAnswer three (entry.Jobs (job.Turn loader)) answer four → LoadsCore sources three answer four }
{
    no_fault();
    one_reading();
}

/// What is shown of a run is that run: its items are answered so, and these lines are printed.
pub fn shown_runs()
    ensures { (most : ℕ) (old new : State) (shown : List ShownAnswer) (r r' w w' : Option (List ℕ)) (result : Result (Unit {0}) SessionFault)
        → ShowsText most old shown new r r' w w' result → RunsText most old new r r' w w' result }
{}
