//! The job of a refusal: what stands before the fault of a job's turn.
ghost use Rattle.std.specs.Prelude.{◌≡◌, ◌≤◌, ◌++◌, option_copied};
ghost use Rattle.arrayvec.specs.ArrayVec.{array_vec_len};
ghost use Rattle.script8.specs.Replies.{fault_prefix, job_prefix, job_of as the_job, job_of_turn};

use crate::line_replies::put_job;
use crate::{Entry, JobEntry};
use arrayvec::ArrayVec;
use refusals::SessionFault;
use refusals::text_lines::put;

/// The job to which an entry gives a turn, where there is an entry.
pub(crate) fn job_of(entry: Option<&Entry>) -> Option<u32>
    ensures { result ≡ the_job (option_copied entry.entry) }
{
    match entry {
        Some(Entry::Jobs(entry)) => job_of_turn(entry),
        Some(Entry::Files(_) | Entry::Console(_)) | None => None,
    }
}

/// The job to which an entry of jobs gives a turn.
fn job_of_turn(entry: &JobEntry) -> Option<u32>
    ensures { result ≡ job_of_turn entry.now }
{
    match entry {
        JobEntry::Turn(job) => Some(*job),
        JobEntry::Assemble { .. } | JobEntry::Load { .. } | JobEntry::Squeeze => None,
    }
}

/// Puts what stands before a fault of a job's turn, or of no job's, into an empty line.
pub(crate) fn put_fault_prefix(line: &mut ArrayVec<u8, 80>, job: Option<u32>, fault: SessionFault)
    requires { array_vec_len line.old ≡ 0 }
    ensures text { line.new.items ≡ line.old.items ++ fault_prefix job fault }
    ensures short { array_vec_len line.new ≤ 25 }
{
    if let Some(job) = job {
        put_job_prefix(line, job, fault);
    }
}

/// Puts the job of a fault that is its end into an empty line.
fn put_job_prefix(line: &mut ArrayVec<u8, 80>, job: u32, fault: SessionFault)
    requires { array_vec_len line.old ≡ 0 }
    ensures text { line.new.items ≡ line.old.items ++ job_prefix job fault }
    ensures short { array_vec_len line.new ≤ 25 }
{
    if let SessionFault::File(_) | SessionFault::Asm(_) | SessionFault::Tape(_) = fault {
        put_job(line, job);
        put(line, b" ");
    }
}
