//! A job that moves files down, a file a turn.
ghost use Rattle.std.specs.Prelude.{◌≡◌, ◌≤◌, Result};
ghost use Rattle.os8_files.specs.Calls.{Squeezes};
ghost use Rattle.os8_dir.specs.declared.file_faults.FileFault as fault;
ghost use Rattle.os8_files.specs.declared.tokens.Squeezed as token;
ghost use Rattle.volume_jobs.specs.Steps.{SqueezeTurns};

use crate::faults::is_memory;
use crate::{Job, JobFault, Turned, Work};
use os8_files::{FileService, Squeezed};
use std::alloc::Global;
use volume_image::BlockStore;

/// A turn of a job that squeezes, with so many turns left: one call moves a file down. The job ends at the turn that finds
/// none to move, and at its last turn (this project's profile).
pub(crate) fn squeezing_turn<S: BlockStore>(
    alloc: Global,
    files: &mut FileService<S>,
    clean: bool,
    left: usize,
) -> (Result<Turned, JobFault>, Option<Job>)
    requires { 1 ≤ left }
    ensures { (call : Result token.Squeezed fault.FileFault) × Squeezes files.old call files.new
        × SqueezeTurns clean left call result.0 result.1 }
{
    match files.squeeze_turn(alloc) {
        Ok(Squeezed::Moved(_)) => {
            if left < 2 {
                return (Ok(Turned::Squeezed), None);
            }
            (
                Ok(Turned::Working),
                Some(Job {
                    work: Work::Squeezing { clean },
                    turns: left - 1,
                }),
            )
        }
        Ok(Squeezed::Nothing) => (Ok(Turned::Squeezed), None),
        Err(fault) => {
            let fault = JobFault::from(fault);
            if is_memory(&fault) {
                return (
                    Err(fault),
                    Some(Job {
                        work: Work::Squeezing { clean },
                        turns: left,
                    }),
                );
            }
            (Err(fault), None)
        }
    }
}
