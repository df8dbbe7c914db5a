ghost use Rattle.std.specs.Prelude.{◌≡◌};
ghost use Rattle.volume_jobs.specs.Steps.{is_memory};

use bin_tape::TapeFault;
use os8_files::FileFault;
use pal_faults::AsmFault;
use std::alloc::AllocError;
use thiserror::Error;

/// Why a job isn't begun, or ends.
#[derive(Clone, Copy, Debug, Error)]
pub enum JobFault {
    #[error("there is no job of the number")]
    NoJob,

    #[error("there are too many jobs")]
    TooManyJobs,

    /// The file service refuses.
    #[error("{0}")]
    File(FileFault),

    /// The source can't be assembled.
    #[error("{0}")]
    Asm(AsmFault),

    /// The file is no BIN tape.
    #[error("{0}")]
    Tape(TapeFault),

    #[error("out of memory")]
    Memory,
}

impl From<AllocError> for JobFault {
    ghost use Rattle.std.specs.Prelude.{◌≡◌};
    ghost use Rattle.volume_jobs.specs.declared.faults.JobFault.TheVariants.{Memory};

    ghost from_gives = { λ _ fault. fault ≡ Memory };

    fn from(_error: AllocError) -> JobFault {
        JobFault::Memory
    }
}

impl From<TapeFault> for JobFault {
    ghost use Rattle.std.specs.Prelude.{◌≡◌};
    ghost use Rattle.volume_jobs.specs.Faults.{fault_of_tape};

    ghost from_gives = { λ tape fault. fault ≡ fault_of_tape tape };

    fn from(fault: TapeFault) -> JobFault {
        match fault {
            TapeFault::Memory => JobFault::Memory,
            _ => JobFault::Tape(fault),
        }
    }
}

impl From<AsmFault> for JobFault {
    ghost use Rattle.std.specs.Prelude.{◌≡◌};
    ghost use Rattle.volume_jobs.specs.Faults.{fault_of_asm};

    ghost from_gives = { λ asm fault. fault ≡ fault_of_asm asm };

    fn from(fault: AsmFault) -> JobFault {
        match fault {
            AsmFault::Memory => JobFault::Memory,
            _ => JobFault::Asm(fault),
        }
    }
}

impl From<FileFault> for JobFault {
    ghost use Rattle.std.specs.Prelude.{◌≡◌};
    ghost use Rattle.volume_jobs.specs.Faults.{fault_of_file};

    ghost from_gives = { λ file fault. fault ≡ fault_of_file file };

    fn from(fault: FileFault) -> JobFault {
        match fault {
            FileFault::Memory => JobFault::Memory,
            _ => JobFault::File(fault),
        }
    }
}

/// Whether a fault is want of memory.
pub(crate) fn is_memory(fault: &JobFault) -> bool
    ensures { result ≡ is_memory fault.now }
{
    matches!(fault, JobFault::Memory)
}
