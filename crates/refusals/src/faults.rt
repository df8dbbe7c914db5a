ghost use Rattle.std.specs.Prelude.{◌≡◌};
ghost use Rattle.refusals.specs.declared.faults.SessionFault.TheVariants.{Memory};

use bin_tape::TapeFault;
use os8_dir::FileFault;
use pal_faults::AsmFault;
use std::alloc::AllocError;
use thiserror::Error;

/// How many bytes are read at most: of a reader, of a file, of standard input.
pub const MOST: usize = 16_777_216;

/// What a session refuses, or what ends it. The numbers are those of the lines that are printed.
#[derive(Clone, Copy, PartialEq, Eq, Debug, Error)]
pub enum SessionFault {
    /// 1: the line has none of the forms, or a number in it is out of its limits.
    #[error("the line has none of the forms")]
    BadLine,

    /// 2: there is no job of the number.
    #[error("there is no job of the number")]
    NoJob,

    /// 3: there are eight jobs.
    #[error("there are too many jobs")]
    TooManyJobs,

    /// 4: the file service refuses.
    #[error("{0}")]
    File(FileFault),

    /// 5: a source that the assembler refuses.
    #[error("{0}")]
    Asm(AsmFault),

    /// 6: frames that are no BIN tape.
    #[error("{0}")]
    Tape(TapeFault),

    /// 7: a text that can't be kept in a file.
    #[error("the text can't be kept in a file")]
    BadText,

    /// 8: the reader failed, or gave more than `MOST` bytes.
    #[error("the reader failed")]
    Reader,

    /// 9: the writer failed.
    #[error("the writer failed")]
    Writer,

    /// 10: memory ran out.
    #[error("out of memory")]
    Memory,

    /// 11: there are 64 breaks.
    #[error("there are too many breaks")]
    TooManyBreaks,
}

impl From<AllocError> for SessionFault {
    ghost from_gives = { λ _ fault. fault ≡ Memory };

    fn from(_error: AllocError) -> SessionFault {
        SessionFault::Memory
    }
}

impl From<AsmFault> for SessionFault {
    ghost use Rattle.refusals.specs.Faults.{fault_of_asm};

    ghost from_gives = { λ asm fault. fault ≡ fault_of_asm asm };

    fn from(fault: AsmFault) -> SessionFault {
        match fault {
            AsmFault::Memory => SessionFault::Memory,
            _ => SessionFault::Asm(fault),
        }
    }
}

impl From<TapeFault> for SessionFault {
    ghost use Rattle.refusals.specs.Faults.{fault_of_tape};

    ghost from_gives = { λ tape fault. fault ≡ fault_of_tape tape };

    fn from(fault: TapeFault) -> SessionFault {
        match fault {
            TapeFault::Memory => SessionFault::Memory,
            _ => SessionFault::Tape(fault),
        }
    }
}

impl From<FileFault> for SessionFault {
    ghost use Rattle.refusals.specs.Faults.{fault_of_file};

    ghost from_gives = { λ file fault. fault ≡ fault_of_file file };

    fn from(fault: FileFault) -> SessionFault {
        match fault {
            FileFault::Memory => SessionFault::Memory,
            _ => SessionFault::File(fault),
        }
    }
}
