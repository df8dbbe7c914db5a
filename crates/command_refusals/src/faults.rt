//! Why a command line asks for nothing.
ghost use Rattle.std.specs.Prelude.{◌≡◌};
ghost use Rattle.command_refusals.specs.Faults.{IsFaultOf};
ghost use Rattle.command_refusals.specs.declared.faults.TaskFault.TheVariants.{Memory};

use crate::reasons::Refusal;
use clap::error::ErrorKind;
use std::alloc::AllocError;
use thiserror::Error;

/// Why a command line asks for nothing.
#[derive(Debug, Drop, Error)]
pub enum TaskFault {
    /// 1: `clap` refuses it, or it asks for help or the version; with its text for the user.
    #[error("{0}")]
    Words(clap::Error),

    /// 2: memory ran out.
    #[error("out of memory")]
    Memory,

    /// 3: its arguments are refused, with the line on the usage of its subcommand.
    #[error("{1}")]
    Refused(&'static str, Refusal),
}

impl From<AllocError> for TaskFault {
    ghost from_gives = { λ _ fault. fault ≡ Memory };

    fn from(_error: AllocError) -> TaskFault {
        TaskFault::Memory
    }
}

impl From<clap::Error> for TaskFault {
    ghost from_gives = { IsFaultOf };

    fn from(error: clap::Error) -> TaskFault {
        match error.kind() {
            ErrorKind::OutOfMemory => TaskFault::Memory,
            _ => TaskFault::Words(error),
        }
    }
}
