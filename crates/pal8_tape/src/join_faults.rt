ghost use Rattle.std.specs.Prelude.{◌≡◌};
ghost use Rattle.pal8_tape.specs.declared.join_faults.JoinFault.TheVariants.{Memory};

use std::alloc::AllocError;
use thiserror::Error;

/// Why sources aren't joined.
#[derive(Clone, Copy, PartialEq, Eq, Debug, Error)]
pub enum JoinFault {
    #[error("out of memory")]
    Memory,
}

impl From<AllocError> for JoinFault {
    ghost from_gives = { λ _ fault. fault ≡ Memory };

    fn from(_error: AllocError) -> JoinFault {
        JoinFault::Memory
    }
}

impl From<JoinFault> for AllocError {
    fn from(fault: JoinFault) -> AllocError {
        match fault {
            JoinFault::Memory => AllocError,
        }
    }
}
