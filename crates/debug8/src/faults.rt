ghost use Rattle.std.specs.Prelude.{◌≡◌};
ghost use Rattle.debug8.specs.declared.faults.DebugFault.TheVariants.{Memory};

use std::alloc::AllocError;
use thiserror::Error;

/// Why a debugger refuses, numbered from 1 in this order.
#[derive(Clone, Copy, PartialEq, Eq, Debug, Error)]
pub enum DebugFault {
    /// There are 64 breaks already.
    #[error("too many breaks")]
    TooManyBreaks,

    /// Memory ran out.
    #[error("out of memory")]
    Memory,
}

impl From<AllocError> for DebugFault {
    ghost from_gives = { λ _ fault. fault ≡ Memory };

    fn from(_error: AllocError) -> DebugFault {
        DebugFault::Memory
    }
}
