ghost use Rattle.std.specs.Prelude.{◌≡◌};
ghost use Rattle.trace8.specs.declared.faults.TraceFault.TheVariants.{Memory};

use std::alloc::AllocError;
use thiserror::Error;

/// What ends a trace before its end.
#[derive(Clone, Copy, PartialEq, Eq, Debug, Error)]
pub enum TraceFault {
    /// Memory ran out.
    #[error("out of memory")]
    Memory,

    /// The writer failed.
    #[error("the writer failed")]
    Writer,
}

impl From<AllocError> for TraceFault {
    ghost from_gives = { λ _ fault. fault ≡ Memory };

    fn from(_error: AllocError) -> TraceFault {
        TraceFault::Memory
    }
}
