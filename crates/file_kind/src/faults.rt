ghost use Rattle.std.specs.Prelude.{◌≡◌};
ghost use Rattle.file_kind.specs.declared.faults.KindFault.TheVariants.{Memory};

use std::alloc::AllocError;
use thiserror::Error;

/// Why the kind of a file isn't known.
#[derive(Clone, Copy, PartialEq, Eq, Debug, Error)]
pub enum KindFault {
    /// Memory ran out.
    #[error("out of memory")]
    Memory,
}

impl From<AllocError> for KindFault {
    ghost from_gives = { λ _ fault. fault ≡ Memory };

    fn from(_error: AllocError) -> KindFault {
        KindFault::Memory
    }
}
