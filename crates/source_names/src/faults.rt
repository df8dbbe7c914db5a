ghost use Rattle.std.specs.Prelude.{◌≡◌};
ghost use Rattle.source_names.specs.declared.faults.NamesFault.TheVariants.{Memory};

use pal_faults::LineRefusal;
use std::alloc::AllocError;
use thiserror::Error;

/// Why a text gives no names.
#[derive(Clone, Copy, PartialEq, Eq, Debug, Error)]
pub enum NamesFault {
    /// The first line that is refused, counted from 1, and why.
    #[error("line {0}: {1}")]
    At(u64, LineRefusal),

    /// Memory ran out.
    #[error("out of memory")]
    Memory,
}

impl From<AllocError> for NamesFault {
    ghost from_gives = { λ _ fault. fault ≡ Memory };

    fn from(_error: AllocError) -> NamesFault {
        NamesFault::Memory
    }
}
