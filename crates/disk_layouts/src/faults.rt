ghost use Rattle.std.specs.Prelude.{◌≡◌};
ghost use Rattle.disk_layouts.specs.declared.faults.DiskFault.TheVariants.{Memory};

use std::alloc::AllocError;
use thiserror::Error;

/// Why a file holds no volume so: 1 `TooLong`, 2 `NoTape`, 3 `Memory`.
#[derive(Clone, Copy, PartialEq, Eq, Debug, Error)]
pub enum DiskFault {
    /// It has more bytes than a disk has.
    #[error("the file is longer than a disk")]
    TooLong,
    /// It has another number of bytes than a DECtape has.
    #[error("the file is no DECtape")]
    NoTape,
    /// Memory was refused.
    #[error("out of memory")]
    Memory,
}

impl From<AllocError> for DiskFault {
    ghost from_gives = { λ _ fault. fault ≡ Memory };

    fn from(_error: AllocError) -> DiskFault {
        DiskFault::Memory
    }
}
