ghost use Rattle.std.specs.Prelude.{◌≡◌};

use std::alloc::AllocError;
use thiserror::Error;

/// Why bytes could not be packed, numbered from 1.
#[derive(Clone, Copy, PartialEq, Eq, Debug, Error)]
pub enum PackFault {
    /// Memory ran out.
    #[error("out of memory")]
    Memory,
}

impl From<AllocError> for PackFault {
    ghost use Rattle.char_pack.specs.declared.faults.PackFault.TheVariants.{Memory};

    ghost from_gives = { λ _ fault. fault ≡ Memory };

    fn from(_: AllocError) -> PackFault {
        PackFault::Memory
    }
}

/// Why a host text could not be stored.
#[derive(Clone, Copy, PartialEq, Eq, Debug, Error)]
pub enum TextFault {
    /// A byte above 0177, or a control Z (032).
    #[error("bad text")]
    BadText,

    /// Memory ran out.
    #[error("out of memory")]
    Memory,
}

impl From<AllocError> for TextFault {
    ghost use Rattle.char_pack.specs.declared.faults.TextFault.TheVariants.{Memory};

    ghost from_gives = { λ _ fault. fault ≡ Memory };

    fn from(_: AllocError) -> TextFault {
        TextFault::Memory
    }
}

impl From<PackFault> for TextFault {
    ghost use Rattle.char_pack.specs.declared.faults.TextFault.TheVariants.{Memory};

    ghost from_gives = { λ _ fault. fault ≡ Memory };

    fn from(fault: PackFault) -> TextFault {
        match fault {
            PackFault::Memory => TextFault::Memory,
        }
    }
}
