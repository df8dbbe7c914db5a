ghost use Rattle.std.specs.Prelude.{◌≡◌};
ghost use Rattle.pal_sym.specs.declared.faults.SymFault.TheVariants.{Memory};

use std::alloc::AllocError;
use thiserror::Error;

/// Why a name is not defined, numbered from 1 in this order.
#[derive(Clone, Copy, PartialEq, Eq, Debug, Error)]
pub enum SymFault {
    /// A tag whose name is permanent or defined with another value.
    #[error("duplicate tag")]
    DT,

    /// A name that `=` defines, and that is permanent or defined with another value.
    #[error("redefinition")]
    RD,

    /// Memory ran out.
    #[error("out of memory")]
    Memory,
}

impl From<AllocError> for SymFault {
    ghost from_gives = { λ _ fault. fault ≡ Memory };

    fn from(_error: AllocError) -> SymFault {
        SymFault::Memory
    }
}
