ghost use Rattle.std.specs.Prelude.{◌≡◌};
ghost use Rattle.pal8_values.specs.declared.faults.ValueFault.TheVariants.{Memory};

use std::alloc::AllocError;
use thiserror::Error;

/// Why steps have no value, numbered from 1.
#[derive(Clone, Copy, PartialEq, Eq, Debug, Error)]
pub enum ValueFault {
    /// A name stands for nothing: this one, by the number that its six sixbit codes make.
    #[error("undefined name")]
    UA(u64),
    /// `.` is past 7777.
    #[error("past 7777")]
    PF,
    /// `%` has 0 after it.
    #[error("division by zero")]
    DZ,
    /// A memory reference outside of words to an address that is neither on page zero nor on its own page.
    #[error("illegal reference")]
    IR,
    /// An indirect memory reference to such an address.
    #[error("illegal indirect")]
    II,
    /// A page has no cell left for a literal or a link.
    #[error("page exceeded")]
    PE,
    /// Page zero has none left.
    #[error("page zero exceeded")]
    ZE,
    /// A literal of the own page, or a link, where the place and the location are apart by no whole pages.
    #[error("RELOC by no whole page")]
    RL,
    #[error("out of memory")]
    Memory,
}

impl From<AllocError> for ValueFault {
    ghost from_gives = { λ _ fault. fault ≡ Memory };

    fn from(_error: AllocError) -> ValueFault {
        ValueFault::Memory
    }
}
