ghost use Rattle.std.specs.Prelude.{◌≡◌};
ghost use Rattle.rk8e.specs.declared.faults.PackFault.TheVariants.{Memory};

use std::alloc::AllocError;
use thiserror::Error;

/// Why bytes are no file of a pack, or why none was made of them. The first that fits is reported.
#[derive(Clone, Copy, PartialEq, Eq, Debug, Error)]
pub enum PackFault {
    /// No byte, or a length that is not a multiple of 512 bytes.
    #[error("the pack is not whole sectors")]
    NotWhole,
    /// More than 6496 sectors.
    #[error("the pack is too large")]
    TooLarge,
    /// The word of this number, counted from 0 over the whole file, is the first whose top four bits are not 0.
    #[error("word {0} of the pack has more than twelve bits")]
    BadWord(usize),
    /// Memory was refused.
    #[error("no memory")]
    Memory,
}

impl From<AllocError> for PackFault {
    ghost from_gives = { λ _ fault. fault ≡ Memory };

    fn from(_error: AllocError) -> PackFault {
        PackFault::Memory
    }
}
