ghost use Rattle.std.specs.Prelude.{◌≡◌};
ghost use Rattle.core_image.specs.declared.faults.CoreFault.TheVariants.{Memory};

use std::alloc::AllocError;
use thiserror::Error;
use word12::Word;

/// Why words are no core image, numbered from 1 in this order.
#[derive(Clone, Copy, PartialEq, Eq, Debug, Error)]
pub enum CoreFault {
    /// A word of the core control block, counted from 0, that can't stand there.
    #[error("bad word {word} at {place}")]
    BadWord { place: usize, word: Word },

    /// The words end before the control block or a segment does.
    #[error("too short")]
    TooShort,

    /// Memory ran out.
    #[error("out of memory")]
    Memory,
}

impl From<AllocError> for CoreFault {
    ghost from_gives = { λ _ fault. fault ≡ Memory };

    fn from(_error: AllocError) -> CoreFault {
        CoreFault::Memory
    }
}
