ghost use Rattle.std.specs.Prelude.{◌≡◌};
ghost use Rattle.bin_tape.specs.declared.faults.TapeFault.TheVariants.{Memory};

use std::alloc::AllocError;
use thiserror::Error;
use word12::Word;

/// Why frames are no BIN tape, numbered from 1 in this order.
#[derive(Clone, Copy, PartialEq, Eq, Debug, Error)]
pub enum TapeFault {
    /// A frame that can't come at this place, counted in all frames from 0.
    #[error("bad frame {0}")]
    BadFrame(u64),

    /// The first frame of a word before any origin.
    #[error("no origin")]
    NoOrigin,

    /// The word before the trailer isn't the sum of the frames before it.
    #[error("check sum {found}, computed {computed}")]
    CheckSum { found: Word, computed: Word },

    /// The frames end before a trailer.
    #[error("no trailer")]
    NoTrailer,

    /// Memory ran out.
    #[error("out of memory")]
    Memory,
}

impl From<AllocError> for TapeFault {
    ghost from_gives = { λ _ fault. fault ≡ Memory };

    fn from(_error: AllocError) -> TapeFault {
        TapeFault::Memory
    }
}
