ghost use Rattle.std.specs.Prelude.{◌≡◌};
ghost use Rattle.rim_tape.specs.declared.faults.RimFault.TheVariants.{Memory};

use std::alloc::AllocError;
use thiserror::Error;

/// Why frames are no RIM tape, numbered from 1 in this order.
#[derive(Clone, Copy, PartialEq, Eq, Debug, Error)]
pub enum RimFault {
    /// A frame that can't come at this place, counted in all frames from 0.
    #[error("bad frame {frame:03o} at {place}")]
    BadFrame { place: usize, frame: u8 },

    /// The frames end before a trailer.
    #[error("no trailer")]
    NoTrailer,

    /// Memory ran out.
    #[error("out of memory")]
    Memory,
}

impl From<AllocError> for RimFault {
    ghost from_gives = { λ _ fault. fault ≡ Memory };

    fn from(_error: AllocError) -> RimFault {
        RimFault::Memory
    }
}
