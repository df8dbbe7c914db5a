ghost use Rattle.std.specs.Prelude.{◌≡◌};
ghost use Rattle.volume_image.specs.declared.faults.ImageFault.TheVariants.{Memory};

use std::alloc::AllocError;
use thiserror::Error;

/// Why bytes are no image of a volume, or why none was made: 1 `NotWhole`, 2 `TooSmall`, 3 `TooLarge`, 4 `BadWord`, 5
/// `Memory`. The first that fits is reported.
#[derive(Clone, Copy, PartialEq, Eq, Debug, Error)]
pub enum ImageFault {
    /// The length is not a multiple of 512 bytes.
    #[error("the image is not whole blocks")]
    NotWhole,
    /// Fewer than 8 blocks.
    #[error("the image is too small")]
    TooSmall,
    /// More than 4095 blocks.
    #[error("the image is too large")]
    TooLarge,
    /// The word of this index, counted from 0 over the whole image, is the first whose top four bits are not 0.
    #[error("word {0} of the image has more than twelve bits")]
    BadWord(usize),
    /// Memory was refused.
    #[error("no memory")]
    Memory,
}

impl From<AllocError> for ImageFault {
    ghost from_gives = { λ _ fault. fault ≡ Memory };

    fn from(_error: AllocError) -> ImageFault {
        ImageFault::Memory
    }
}
