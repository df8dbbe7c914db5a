ghost use Rattle.std.specs.Prelude.{◌≡◌};
ghost use Rattle.volume_image.specs.declared.faults.ImageFault.TheVariants.{Memory};
ghost use Rattle.volume_salvage.specs.declared.faults.RescueFault.TheVariants as rescue;

use std::alloc::AllocError;
use thiserror::Error;
use volume_image::ImageFault;

/// Why a file is not kept: the first of these that holds, each with the file's place among those given, counted from 0.
#[derive(Clone, Copy, PartialEq, Eq, Debug, Error)]
pub enum Refusal {
    /// It has no name: the first of its words is 0.
    #[error("file {0} has no name")]
    NoName(usize),

    /// It has no word, or a part of a block.
    #[error("file {0} is no whole blocks")]
    NotWhole(usize),

    /// No empty has enough blocks; the largest has so many.
    #[error("file {0} has more than {1} blocks")]
    NoRoom(usize, usize),

    /// The directory has no room for one more entry.
    #[error("the directory has no room for file {0}")]
    DirectoryFull(usize),

    /// Memory ran out, or a block could not be written.
    #[error("file {0} could not be written")]
    Failed(usize),
}

/// Why there is no new volume, numbered from 1 in this order.
#[derive(Clone, Copy, PartialEq, Eq, Debug, Error)]
pub enum RescueFault {
    /// No volume has so many blocks, or memory ran out.
    #[error("{0}")]
    Image(ImageFault),

    /// The new volume could not be read, as memory ran out.
    #[error("the new volume could not be read")]
    Unread,

    /// A file is refused, the first one.
    #[error("{0}")]
    Refused(Refusal),
}

impl From<AllocError> for RescueFault {
    ghost from_gives = { λ _ fault. fault ≡ rescue.Image Memory };

    fn from(_error: AllocError) -> RescueFault {
        RescueFault::Image(ImageFault::Memory)
    }
}

impl From<ImageFault> for RescueFault {
    ghost from_gives = { λ image fault. fault ≡ rescue.Image image };

    fn from(fault: ImageFault) -> RescueFault {
        RescueFault::Image(fault)
    }
}

impl From<Refusal> for RescueFault {
    ghost from_gives = { λ refusal fault. fault ≡ rescue.Refused refusal };

    fn from(refusal: Refusal) -> RescueFault {
        RescueFault::Refused(refusal)
    }
}
