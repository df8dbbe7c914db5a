ghost use Rattle.std.specs.Prelude.{◌≡◌};
ghost use Rattle.os8_dir.specs.declared.faults.DirFault.TheVariants.{Device, Memory};

use std::alloc::AllocError;
use thiserror::Error;
use volume_image::DeviceFault;

/// Why the blocks of a volume are no directory, or could not be read (this project's profile).
///
/// The numbers are 1 `BadLink`, 2 `BadCount`, 3 `EntryPastSegment`, 4 `PastVolume`, 5 `SameName`, 6 `WrongFirstBlock`,
/// 7 `MixedInfo`, 8 `Device` and 9 `Memory`. In the first two stands the number of the block that holds the bad word.
#[derive(Clone, Copy, PartialEq, Eq, Debug, Error)]
pub enum DirFault {
    #[error("block {0} links to no further segment")]
    BadLink(usize),
    #[error("block {0} has more than ten information words")]
    BadCount(usize),
    #[error("an entry goes past its segment")]
    EntryPastSegment,
    #[error("an entry goes past the volume")]
    PastVolume,
    #[error("two files have one name")]
    SameName,
    #[error("a segment's first block is wrong")]
    WrongFirstBlock,
    #[error("segments differ in their information words")]
    MixedInfo,
    #[error("the device failed")]
    Device,
    #[error("out of memory")]
    Memory,
}

impl From<AllocError> for DirFault {
    ghost from_gives = { λ _ fault. fault ≡ Memory };

    fn from(_error: AllocError) -> DirFault {
        DirFault::Memory
    }
}

impl From<DeviceFault> for DirFault {
    ghost from_gives = { λ _ fault. fault ≡ Device };

    fn from(_fault: DeviceFault) -> DirFault {
        DirFault::Device
    }
}
