ghost use Rattle.std.specs.Prelude.{◌≡◌};
ghost use Rattle.os8_dir.specs.declared.file_faults.FileFault.TheVariants.{Device, Memory};

use crate::names::Name;
use std::alloc::AllocError;
use thiserror::Error;
use volume_image::DeviceFault;

/// What is refused of the files of a volume. The numbers are those of the lines that a session prints.
#[derive(Clone, Copy, PartialEq, Eq, Debug, Error)]
pub enum FileFault {
    /// 1: no file has the name.
    #[error("no file has the name")]
    NotFound,

    /// 2: no empty has so many blocks; the largest has these.
    #[error("no empty has so many blocks, the largest has {0}")]
    NoRoom(usize),

    /// 3: the directory has no room for so many entries.
    #[error("the directory is full")]
    DirectoryFull,

    /// 4: the file of this name is held.
    #[error("the file is held")]
    Busy(Name),

    /// 5: the words are no name of a file.
    #[error("no name of a file")]
    BadName,

    /// 6: the file being written has all the blocks that it may grow to.
    #[error("the file is too long")]
    TooLong,

    /// 7: a file is being written.
    #[error("a file is being written")]
    TentativeOpen,

    /// 8: a block could not be read or written.
    #[error("a block could not be read or written")]
    Device,

    /// 9: a write has failed before.
    #[error("a write has failed before")]
    Stopped,

    /// 10: memory ran out.
    #[error("out of memory")]
    Memory,

    /// 11: no block was written.
    #[error("no block was written")]
    NothingWritten,
}

impl From<AllocError> for FileFault {
    ghost from_gives = { λ _ fault. fault ≡ Memory };

    fn from(_error: AllocError) -> FileFault {
        FileFault::Memory
    }
}

impl From<DeviceFault> for FileFault {
    ghost from_gives = { λ _ fault. fault ≡ Device };

    fn from(_fault: DeviceFault) -> FileFault {
        FileFault::Device
    }
}
