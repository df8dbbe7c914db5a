ghost use Rattle.std.specs.Prelude.{◌≡◌};
ghost use Rattle.archive_files.specs.declared.faults.ArchiveFault.TheVariants.{Refused};
ghost use Rattle.refusals.specs.declared.faults.SessionFault.TheVariants.{Memory};
ghost use Rattle.archive_many.specs.declared.faults.BlocksFault.TheVariants as blocks;
ghost use Rattle.archive_many.specs.declared.faults.ChoiceFault.TheVariants as choice;
ghost use Rattle.archive_many.specs.declared.faults.CopyAllFault.TheVariants as copying;
ghost use Rattle.archive_many.specs.declared.faults.ManyFault.TheVariants as many;

use crate::VolumeFile;
use archive_files::{ArchiveFault, CopyFault};
use refusals::SessionFault;
use std::alloc::AllocError;
use thiserror::Error;

/// Why a word chooses no files.
#[derive(Clone, Copy, PartialEq, Eq, Debug, Error)]
pub enum ChoiceFault {
    /// The word is neither a name nor a pattern.
    #[error("neither a name nor a pattern")]
    BadName,

    /// No file is like the word.
    #[error("no file is like the word")]
    NotFound,

    /// Memory ran out.
    #[error("out of memory")]
    Memory,
}

impl From<AllocError> for ChoiceFault {
    ghost from_gives = { λ _ fault. fault ≡ choice.Memory };

    fn from(_error: AllocError) -> ChoiceFault {
        ChoiceFault::Memory
    }
}

/// Why no file is put into an image.
#[derive(Clone, Copy, PartialEq, Eq, Debug, Error)]
pub enum ManyFault {
    /// The image is refused, or memory ran out.
    #[error("{0}")]
    Archive(ArchiveFault),

    /// The file of this place among those given, counted from 0, is the first that is refused.
    #[error("{1}")]
    File(usize, SessionFault),
}

impl From<ArchiveFault> for ManyFault {
    ghost from_gives = { λ archive fault. fault ≡ many.Archive archive };

    fn from(fault: ArchiveFault) -> ManyFault {
        ManyFault::Archive(fault)
    }
}

impl From<AllocError> for ManyFault {
    ghost from_gives = { λ _ fault. fault ≡ many.Archive (Refused Memory) };

    fn from(_error: AllocError) -> ManyFault {
        ManyFault::Archive(ArchiveFault::Refused(SessionFault::Memory))
    }
}

/// Why no file is copied from one image into another.
#[derive(Clone, Copy, PartialEq, Eq, Debug, Error)]
pub enum CopyAllFault {
    /// The image that gets them is refused.
    #[error("{0}")]
    To(ArchiveFault),

    /// A file of the name of this one is there.
    #[error("a file of its name is there")]
    Exists(VolumeFile),

    /// This file is the first that can't be put.
    #[error("{1}")]
    File(VolumeFile, CopyFault),

    /// Memory ran out.
    #[error("out of memory")]
    Memory,
}

impl From<ArchiveFault> for CopyAllFault {
    ghost from_gives = { λ archive fault. fault ≡ copying.To archive };

    fn from(fault: ArchiveFault) -> CopyAllFault {
        CopyAllFault::To(fault)
    }
}

impl From<AllocError> for CopyAllFault {
    ghost from_gives = { λ _ fault. fault ≡ copying.Memory };

    fn from(_error: AllocError) -> CopyAllFault {
        CopyAllFault::Memory
    }
}

/// Why blocks of an image are not got.
#[derive(Clone, Copy, PartialEq, Eq, Debug, Error)]
pub enum BlocksFault {
    /// The bytes are no image, the blocks begin with no tape, or memory ran out.
    #[error("{0}")]
    Archive(ArchiveFault),

    /// The image has no such blocks, but only so many from block 0 on.
    #[error("the image has {0} blocks")]
    NoBlocks(usize),
}

impl From<ArchiveFault> for BlocksFault {
    ghost from_gives = { λ archive fault. fault ≡ blocks.Archive archive };

    fn from(fault: ArchiveFault) -> BlocksFault {
        BlocksFault::Archive(fault)
    }
}

impl From<SessionFault> for BlocksFault {
    ghost from_gives = { λ session fault. fault ≡ blocks.Archive (Refused session) };

    fn from(fault: SessionFault) -> BlocksFault {
        BlocksFault::Archive(ArchiveFault::Refused(fault))
    }
}

impl From<AllocError> for BlocksFault {
    ghost from_gives = { λ _ fault. fault ≡ blocks.Archive (Refused Memory) };

    fn from(_error: AllocError) -> BlocksFault {
        BlocksFault::Archive(ArchiveFault::Refused(SessionFault::Memory))
    }
}
