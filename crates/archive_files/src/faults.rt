ghost use Rattle.std.specs.Prelude.{◌≡◌};
ghost use Rattle.archive_files.specs.declared.faults.ArchiveFault.TheVariants.{Refused};
ghost use Rattle.archive_files.specs.declared.faults.DeleteFault.TheVariants as delete;
ghost use Rattle.archive_files.specs.declared.faults.RenameFault.TheVariants as rename;
ghost use Rattle.refusals.specs.declared.faults.SessionFault.TheVariants.{Memory};

use os8_dir::DirFault;
use os8_files::FileFault;
use refusals::SessionFault;
use std::alloc::AllocError;
use thiserror::Error;
use volume_image::ImageFault;

/// Why nothing is done with an image.
#[derive(Clone, Copy, PartialEq, Eq, Debug, Error)]
pub enum ArchiveFault {
    /// The bytes are no image of a volume.
    #[error("{0}")]
    Image(ImageFault),

    /// The volume's directory is not sound.
    #[error("{0}")]
    Directory(DirFault),

    /// What is asked for is refused, or memory ran out.
    #[error("{0}")]
    Refused(SessionFault),
}

impl From<AllocError> for ArchiveFault {
    ghost from_gives = { λ _ fault. fault ≡ Refused Memory };

    fn from(_error: AllocError) -> ArchiveFault {
        ArchiveFault::Refused(SessionFault::Memory)
    }
}

impl From<SessionFault> for ArchiveFault {
    ghost from_gives = { λ session fault. fault ≡ Refused session };

    fn from(fault: SessionFault) -> ArchiveFault {
        ArchiveFault::Refused(fault)
    }
}

/// Why no file is taken out of an image.
#[derive(Clone, Copy, PartialEq, Eq, Debug, Error)]
pub enum DeleteFault {
    /// The image is refused, or memory ran out.
    #[error("{0}")]
    Archive(ArchiveFault),

    /// The name of this place among those given, counted from 0, is the first that is refused.
    #[error("{1}")]
    Name(usize, FileFault),
}

impl From<ArchiveFault> for DeleteFault {
    ghost from_gives = { λ archive fault. fault ≡ delete.Archive archive };

    fn from(fault: ArchiveFault) -> DeleteFault {
        DeleteFault::Archive(fault)
    }
}

impl From<AllocError> for DeleteFault {
    ghost from_gives = { λ _ fault. fault ≡ delete.Archive (Refused Memory) };

    fn from(_error: AllocError) -> DeleteFault {
        DeleteFault::Archive(ArchiveFault::Refused(SessionFault::Memory))
    }
}

/// Why a file of an image is not given another name.
#[derive(Clone, Copy, PartialEq, Eq, Debug, Error)]
pub enum RenameFault {
    /// The image or one of the names is refused, or memory ran out.
    #[error("{0}")]
    Archive(ArchiveFault),

    /// A file of the new name is there.
    #[error("a file has the new name")]
    Exists,
}

impl From<ArchiveFault> for RenameFault {
    ghost from_gives = { λ archive fault. fault ≡ rename.Archive archive };

    fn from(fault: ArchiveFault) -> RenameFault {
        RenameFault::Archive(fault)
    }
}

impl From<AllocError> for RenameFault {
    ghost from_gives = { λ _ fault. fault ≡ rename.Archive (Refused Memory) };

    fn from(_error: AllocError) -> RenameFault {
        RenameFault::Archive(ArchiveFault::Refused(SessionFault::Memory))
    }
}

/// Why a file is not copied from one image into another.
#[derive(Clone, Copy, PartialEq, Eq, Debug, Error)]
pub enum CopyFault {
    /// The image that it is in, or its name, is refused.
    #[error("{0}")]
    From(ArchiveFault),

    /// The image that it is put into, or its name there, is refused.
    #[error("{0}")]
    To(ArchiveFault),
}
