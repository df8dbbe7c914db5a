//! Why a call of a host failed, and what a file holds after one.
ghost use Rattle.std.specs.Prelude.{◌≡◌, ℕ, false};
ghost use Rattle.hosts.specs.Event.{Alter, Rename};
ghost use Rattle.hosts.specs.Faults.{class_of, fault_number, rename_number, step_number};
ghost use Rattle.hosts.specs.Streams.{with_fault};

use std::alloc::AllocError;

/// Why a call failed.
#[derive(Clone, Copy, Debug, PartialEq, Eq)]
pub enum HostFault {
    /// Another program holds the file, or has made it meanwhile.
    Busy,

    /// Memory was wanted.
    Memory,

    /// There is no file of that name.
    Absent,

    /// Permission is denied.
    Denied,

    /// The file system is read-only.
    ReadOnly,

    /// It is a folder.
    Folder,

    /// A part of its path is no folder.
    NoFolder,

    /// No space is left, or none of a quota.
    Full,

    /// There are too many links, or links lead in a circle.
    Links,

    /// It would be larger than the file system takes.
    Large,

    /// Another program changed the file while it was read.
    Changed,

    /// It is a pipe, so it can't be changed.
    Pipe,

    /// The owner of the older file can't be given to the new one.
    Owner,

    /// It can't be done for another reason.
    Failed,
}

/// What a fault is to a command.
#[derive(Clone, Copy)]
pub enum FaultClass {
    /// Another program holds the file, or has made it meanwhile.
    Busy,

    /// Memory was wanted.
    Memory,

    /// Any other fault.
    Other,
}

impl HostFault {
    /// What the fault is to a command.
    pub fn class(self) -> FaultClass
        ensures { result ≡ class_of self }
    {
        match self {
            HostFault::Busy => FaultClass::Busy,
            HostFault::Memory => FaultClass::Memory,
            HostFault::Absent
            | HostFault::Denied
            | HostFault::ReadOnly
            | HostFault::Folder
            | HostFault::NoFolder
            | HostFault::Full
            | HostFault::Links
            | HostFault::Large
            | HostFault::Changed
            | HostFault::Pipe
            | HostFault::Owner
            | HostFault::Failed => FaultClass::Other,
        }
    }
}

impl From<AllocError> for HostFault {
    ghost use Rattle.hosts.specs.declared.faults.HostFault.TheVariants.{Memory};

    ghost from_gives = { λ _ fault. fault ≡ Memory };

    fn from(_error: AllocError) -> HostFault {
        HostFault::Memory
    }
}

/// Why a file can't take a path.
#[derive(Clone, Copy, Debug, PartialEq, Eq)]
pub enum RenameFault {
    /// The path is a mount's, which no other file can take.
    Mount,

    /// It can't be done for this reason.
    Failed(HostFault),
}

/// Why a file can't have a path as a further name.
#[derive(Clone, Copy, Debug, PartialEq, Eq)]
pub enum LinkFault {
    /// A file has the path.
    Exists,

    /// The file system has no further names.
    NoLinks,

    /// It can't be done for this reason.
    Failed(HostFault),
}

/// Why a step failed by which a new file is made. That it is busy, or that memory is wanted, is said of other calls alone.
pub(crate) fn step_fault(fault: HostFault) -> HostFault
    ensures { fault_number result ≡ step_number (fault_number fault) }
{
    match fault {
        HostFault::Busy => HostFault::Failed,
        HostFault::Memory => HostFault::Failed,
        HostFault::Absent => HostFault::Absent,
        HostFault::Denied => HostFault::Denied,
        HostFault::ReadOnly => HostFault::ReadOnly,
        HostFault::Folder => HostFault::Folder,
        HostFault::NoFolder => HostFault::NoFolder,
        HostFault::Full => HostFault::Full,
        HostFault::Links => HostFault::Links,
        HostFault::Large => HostFault::Large,
        HostFault::Changed => HostFault::Changed,
        HostFault::Pipe => HostFault::Pipe,
        HostFault::Owner => HostFault::Owner,
        HostFault::Failed => HostFault::Failed,
    }
}

/// Why a new file can't take a path. That it is a mount's is no reason of its own.
pub(crate) fn rename_cause(fault: RenameFault) -> HostFault
    ensures { (before : ℕ) → fault_number result ≡ with_fault (Alter Rename) false (rename_number fault) before }
{
    match fault {
        RenameFault::Mount => HostFault::Failed,
        RenameFault::Failed(why) => step_fault(why),
    }
}

/// Why bytes can't be written to standard output.
#[derive(Clone, Copy, Debug, PartialEq, Eq)]
pub enum PrintFault {
    /// It is a pipe that nobody reads any more.
    Abandoned,

    /// It takes no more.
    Failed,
}

/// A standard stream.
#[derive(Clone, Copy, Debug, PartialEq, Eq)]
pub enum Stream {
    Input,
    Output,
    Errors,
}

/// Whether a crash of the system keeps what was just written.
#[derive(Clone, Copy, Debug, PartialEq, Eq)]
pub enum Durability {
    /// It is on the disk, with its name.
    Certain,

    /// The folder could not be brought to the disk, so a crash may give the name back to an older file, or to none.
    Unknown,
}

/// Why a file could not be written, and what it holds.
#[derive(Clone, Copy, Debug, PartialEq, Eq)]
pub struct SaveFault {
    pub state: Unwritten,
    pub why: HostFault,
}

/// What a file holds that could not be written.
#[derive(Clone, Copy, Debug, PartialEq, Eq)]
pub enum Unwritten {
    /// What it held before; a new file is not there.
    AsItWas,

    /// It may hold a part of what it was to hold.
    InPart,
}
