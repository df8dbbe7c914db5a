//! How a command ends before its work is done, by the faults of what it calls.
ghost use Rattle.std.specs.Prelude.{◌≡◌};
ghost use Rattle.std.specs.IoError.{error_kind};
ghost use Rattle.outcome.specs.Endings.{ending_of_archive, ending_of_input, ending_of_source, ending_of_tape};
ghost use Rattle.outcome.specs.declared.endings.Ending.TheVariants as ending;
ghost use Rattle.program_reports.specs.declared.programs.ProgramLine.TheVariants as line;
ghost use Rattle.refusals.specs.declared.faults.SessionFault.TheVariants.{Memory};

use crate::contents::Content;
use archive_files::ArchiveFault;
use bin_tape::TapeFault;
use core_image::CoreFault;
use disk_layouts::DiskFault;
use hosts::Unwritten;
use program_reports::{ProgramLine, SourceFault};
use refusals::SessionFault;
use std::alloc::AllocError;
use std::io::{self, ErrorKind};
use volume_image::ImageFault;

/// How a command ends before its work is done.
#[derive(Drop)]
pub enum Ending {
    /// It is refused with this line.
    Line(ProgramLine),

    /// It is refused with the line of this fault.
    Fault(SessionFault),

    /// It is refused, and its lines are printed already.
    Failure,

    /// Another program works on a file for this.
    Busy(Content),

    /// A file for this could not be written, and what it holds.
    NotWritten(Content, Unwritten),

    /// Standard output takes no more.
    FullOutput,

    /// An image has its change, and standard output does not take the line that reports it.
    Unreported,

    /// Standard output is a pipe that nobody reads any more.
    NoReader,

    /// The words can't all be followed, of which a note is printed already.
    Misuse,
}

impl From<AllocError> for Ending {
    ghost from_gives = { λ _ ended. ended ≡ ending.Fault Memory };

    fn from(error: AllocError) -> Ending {
        Ending::Fault(error.into())
    }
}

impl From<SessionFault> for Ending {
    ghost from_gives = { λ fault ended. ended ≡ ending.Fault fault };

    fn from(fault: SessionFault) -> Ending {
        Ending::Fault(fault)
    }
}

impl From<ArchiveFault> for Ending {
    ghost from_gives = { λ fault ended. ended ≡ ending_of_archive fault };

    fn from(fault: ArchiveFault) -> Ending {
        match fault {
            ArchiveFault::Image(fault) => Ending::Line(ProgramLine::Image(fault)),
            ArchiveFault::Directory(fault) => Ending::Line(ProgramLine::Directory(fault)),
            ArchiveFault::Refused(fault) => Ending::Fault(fault),
        }
    }
}

impl From<SourceFault> for Ending {
    ghost from_gives = { λ fault ended. ended ≡ ending_of_source fault };

    fn from(fault: SourceFault) -> Ending {
        match fault {
            SourceFault::NoWord => Ending::Line(ProgramLine::NoWord),
            SourceFault::NoStart(start) => Ending::Line(ProgramLine::NoStart(start)),
            SourceFault::Reserved(cell) => Ending::Line(ProgramLine::Reserved(cell)),
            SourceFault::Names(line, why) => Ending::Line(ProgramLine::Names(line, why)),
            SourceFault::Session(fault) => Ending::Fault(fault),
        }
    }
}

impl From<TapeFault> for Ending {
    ghost from_gives = { λ fault ended. ended ≡ ending_of_tape fault };

    fn from(fault: TapeFault) -> Ending {
        Ending::Fault(fault.into())
    }
}

impl From<CoreFault> for Ending {
    ghost from_gives = { λ fault ended. ended ≡ ending.Line (line.Core fault) };

    fn from(fault: CoreFault) -> Ending {
        Ending::Line(ProgramLine::Core(fault))
    }
}

impl From<DiskFault> for Ending {
    ghost from_gives = { λ fault ended. ended ≡ ending.Line (line.Disk fault) };

    fn from(fault: DiskFault) -> Ending {
        Ending::Line(ProgramLine::Disk(fault))
    }
}

impl From<ImageFault> for Ending {
    ghost from_gives = { λ fault ended. ended ≡ ending.Line (line.Image fault) };

    fn from(fault: ImageFault) -> Ending {
        Ending::Line(ProgramLine::Image(fault))
    }
}

/// A failed call for what is read.
impl From<io::Error> for Ending {
    ghost from_gives = { λ error ended. ended ≡ ending_of_input (error_kind error) };

    fn from(error: io::Error) -> Ending {
        ending_of_input(error.kind())
    }
}

/// How a command ends if its call for what is read failed by a fault of this kind.
fn ending_of_input(kind: ErrorKind) -> Ending
    ensures { result ≡ ending_of_input kind }
{
    match kind {
        ErrorKind::OutOfMemory => Ending::Fault(SessionFault::Memory),
        _ => Ending::Fault(SessionFault::Reader),
    }
}
