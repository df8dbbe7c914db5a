//! The drive that a command's end names where the file of its disk is refused.
ghost use Rattle.std.specs.Prelude.{◌≡◌};
ghost use Rattle.drive_files.specs.Drives as spec;

use outcome::{Content, Ending};
use program_reports::{DriveRefusal, ProgramLine};

/// How a command ends by the file of the disk in a drive, 0 to 3, if it ends so by a file that is in no drive (this project's profile).
pub(crate) fn of_drive(drive: u8, ending: Ending) -> Ending
    ensures { result ≡ spec.of_drive drive ending }
{
    match ending {
        Ending::Line(line) => Ending::Line(line_of_drive(drive, line)),
        Ending::Busy(_) => Ending::Busy(Content::Disk(drive)),
        Ending::NotWritten(_, left) => Ending::NotWritten(Content::Disk(drive), left),
        Ending::Fault(fault) => Ending::Fault(fault),
        Ending::Failure => Ending::Failure,
        Ending::FullOutput => Ending::FullOutput,
        Ending::Unreported => Ending::Unreported,
        Ending::NoReader => Ending::NoReader,
        Ending::Misuse => Ending::Misuse,
    }
}

/// The line of a file that can't be read, or holds no disk, with its drive.
fn line_of_drive(drive: u8, line: ProgramLine) -> ProgramLine
    ensures { result ≡ spec.line_of_drive drive line }
{
    match line {
        ProgramLine::HostRead => ProgramLine::OfDrive(drive, DriveRefusal::Unread),
        ProgramLine::Image(fault) => ProgramLine::OfDrive(drive, DriveRefusal::Image(fault)),
        other => other,
    }
}
