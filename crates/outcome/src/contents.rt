ghost use Rattle.std.specs.Prelude.{◌≡◌};
ghost use Rattle.outcome.specs.Contents.{content_name, line_of_busy, line_of_write};

use program_reports::{DriveRefusal, ProgramLine};

/// What a file of the host is to hold.
#[derive(Clone, Copy)]
pub enum Content {
    Image,
    Tape,
    Listing,

    /// The disk in this drive, 0 to 3.
    Disk(u8),
}

impl Content {
    /// The word for it in notes on the file (this project's profile).
    pub fn name(self) -> &'static str
        ensures { result.now ≡ content_name self }
    {
        match self {
            Content::Image => "image",
            Content::Tape => "tape",
            Content::Listing => "listing",
            Content::Disk(_) => "image",
        }
    }

    /// The line of a file for this that another program holds.
    pub(crate) fn line_of_busy(self) -> ProgramLine
        ensures { result ≡ line_of_busy self }
    {
        match self {
            Content::Image | Content::Tape | Content::Listing => ProgramLine::HostBusy,
            Content::Disk(drive) => ProgramLine::OfDrive(drive, DriveRefusal::Busy),
        }
    }

    /// The line of a file for this that could not be written.
    pub(crate) fn line_of_write(self) -> ProgramLine
        ensures { result ≡ line_of_write self }
    {
        match self {
            Content::Image | Content::Tape | Content::Listing => ProgramLine::HostWrite,
            Content::Disk(drive) => ProgramLine::OfDrive(drive, DriveRefusal::Unwritten),
        }
    }
}
