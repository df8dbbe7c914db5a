//! How a command ends by the faults of its host.
ghost use Rattle.std.specs.Prelude.{◌≡◌};
ghost use Rattle.image_files.specs.Faults as spec;
ghost use Rattle.image_files.specs.Making.{ending_of_file, ending_of_first};
ghost use Rattle.image_files.specs.Reading.{ending_of_image};

use hosts::{FaultClass, HostFault, PrintFault, Unwritten};
use outcome::{Content, Ending};
use program_reports::ProgramLine;
use refusals::SessionFault;

/// How a command ends if its image can't be held, or can't be read (this project's profile).
pub fn ending_of_image(fault: HostFault) -> Ending
    ensures { result ≡ ending_of_image fault }
{
    match fault.class() {
        FaultClass::Busy => Ending::Busy(Content::Image),
        FaultClass::Memory => Ending::Fault(SessionFault::Memory),
        FaultClass::Other => Ending::Line(ProgramLine::HostRead),
    }
}

/// How a command ends if its standard output failed (this project's profile).
pub fn ending_of_print(fault: PrintFault) -> Ending
    ensures { result ≡ spec.ending_of_print fault }
{
    match fault {
        PrintFault::Abandoned => Ending::NoReader,
        PrintFault::Failed => Ending::FullOutput,
    }
}

/// How a command ends if its file for this can't be held or made, and is as it was (this project's profile).
pub fn ending_of_file(content: Content, fault: HostFault) -> Ending
    ensures { result ≡ ending_of_file content fault }
{
    match fault.class() {
        FaultClass::Busy => Ending::Busy(content),
        FaultClass::Memory => Ending::Fault(SessionFault::Memory),
        FaultClass::Other => Ending::NotWritten(content, Unwritten::AsItWas),
    }
}

/// How a command ends if its file for an image can't be made where there is to be none of its name (this project's profile).
pub fn ending_of_first(fault: HostFault) -> Ending
    ensures { result ≡ ending_of_first fault }
{
    match fault.class() {
        FaultClass::Busy => Ending::Line(ProgramLine::HostExists),
        FaultClass::Memory => Ending::Fault(SessionFault::Memory),
        FaultClass::Other => Ending::NotWritten(Content::Image, Unwritten::AsItWas),
    }
}
