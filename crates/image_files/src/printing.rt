//! What is printed on standard output.
ghost use Rattle.image_files.specs.Saving.{Prints, Reports, Stores};

use crate::faults::ending_of_print;
use crate::images::Image;
use hosts::{Host, PrintFault};
use outcome::Ending;
use std::alloc::Global;

/// Prints bytes on standard output, all of them.
pub fn print<H: Host>(host: &mut H, bytes: &[u8]) -> Result<(), Ending>
    ensures { Prints bytes.now (H.history host.old) result (H.history host.new) }
{
    match host.print(bytes) {
        Ok(()) => Ok(()),
        Err(fault) => Err(ending_of_print(fault)),
    }
}

/// Has an image file hold these bytes of an image, and only then prints the lines that report it.
pub fn store<H: Host>(
    host: &mut H,
    alloc: Global,
    image: Image,
    bytes: &[u8],
    lines: &[u8],
) -> Result<(), Ending>
    ensures { Stores image bytes.now lines.now (H.history host.old) result (H.history host.new) }
{
    image.save(host, alloc, bytes)?;
    report(host, lines)
}

/// Prints lines that report a change of an image, which is made.
pub fn report<H: Host>(host: &mut H, lines: &[u8]) -> Result<(), Ending>
    ensures { Reports lines.now (H.history host.old) result (H.history host.new) }
{
    match host.print(lines) {
        Ok(()) => Ok(()),
        Err(fault) => match fault {
            PrintFault::Abandoned => Err(Ending::NoReader),
            PrintFault::Failed => Err(Ending::Unreported),
        },
    }
}
