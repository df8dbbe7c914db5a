//! The refusals whose lines are those of a patch alone.
ghost use Rattle.change_commands.specs.PatchRefusals.{EndsWith};

use hosts::Host;
use image_files::print;
use outcome::Ending;

/// How a command ends that is refused with this line, which is printed, or which nobody reads.
pub fn refuse_with<H: Host>(host: &mut H, line: &[u8]) -> Ending
    ensures { EndsWith line.now (H.history host.old) result (H.history host.new) }
{
    match print(host, line) {
        Ok(()) => Ending::Failure,
        Err(Ending::NoReader) => Ending::Failure,
        Err(_) => Ending::FullOutput,
    }
}
