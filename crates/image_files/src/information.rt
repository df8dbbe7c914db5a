//! Whether a volume has room for information words.
ghost use Rattle.std.specs.Prelude.{false};
ghost use Rattle.image_files.specs.Information.{FitsWords, TakesIf, TakesWords};

use crate::answers::open_volume;
use hosts::Host;
use outcome::Ending;
use program_reports::ProgramLine;
use std::alloc::Global;

/// Refuses more information words for a file than each file of the volume in an image has. Where none are wanted, the volume is not read.
pub fn take_words<H: Host>(
    host: &mut H,
    alloc: Global,
    image: &[u8],
    wanted: usize,
) -> Result<(), Ending>
    ensures { TakesWords wanted image.now (H.history host.old) result (H.history host.new) }
{
    if wanted == 0 {
        return Ok(());
    }
    take_some(host, alloc, image, wanted)
}

/// Refuses more information words than each file of the volume in an image has, which is read.
fn take_some<H: Host>(
    host: &mut H,
    alloc: Global,
    image: &[u8],
    wanted: usize,
) -> Result<(), Ending>
    ensures { TakesIf false wanted image.now (H.history host.old) result (H.history host.new) }
{
    let volume = open_volume(host, alloc, image)?;
    fit_words(wanted, volume.information_words())
}

/// Refuses more information words than there are.
fn fit_words(wanted: usize, count: usize) -> Result<(), Ending>
    ensures { FitsWords wanted count result }
{
    if wanted > count {
        return Err(Ending::Line(ProgramLine::OnlyWords(count)));
    }
    Ok(())
}
