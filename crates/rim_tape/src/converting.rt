ghost use Rattle.std.specs.Prelude.{MatchResult};
ghost use Rattle.rim_tape.specs.Converted.{IsBinOf};
ghost use Rattle.rim_tape.specs.Fault.{IsFault};

use crate::{RimFault, read};
use bin_tape::laws::written_tape;
use bin_tape::tape_of;
use std::alloc::Global;

/// The BIN tape of the words of a RIM tape, which gives each cell the last of them there.
///
/// No memory is asked for before the frames are known to be a tape.
pub fn bin_tape(alloc: Global, frames: &[u8]) -> Result<Vec<u8>, RimFault>
    ensures { MatchResult result (λ bin. IsBinOf frames.now bin.items) (λ fault. IsFault frames.now fault) }
{
    written_tape();
    let pairs = read(alloc, frames)?;
    let bin = tape_of(alloc, &pairs)?;
    Ok(bin)
}
