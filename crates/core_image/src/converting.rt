ghost use Rattle.std.specs.Prelude.{MatchResult};
ghost use Rattle.core_image.specs.Converted.{IsBinOf};
ghost use Rattle.core_image.specs.Fault.{IsFault};

use crate::{CoreFault, read};
use bin_tape::laws::written_tape;
use bin_tape::tape_of;
use std::alloc::Global;
use word12::{Cell, Word};

/// The BIN tape of the words of a core image, which gives each cell the last of them there, and the cell where its program starts.
///
/// No memory is asked for before the words are known to be an image.
pub fn bin_tape(alloc: Global, words: &[Word]) -> Result<(Vec<u8>, Cell), CoreFault>
    ensures { MatchResult result (λ bin. IsBinOf words.now bin.0.items bin.1)
        (λ fault. IsFault words.now fault) }
{
    written_tape();
    let image = read(alloc, words)?;
    let bin = tape_of(alloc, &image.pairs)?;
    Ok((bin, image.start))
}
