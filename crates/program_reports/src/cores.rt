ghost use Rattle.std.specs.Prelude.{◌≡◌, MatchResult};
ghost use Rattle.char_pack.specs.Packing.{words_of_bytes};
ghost use Rattle.core_image.specs.Converted.{IsBinOf};
ghost use Rattle.core_image.specs.declared.faults.CoreFault.TheVariants.{Memory};
ghost use Rattle.program_reports.specs.Cores.{IsCoreFault};

use char_pack::{PackFault, pack};
use core_image::{CoreFault, bin_tape};
use std::alloc::Global;
use word12::Cell;

/// The BIN tape of the core image whose words these are the frames of, three for each two, and the cell where its program starts.
pub fn core_tape(alloc: Global, given: &[u8]) -> Result<(Vec<u8>, Cell), CoreFault>
    ensures { MatchResult result (λ bin. IsBinOf (words_of_bytes given.now) bin.0.items bin.1)
        (λ fault. IsCoreFault given.now fault) }
{
    let words = pack(alloc, given).map_err(want_of_memory)?;
    bin_tape(alloc, &words)
}

/// Want of memory for words, as that for their tape.
fn want_of_memory(fault: PackFault) -> CoreFault
    ensures { result ≡ Memory }
{
    match fault {
        PackFault::Memory => CoreFault::Memory,
    }
}
