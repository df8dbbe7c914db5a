//! What is written of the words of a RIM tape.
ghost use Rattle.std.specs.Prelude.{◌≡◌, List, MatchResult};
ghost use Rattle.bin_tape.specs.Items.{Item};
ghost use Rattle.bin_tape.specs.Tape.{IsTape};
ghost use Rattle.rim_tape.specs.Fault.{IsFault};
ghost use Rattle.rim_tape.specs.declared.faults.RimFault.TheVariants as rim;
ghost use Rattle.tape_reports.specs.Lists.{IsListed};
ghost use Rattle.tape_reports.specs.Rims.{IsRimWritten};

use crate::listings::listing;
use bin_tape::laws::no_fault;
use bin_tape::{TapeFault, TapeMap};
use program_tasks::RimForm;
use rim_tape::{RimFault, bin_tape};
use std::alloc::Global;

/// The BIN tape of the words of a RIM tape, or their lines as those of that BIN tape (Small Computer Handbook, read-in mode loader; this
/// project's profile).
pub fn rim_output(alloc: Global, frames: &[u8], form: RimForm) -> Result<Vec<u8>, RimFault>
    ensures { MatchResult result (λ bytes. IsRimWritten form frames.now bytes.items)
        (λ fault. IsFault frames.now fault) }
{
    let bin = bin_tape(alloc, frames)?;
    match form {
        RimForm::Bin => Ok(bin),
        RimForm::Lines => lines_of(alloc, &bin),
    }
}

/// The lines of the cells that a BIN tape gives a word.
fn lines_of(alloc: Global, frames: &[u8]) -> Result<Vec<u8>, RimFault>
    requires { (items : List Item) × IsTape frames.now items }
    ensures { MatchResult result (λ text. IsListed frames.now text.items) (λ fault. fault ≡ rim.Memory) }
{
    no_fault();
    match TapeMap::read(alloc, frames) {
        Ok(map) => {
            let text = listing(alloc, &map)?;
            Ok(text)
        }
        Err(fault) => match fault {
            TapeFault::Memory => Err(RimFault::Memory),
            _ => unreachable!(),
        },
    }
}
