//! Which cells a tape gives a word.
ghost use Rattle.std.specs.Prelude.{◌≡◌, ◌++◌, ◌<◌, ◌≤◌, ℕ, false, is_some, length, slice_index_or, vec_len, IfOk, MatchResult, None};
ghost use Rattle.word12.specs.declared.sizes.TheConstants.{CORE};
ghost use Rattle.bin_tape.specs.Map.{IsMapFault};
ghost use Rattle.tape_reports.specs.Given.{AreGiven};

use bin_tape::{TapeFault, TapeMap};
use std::alloc::{AllocError, Global};
use word12::{CORE, Cell};

/// Whether a tape gives each cell of core a word, by number of the cells; or the tape's fault.
pub fn given_cells(alloc: Global, frames: &[u8]) -> Result<Vec<bool>, TapeFault>
    ensures given { MatchResult result (λ given. AreGiven frames.now given.items)
        (λ fault. IsMapFault frames.now fault) }
    ensures size { IfOk result (λ given. vec_len given ≡ CORE) }
{
    let map = TapeMap::read(alloc, frames)?;
    let given = flags_of(alloc, &map)?;
    Ok(given)
}

/// Whether each cell has a word.
fn flags_of(alloc: Global, map: &TapeMap) -> Result<Vec<bool>, AllocError>
    ensures size { IfOk result (λ flags. vec_len flags ≡ CORE) }
    ensures flags { IfOk result (λ flags. (cell : ℕ) → cell < CORE
        → slice_index_or flags.items cell false ≡ is_some (slice_index_or map.now cell None)) }
{
    let mut flags = Vec::with_capacity(alloc, CORE)?;
    for number in 0u32..CORE as u32 {
        flags.push(map.get(Cell::of(number)).is_some())?;
    }
    Ok(flags)
}
