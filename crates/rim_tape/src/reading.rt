ghost use Rattle.std.specs.Prelude.{◌≡◌, ℕ, List, [], ◌∷◌, ◌++◌, MatchResult, OnOk};
ghost use Rattle.rim_tape.specs.Tape.{IsRim};
ghost use Rattle.rim_tape.specs.Fault.{IsFault, IsSomeRim};
ghost use Rattle.rim_tape.specs.ReadSteps.{HasReadTo};

use crate::RimFault;
use crate::frames::{leader_length, next};
use std::alloc::{AllocError, Global};
use word12::{Cell, Word};

/// The frames of a word with its address.
const PAIR: usize = 4;

/// The words of a tape with their cells, in its order. The tape has no fields, so the cells are of field 0. What follows its trailer
/// means nothing. Where a frame is refused, the answer is the fault of the first such frame.
///
/// No memory is asked for before the frames are known to be a tape.
pub fn read(alloc: Global, frames: &[u8]) -> Result<Vec<(Cell, Word)>, RimFault>
    ensures { MatchResult result (λ pairs. IsRim frames.now pairs.items) (λ fault. IsFault frames.now fault) }
{
    let leader = leader_length(frames);
    judge(frames, leader)?;
    let pairs = words_after(alloc, frames, leader)?;
    Ok(pairs)
}

/// Reads a tape whose leader has so many frames, and keeps nothing of it.
fn judge(frames: &[u8], leader: usize) -> Result<(), RimFault>
    requires { HasReadTo frames.now leader [] }
    ensures { MatchResult result (λ _. IsSomeRim frames.now) (λ fault. IsFault frames.now fault) }
{
    let mut place = leader;
    while next(frames, place)?.is_some() {
        place += PAIR;
    }
    Ok(())
}

/// The words of a tape whose leader has so many frames.
fn words_after(alloc: Global, frames: &[u8], leader: usize) -> Result<Vec<(Cell, Word)>, RimFault>
    requires tape { IsSomeRim frames.now }
    requires leader { HasReadTo frames.now leader [] }
    ensures { MatchResult result (λ pairs. IsRim frames.now pairs.items) (λ fault. IsFault frames.now fault) }
{
    let mut pairs = Vec::new(alloc);
    let mut place = leader;
    while let Some(pair) = next(frames, place)? {
        put(&mut pairs, pair)?;
        place += PAIR;
    }
    Ok(pairs)
}

/// Puts a word with its cell after the others.
fn put(pairs: &mut Vec<(Cell, Word)>, pair: (Cell, Word)) -> Result<(), AllocError>
    ensures { OnOk result (pairs.new.items ≡ pairs.old.items ++ pair ∷ []) }
{
    pairs.push(pair)?;
    Ok(())
}
