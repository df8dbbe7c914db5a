//! Whether frames are of one kind.
ghost use Rattle.std.specs.Prelude.{◌≡◌, ◌↔◌, ℕ, List, IsTrue, IfOk, MatchOption};
ghost use Rattle.char_pack.specs.Packing.{words_of_bytes};
ghost use Rattle.core_image.specs.Fault as core;
ghost use Rattle.rim_tape.specs.Fault as rim;
ghost use Rattle.rim_tape.specs.Fault.{IsSomeRim};
ghost use Rattle.file_kind.specs.Kinds.{IsCore, IsNoCore, IsSomeTape};

use crate::KindFault;
use bin_tape::laws::{first_closing, longer_tape, no_fault};
use bin_tape::{Tape, TapeReader};
use char_pack::{PackFault, pack};
use core_image::CoreFault;
use core_image::laws::one_fault as one_core_fault;
use rim_tape::RimFault;
use rim_tape::laws::one_fault as one_rim_fault;
use std::alloc::Global;
use word12::{Cell, Word};

/// Where the program of a core image starts, if frames are one.
pub(crate) fn core_start(alloc: Global, frames: &[u8]) -> Result<Option<Cell>, KindFault>
    ensures { IfOk result (λ start. MatchOption start (IsNoCore frames.now) (IsCore frames.now)) }
{
    let words = words_of(alloc, frames)?;
    match core_image::read(alloc, &words) {
        Ok(image) => Ok(Some(image.start)),
        Err(fault) => no_start(fault),
    }
}

/// What is known of frames that have this fault as a core image: they are none, or memory ran out.
fn no_start(fault: CoreFault) -> Result<Option<Cell>, KindFault>
    ensures { (frames : List ℕ) → core.IsFault (words_of_bytes frames) fault
        → IfOk result (λ start. MatchOption start (IsNoCore frames) (IsCore frames)) }
{
    one_core_fault();
    match fault {
        CoreFault::Memory => Err(KindFault::Memory),
        CoreFault::BadWord { .. } => Ok(None),
        CoreFault::TooShort => Ok(None),
    }
}

/// The words of frames.
fn words_of(alloc: Global, frames: &[u8]) -> Result<Vec<Word>, KindFault>
    ensures { IfOk result (λ words. words.items ≡ words_of_bytes frames.now) }
{
    match pack(alloc, frames) {
        Ok(words) => Ok(words),
        Err(PackFault::Memory) => Err(KindFault::Memory),
    }
}

/// Whether frames are a BIN tape with its check sum, and whatever follows it (PAL III Symbolic Assembler manual). What follows it isn't looked
/// at, nor what follows a frame that is refused.
pub fn is_bin(frames: &[u8]) -> bool
    ensures { IsTrue result ↔ IsSomeTape frames.now }
{
    no_fault();
    longer_tape();
    first_closing();
    let mut reader = TapeReader::new();
    for frame in frames {
        match reader.push(*frame) {
            Err(_) => return false,
            Ok(tape) => match tape {
                Tape::End => return true,
                Tape::Nothing => {}
                Tape::Word(_, _) => {}
            },
        }
    }
    reader.end().is_ok()
}

/// Whether frames are a RIM tape, and whatever follows it (Small Computer Handbook).
pub fn is_rim(alloc: Global, frames: &[u8]) -> bool
    ensures { IsTrue result ↔ IsSomeRim frames.now }
{
    let Err(fault) = rim_tape::read(alloc, frames) else {
        return true;
    };
    is_want_of_memory(fault)
}

/// Whether the fault of frames is want of memory, which is asked for only where they are a RIM tape.
fn is_want_of_memory(fault: RimFault) -> bool
    ensures { (frames : List ℕ) → rim.IsFault frames fault → IsTrue result ↔ IsSomeRim frames }
{
    one_rim_fault();
    match fault {
        RimFault::Memory => true,
        RimFault::BadFrame { .. } => false,
        RimFault::NoTrailer => false,
    }
}
