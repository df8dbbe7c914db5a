//! Whether words and their frames are a program.
ghost use Rattle.std.specs.Prelude.{◌↔◌, ℕ, List, IsTrue};
ghost use Rattle.core_image.specs.Fault as core;
ghost use Rattle.core_image.specs.Fault.{IsSomeImage};
ghost use Rattle.block_scan.specs.Programs.{IsProgram};

use core_image::CoreFault;
use core_image::laws::one_fault as one_core_fault;
use file_kind::{is_bin, is_rim};
use std::alloc::Global;
use word12::Word;

/// What a program is kept as.
#[derive(Clone, Copy, PartialEq, Eq, Debug)]
pub enum ProgramKind {
    /// A core image.
    Core,

    /// A BIN tape.
    Bin,

    /// A RIM tape.
    Rim,
}

/// Whether words, of which these are the frames, are a program of a kind.
pub(crate) fn is_program(alloc: Global, kind: ProgramKind, words: &[Word], frames: &[u8]) -> bool
    ensures { IsTrue result ↔ IsProgram kind words.now frames.now }
{
    match kind {
        ProgramKind::Core => is_core(alloc, words),
        ProgramKind::Bin => is_bin(frames),
        ProgramKind::Rim => is_rim(alloc, frames),
    }
}

/// Whether words are a core image.
fn is_core(alloc: Global, words: &[Word]) -> bool
    ensures { IsTrue result ↔ IsSomeImage words.now }
{
    let Err(fault) = core_image::read(alloc, words) else {
        return true;
    };
    is_image_without_room(fault)
}

/// Whether the fault of words is `Memory`; memory is asked for only where they are a core image.
fn is_image_without_room(fault: CoreFault) -> bool
    ensures { (words : List ℕ) → core.IsFault words fault → IsTrue result ↔ IsSomeImage words }
{
    one_core_fault();
    match fault {
        CoreFault::Memory => true,
        CoreFault::BadWord { .. } => false,
        CoreFault::TooShort => false,
    }
}
