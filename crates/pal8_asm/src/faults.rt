ghost use Rattle.std.specs.Prelude.{◌≡◌};
ghost use Rattle.pal8_asm.specs.declared.faults.AsmFault.TheVariants as asm;

use pal8_places::Code;
use std::alloc::AllocError;
use thiserror::Error;

/// Where a statement begins, or what else has a fault.
#[derive(Clone, Copy, PartialEq, Eq, Debug)]
pub struct Place {
    /// Its line, 1 and up.
    pub line: u64,
    /// Its first byte in the text, from 0. It is that of its first token, or, of an empty statement, the byte that ends it. Each is 2^64 - 1 where it
    /// would be more.
    pub start: u64,
}

/// What is wrong, and where.
#[derive(Clone, Copy, PartialEq, Eq, Debug)]
pub struct Fault {
    pub code: Code,
    pub place: Place,
}

/// Why a source isn't assembled: a code with the place of its statement, or memory ran out. The place of NE is that of the text's end, and the place
/// of NW that of the `$`.
#[derive(Clone, Copy, PartialEq, Eq, Debug, Error)]
pub enum AsmFault {
    #[error("{code} in line {line}", code = .0, line = .1.line)]
    At(Code, Place),

    #[error("out of memory")]
    Memory,
}

impl From<AllocError> for AsmFault {
    ghost from_gives = { λ _ fault. fault ≡ asm.Memory };

    fn from(_error: AllocError) -> AsmFault {
        AsmFault::Memory
    }
}
