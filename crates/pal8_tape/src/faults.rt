ghost use Rattle.std.specs.Prelude.{◌≡◌};
ghost use Rattle.pal8_tape.specs.declared.faults.SourceFault.TheVariants.{Memory};

use crate::JoinFault;
use pal8_places::Code;
use source_places::Place;
use std::alloc::AllocError;
use thiserror::Error;

/// A fault of sources.
#[derive(Clone, Copy, PartialEq, Eq, Debug)]
pub struct Fault {
    /// What is wrong; of UA and DT with the name, and of a word on a pool's cell with the cell.
    pub code: Code,
    /// The line, as it is reported to scripts: 1 and up, or 2^64 - 1 where it would be more. The lines that are read of sources before its own count.
    pub line: u64,
    /// Of IC where the character stands, of UA and DT where the name first stands in the statement; of any other fault where the statement begins.
    pub place: Place,
    /// The byte that stands there.
    pub byte: u8,
}

/// Why sources aren't assembled.
#[derive(Clone, Copy, PartialEq, Eq, Debug, Error)]
pub enum SourceFault {
    /// The first fault of the sources, with its place. Its text leaves the name of its source to the caller.
    #[error("{code} in line {line}, column {column}", code = .0.code, line = .0.place.line, column = .0.place.column)]
    At(Fault),

    #[error("out of memory")]
    Memory,
}

impl From<JoinFault> for SourceFault {
    ghost from_gives = { λ _ fault. fault ≡ Memory };

    fn from(_fault: JoinFault) -> SourceFault {
        SourceFault::Memory
    }
}

impl From<AllocError> for SourceFault {
    ghost from_gives = { λ _ fault. fault ≡ Memory };

    fn from(_error: AllocError) -> SourceFault {
        SourceFault::Memory
    }
}
