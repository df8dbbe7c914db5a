ghost use Rattle.std.specs.Prelude.{◌≡◌, false, IfErr, OnOk};
ghost use Rattle.host_sources.specs.Steps.{is_memory};
ghost use Rattle.host_sources.specs.declared.faults.SourceFault.TheVariants.{Memory};

use pal_asm::Code;
use pal_lex::LexFault;
use source_places::{About, Place};
use std::alloc::AllocError;
use thiserror::Error;

/// A fault of sources.
#[derive(Clone, Copy, PartialEq, Eq, Debug)]
pub struct Fault {
    pub code: Code,
    /// The line in the joined sources, as it is printed for scripts: 1 and up, or 2^64 - 1 where it would be more.
    pub line: u64,
    /// For IC it is where the character stands, for NU where the first bad number of the statement begins. For UA it is where the name
    /// first stands in the statement, and for any other fault where the statement begins.
    pub place: Place,
    /// For UA it is the first name of the statement, from the left, that stands for nothing where the statement is judged. For IC it is the
    /// first byte of the statement that is no character of PAL III, and for any other fault it is nothing.
    pub about: About,
}

/// Why sources are not assembled.
#[derive(Clone, Copy, PartialEq, Eq, Debug, Error)]
pub enum SourceFault {
    /// The first fault of the sources, with its place. That is at the `$` where there is no word, and after the last
    /// source where there is no `$`. The text doesn't name the source: the caller knows its name.
    #[error("{code} in line {line}, column {column}", code = .0.code, line = .0.place.line, column = .0.place.column)]
    At(Fault),

    #[error("out of memory")]
    Memory,
}

impl From<AllocError> for SourceFault {
    ghost from_gives = { λ _ fault. fault ≡ Memory };

    fn from(_error: AllocError) -> SourceFault {
        SourceFault::Memory
    }
}

/// Answers that memory ran out, if a fault of the lexer is that.
pub(crate) fn unless_memory(fault: LexFault) -> Result<(), SourceFault>
    ensures other { OnOk result (is_memory fault ≡ false) }
    ensures fault { IfErr result (λ fault. fault ≡ Memory) }
{
    match fault {
        LexFault::Memory => Err(SourceFault::Memory),
        LexFault::IC(_) | LexFault::SY(_) | LexFault::NU(_) | LexFault::NE(_) => Ok(()),
    }
}
