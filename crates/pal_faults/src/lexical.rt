ghost use Rattle.std.specs.Prelude.{◌≡◌};
ghost use Rattle.pal_faults.specs.declared.lexical.LexFault.TheVariants.{Memory};

use std::alloc::AllocError;
use thiserror::Error;

/// Why a source has no further statement, each with the line at which it is found, 1 and up.
#[derive(Clone, Copy, PartialEq, Eq, Debug, Error)]
pub enum LexFault {
    /// A character that stands in no statement.
    #[error("illegal character in line {0}")]
    IC(u64),

    /// A statement of no form that the language has.
    #[error("bad statement in line {0}")]
    SY(u64),

    /// What begins with a digit and is no number of twelve bits by the present radix.
    #[error("bad number in line {0}")]
    NU(u64),

    /// The source ended before its `$`.
    #[error("no $ by line {0}")]
    NE(u64),

    /// Memory ran out.
    #[error("out of memory")]
    Memory,
}

impl From<AllocError> for LexFault {
    ghost from_gives = { λ _ fault. fault ≡ Memory };

    fn from(_error: AllocError) -> LexFault {
        LexFault::Memory
    }
}
