ghost use Rattle.std.specs.Prelude.{◌≡◌};
ghost use Rattle.pal_faults.specs.Faults.{lexical};
ghost use Rattle.pal_faults.specs.declared.assembling.AsmFault.TheVariants.{Memory};

use crate::LexFault;
use std::alloc::AllocError;
use thiserror::Error;

/// What is wrong with a statement or a source.
#[derive(Clone, Copy, PartialEq, Eq, Debug, Error)]
pub enum Code {
    #[error("illegal character")]
    IC,
    #[error("bad statement")]
    SY,
    #[error("bad number")]
    NU,
    /// A name that no statement defines, or, in an origin, `FIELD` or `=`, none before it.
    #[error("undefined name")]
    UA,
    /// A tag whose name is permanent or defined with another value.
    #[error("duplicate tag")]
    DT,
    /// A name that `=` defines, and that is permanent or a tag with another value.
    #[error("redefinition")]
    RD,
    /// A memory reference to an address that is neither on page zero nor on its own page.
    #[error("illegal reference")]
    IR,
    /// A field above 7.
    #[error("bad field")]
    FD,
    /// A word, a tag or `.` at a place past 7777.
    #[error("past 7777")]
    PF,
    #[error("no $")]
    NE,
    #[error("no word")]
    NW,
}

/// Why a source is not assembled: a code with the line at which it is found, 1 and up; or memory ran out.
#[derive(Clone, Copy, PartialEq, Eq, Debug, Error)]
pub enum AsmFault {
    #[error("{0} in line {1}")]
    At(Code, u64),

    #[error("out of memory")]
    Memory,
}

impl From<AllocError> for AsmFault {
    ghost from_gives = { λ _ fault. fault ≡ Memory };

    fn from(_error: AllocError) -> AsmFault {
        AsmFault::Memory
    }
}

impl From<LexFault> for AsmFault {
    ghost from_gives = { λ fault result. result ≡ lexical fault };

    fn from(fault: LexFault) -> AsmFault {
        match fault {
            LexFault::IC(line) => AsmFault::At(Code::IC, line),
            LexFault::SY(line) => AsmFault::At(Code::SY, line),
            LexFault::NU(line) => AsmFault::At(Code::NU, line),
            LexFault::NE(line) => AsmFault::At(Code::NE, line),
            LexFault::Memory => AsmFault::Memory,
        }
    }
}
