ghost use Rattle.std.specs.Prelude.{◌≡◌};
ghost use Rattle.pal8_places.specs.Passing.{stop_of};
ghost use Rattle.pal8_places.specs.declared.faults.Stop.TheVariants.{Memory};

use pal8_grammar::GrammarFault;
use std::alloc::AllocError;
use thiserror::Error;
use word12::Cell;

/// What is wrong with a statement or a source.
#[derive(Clone, Copy, PartialEq, Eq, Debug, Error)]
pub enum Code {
    #[error("illegal character")]
    IC,
    #[error("bad statement")]
    SY,
    #[error("bad number")]
    NU,
    /// A name that no statement defines. Where a place or a name rests on it, no statement before defines it. It is the first such name of its
    /// statement, by the number that its six sixbit codes make.
    #[error("undefined name")]
    UA(u64),
    /// A tag whose name is permanent or defined with another value: the first such name of its statement, by the number that its six sixbit codes make.
    #[error("duplicate tag")]
    DT(u64),
    /// A name that `=` defines, and that is permanent or a tag with another value.
    #[error("redefinition")]
    RD,
    /// A memory reference in a definition to an address that is neither on page zero nor on its own page.
    #[error("illegal reference")]
    IR,
    /// An indirect memory reference to such an address.
    #[error("illegal indirect")]
    II,
    /// A field above 7.
    #[error("bad field")]
    FD,
    /// A page above 37.
    #[error("page above 37")]
    PG,
    /// A word, a tag or `.` at a place past 7777.
    #[error("past 7777")]
    PF,
    #[error("division by zero")]
    DZ,
    /// A page with no cell left for a literal or a link.
    #[error("page exceeded")]
    PE,
    /// Such a page zero.
    #[error("page zero exceeded")]
    ZE,
    /// A literal of the own page, or a link, where `RELOC` shifts by no whole pages.
    #[error("RELOC by no whole page")]
    RL,
    /// A word on a cell of a page's pool: the lowest one. Its letters are PE.
    #[error("page exceeded")]
    PageClash(Cell),
    /// A word on a cell of a page zero's pool. Its letters are ZE.
    #[error("page zero exceeded")]
    ZeroClash(Cell),
    /// `<` or `>` without the other.
    #[error("unmatched bracket")]
    PH,
    #[error("no $")]
    NE,
    #[error("no word")]
    NW,
}

/// Why a statement isn't taken: a code; or memory ran out.
#[derive(Clone, Copy, PartialEq, Eq, Debug, Error)]
pub enum Stop {
    #[error("{0}")]
    At(Code),

    #[error("out of memory")]
    Memory,
}

impl From<AllocError> for Stop {
    ghost from_gives = { λ _ fault. fault ≡ Memory };

    fn from(_error: AllocError) -> Stop {
        Stop::Memory
    }
}

impl From<GrammarFault> for Stop {
    ghost from_gives = { λ fault stop. stop ≡ stop_of fault };

    fn from(fault: GrammarFault) -> Stop {
        match fault {
            GrammarFault::IC => Stop::At(Code::IC),
            GrammarFault::NU => Stop::At(Code::NU),
            GrammarFault::SY => Stop::At(Code::SY),
            GrammarFault::Memory => Stop::Memory,
        }
    }
}
