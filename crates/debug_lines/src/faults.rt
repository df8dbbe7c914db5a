ghost use Rattle.std.specs.Prelude.{◌≡◌};
ghost use Rattle.debug_lines.specs.Columns.{column_of};
ghost use Rattle.debug_lines.specs.declared.faults.LineFault.TheVariants.{Refused, Memory};

use std::alloc::AllocError;
use thiserror::Error;

/// Why a line is refused.
#[derive(Clone, Copy, PartialEq, Eq, Debug, Error)]
pub enum Refused {
    /// No command begins so.
    #[error("no command begins so")]
    UnknownCommand,

    /// Two or more commands begin so.
    #[error("more than one command begins so")]
    NotPlain,

    /// A word is wanted.
    #[error("a word is missing")]
    MissingWord,

    /// The word is no octal number.
    #[error("this is no octal number")]
    NotOctal,

    /// The word is no decimal number.
    #[error("this is no decimal number")]
    NotDecimal,

    /// The number is too large.
    #[error("the number is too large")]
    TooLarge,

    /// The word is no name, or none of those that may stand here.
    #[error("this is no name that may stand here")]
    NotName,

    /// The word is no comparison.
    #[error("this is no comparison")]
    NotComparison,

    /// The word is no quoted text.
    #[error("this is no text in quotes")]
    NotQuoted,

    /// A quote is not closed.
    #[error("the quote is not closed")]
    UnclosedQuote,

    /// A word is left over.
    #[error("the command has a word too many")]
    LeftOver,
}

/// Why a line is refused, and how many of its bytes stand before the place.
#[derive(Clone, Copy, PartialEq, Eq, Debug, Error)]
#[error("{why}")]
pub struct Refusal {
    pub why: Refused,
    pub place: usize,
}

impl Refusal {
    /// The column of the place in a line, of which the first is 1, and the last is after its end.
    pub fn column(self, line: &[u8]) -> usize
        ensures { result ≡ column_of line.now self }
    {
        self.place.min(line.len()) + 1
    }
}

/// Why a line is not read.
#[derive(Clone, Copy, PartialEq, Eq, Debug, Error)]
pub enum LineFault {
    /// The line is refused.
    #[error("{0}")]
    Refused(Refusal),

    /// Memory ran out.
    #[error("out of memory")]
    Memory,
}

impl From<Refusal> for LineFault {
    ghost from_gives = { λ refusal fault. fault ≡ Refused refusal };

    fn from(refusal: Refusal) -> LineFault {
        LineFault::Refused(refusal)
    }
}

impl From<AllocError> for LineFault {
    ghost from_gives = { λ error fault. fault ≡ Memory };

    fn from(_error: AllocError) -> LineFault {
        LineFault::Memory
    }
}
