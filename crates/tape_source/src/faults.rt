ghost use Rattle.std.specs.Prelude.{◌≡◌};
ghost use Rattle.tape_source.specs.declared.faults.ListFault.TheVariants.{Memory};

use bin_tape::TapeFault;
use pal_faults::LineRefusal;
use std::alloc::AllocError;
use thiserror::Error;
use word12::Cell;

/// Why frames have no source, numbered from 1 in this order.
#[derive(Clone, Copy, PartialEq, Eq, Debug, Error)]
pub enum ListFault {
    /// The frames are no tape. The tape's fault is not `Memory`.
    #[error("{0}")]
    Tape(TapeFault),

    /// The tape gives no cell a word, and the assembler refuses a source of no word.
    #[error("no word")]
    NoWord,

    /// The tape gives this cell no word, at which a program is to start.
    #[error("no word at the start")]
    NoStart(Cell),

    /// The first line of the names that is refused, counted from 1, and why.
    #[error("line {0} of the names: {1}")]
    Names(u64, LineRefusal),

    /// Memory ran out.
    #[error("out of memory")]
    Memory,
}

impl From<AllocError> for ListFault {
    ghost from_gives = { λ _ fault. fault ≡ Memory };

    fn from(_error: AllocError) -> ListFault {
        ListFault::Memory
    }
}
