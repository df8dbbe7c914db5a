ghost use Rattle.std.specs.Prelude.{◌≡◌};
ghost use Rattle.tape_source.specs.declared.faults.ListFault.TheVariants as list;
ghost use Rattle.pal8_source.specs.declared.faults.Pal8Fault.TheVariants.{List};

use std::alloc::AllocError;
use tape_source::ListFault;
use thiserror::Error;
use word12::Cell;

/// Why frames have no PAL8 source.
#[derive(Clone, Copy, PartialEq, Eq, Debug, Error)]
pub enum Pal8Fault {
    /// They have no PAL III source, either.
    #[error("{0}")]
    List(ListFault),

    /// The name of this cell, the lowest of such, is a word of PAL8.
    #[error("a name that PAL8 reserves")]
    Reserved(Cell),
}

impl From<ListFault> for Pal8Fault {
    ghost from_gives = { λ list fault. fault ≡ List list };

    fn from(fault: ListFault) -> Pal8Fault {
        Pal8Fault::List(fault)
    }
}

impl From<AllocError> for Pal8Fault {
    ghost from_gives = { λ _ fault. fault ≡ List list.Memory };

    fn from(_error: AllocError) -> Pal8Fault {
        Pal8Fault::List(ListFault::Memory)
    }
}
