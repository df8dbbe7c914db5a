ghost use Rattle.std.specs.Prelude.{◌≡◌};
ghost use Rattle.pal8_grammar.specs.declared.faults.GrammarFault.TheVariants.{Memory};

use std::alloc::AllocError;
use thiserror::Error;

/// Why a statement says nothing, numbered from 1 in this order. The first that applies is answered.
#[derive(Clone, Copy, PartialEq, Eq, Debug, Error)]
pub enum GrammarFault {
    #[error("illegal character")]
    IC,
    #[error("bad number")]
    NU,
    #[error("bad statement")]
    SY,
    #[error("out of memory")]
    Memory,
}

impl From<AllocError> for GrammarFault {
    ghost from_gives = { λ _ fault. fault ≡ Memory };

    fn from(_error: AllocError) -> GrammarFault {
        GrammarFault::Memory
    }
}
