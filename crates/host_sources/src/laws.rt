//! Laws about texts, names and further faults, which hold whatever reports them. A call of one does nothing, and lets its caller use it.

ghost use Rattle.host_sources.specs.Laws.{FineByBytes, FineTermsHaveValue, SymbolsHaveLastValues, FirstIsTold};

use pal_asm::laws::{no_fault_before, statements_stay};

/// A text grows by its bytes, and has no fault that the first pass meets up to any of them, where it has none.
pub fn fine_by_bytes()
    ensures { FineByBytes }
{
    statements_stay();
    no_fault_before();
}

/// An expression whose terms have no fault has a value.
pub fn fine_terms_have_value()
    ensures { FineTermsHaveValue }
{}

/// The symbols of sources have the values that names stand for after all statements.
pub fn symbols_have_last_values()
    ensures { SymbolsHaveLastValues }
{}

/// The first of the words with a fault is the fault that is reported, so the further ones are those after it.
pub fn first_is_told()
    ensures { FirstIsTold }
{}
