//! Names with their definitions, in the order of the names.

ghost use Rattle.std.specs.Prelude.{◌≡◌, ◌-◌, ◌<◌, IfOk, IfErr, IfSome, vec_len, vec_capacity};
ghost use Rattle.std.specs.Ordering.{nat_cmp};
ghost use Rattle.std.specs.FinMap.{find};
ghost use Rattle.pal_sym.specs.Entries.{Rise};
ghost use Rattle.pal_sym.specs.Steps.{IsAt, IsGapFor, Inserts};
ghost use Rattle.pal_sym.specs.Values.{defined_value};

use crate::SymbolName;
use crate::symbols::Symbol;
use std::alloc::AllocError;
use word12::Word;

/// The place of a name, or that at which it would stand.
pub fn search(entries: &[(SymbolName, Symbol)], name: SymbolName) -> Result<usize, usize>
    requires { Rise entries.now }
    ensures found { IfOk result (IsAt entries.now name) }
    ensures absent { IfErr result (IsGapFor entries.now name) }
{
    entries.binary_search_by_key(&name.number(), |entry| entry.0.number())
}

/// What a name is defined to stand for.
pub fn find(entries: &[(SymbolName, Symbol)], name: SymbolName) -> Option<Word>
    requires { Rise entries.now }
    ensures value { result ≡ defined_value (find nat_cmp name entries.now) }
    ensures range { IfSome result (λ word. word < 0o10000) }
{
    match search(entries, name) {
        Ok(place) => {
            let word = entries[place].1.value;
            let _number = word.get();
            Some(word)
        }
        Err(_) => None,
    }
}

/// Defines a name that isn't there, at the place where it would stand. Memory is taken only where the vector is full.
pub fn insert(
    entries: &mut Vec<(SymbolName, Symbol)>,
    place: usize,
    name: SymbolName,
    symbol: Symbol,
) -> Result<(), AllocError>
    requires rise { Rise entries.old.items }
    requires gap { IsGapFor entries.old.items name place }
    ensures { Inserts name symbol entries.old.items (vec_capacity entries.old - vec_len entries.old)
        entries.new.items (vec_capacity entries.new - vec_len entries.new) result }
{
    entries.reserve(1)?;
    entries.insert(place, (name, symbol))?;
    Ok(())
}
