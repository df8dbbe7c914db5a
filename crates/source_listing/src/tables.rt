//! The symbol table of a listing.
ghost use Rattle.std.specs.Prelude.{◌≡◌, ◌++◌, is_some, OnOk};
ghost use Rattle.pal_sym.specs.Permanent.{permanent};
ghost use Rattle.source_listing.specs.Symbols.{symbol_text, entry_text, table_text};

use pal_sym::{SymbolName, Symbols};
use source_places::name_text;
use std::alloc::AllocError;
use std::collections::BTreeMap;
use word12::Word;

/// Puts the symbols but for the permanent ones, each on a line, in the order of their names.
pub(crate) fn put_table(text: &mut Vec<u8>, symbols: &BTreeMap<u64, u16>) -> Result<(), AllocError>
    ensures { OnOk result (text.new.items ≡ text.old.items ++ table_text symbols.now.entries) }
{
    for (name, value) in symbols {
        put_entry(text, *name, *value)?;
    }
    Ok(())
}

/// Puts a symbol on a line, if it is no permanent one.
fn put_entry(text: &mut Vec<u8>, name: u64, value: u16) -> Result<(), AllocError>
    ensures { OnOk result (text.new.items ≡ text.old.items ++ entry_text (name, value)) }
{
    if is_permanent(name) {
        return Ok(());
    }
    put_symbol(text, name, value)?;
    text.extend_from_slice(b"\n")?;
    Ok(())
}

/// Whether a name is a permanent symbol.
pub(crate) fn is_permanent(name: u64) -> bool
    ensures { result ≡ is_some (permanent name) }
{
    Symbols::permanent(SymbolName::from_number(name)).is_some()
}

/// Puts a name, by the number that its six sixbit codes make, with its value in four octal digits.
pub fn put_symbol(text: &mut Vec<u8>, name: u64, value: u16) -> Result<(), AllocError>
    ensures { OnOk result (text.new.items ≡ text.old.items ++ symbol_text (name, value)) }
{
    text.extend_from_slice(&name_text(name))?;
    text.extend_from_slice(b"  ")?;
    text.extend_from_slice(&Word::low(value).octal4())?;
    Ok(())
}
