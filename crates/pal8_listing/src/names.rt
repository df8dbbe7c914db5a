//! What stands after the lines of a listing.
ghost use Rattle.std.specs.Prelude.{◌≡◌, ◌++◌, ◌∷◌, [], OnOk};
ghost use Rattle.pal8_listing.specs.Texts.{names_text, pool_text};

use source_listing::{put_below, put_symbol};
use std::alloc::AllocError;
use std::collections::BTreeMap;
use word12::{Cell, Word};

/// Puts names, each on a line with its value, in the order of their numbers.
pub(crate) fn put_names(text: &mut Vec<u8>, names: &BTreeMap<u64, Word>) -> Result<(), AllocError>
    ensures { OnOk result (text.new.items ≡ text.old.items ++ names_text names.now.entries) }
{
    for (name, value) in names {
        put_name(text, *name, *value)?;
    }
    Ok(())
}

/// Puts a name on a line with its value.
fn put_name(text: &mut Vec<u8>, name: u64, value: Word) -> Result<(), AllocError>
    ensures { OnOk result (text.new.items ≡ text.old.items ++ names_text ((name, value) ∷ [])) }
{
    put_symbol(text, name, value.get())?;
    text.extend_from_slice(b"\n")?;
    Ok(())
}

/// Puts the cells of pools with their values after an empty line, if there are any.
pub(crate) fn put_pool(text: &mut Vec<u8>, pool: &[(Cell, Word)]) -> Result<(), AllocError>
    ensures { OnOk result (text.new.items ≡ text.old.items ++ pool_text pool.now) }
{
    match pool {
        [] => Ok(()),
        [_, ..] => {
            text.extend_from_slice(b"\n")?;
            put_below(text, pool)
        }
    }
}
