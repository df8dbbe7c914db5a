//! The mentions of one name.
ghost use Rattle.std.specs.Prelude.{◌≡◌, ℕ, List, filter, OnOk};
ghost use Rattle.pal8_listing.specs.Steps.{AreByName};
ghost use Rattle.pal8_listing.specs.declared.mentions.Mention as mention;
ghost use Rattle.pal8_listing.specs.Uses.{is_of};

use crate::mentions::Mention;
use source_listing::split;
use std::alloc::AllocError;

/// Puts mentions in the order of their names, those of one name in the order that they have.
pub(crate) fn sort(found: &mut Vec<Mention>) -> Result<(), AllocError>
    ensures { OnOk result (AreByName found.old.items found.new.items) }
{
    found.sort_by_key(|mention| mention.name)?;
    Ok(())
}

/// The mentions of a name among those that stand by their names.
pub(crate) fn uses_of(found: &[Mention], name: u64) -> &[Mention]
    ensures { (whole : List mention.Mention) → AreByName whole found.now → result.now ≡ filter (is_of name) whole }
{
    let first = found.partition_point(|mention| mention.name < name);
    let rest = split(found, first).1;
    let count = rest.partition_point(|mention| mention.name == name);
    split(rest, count).0
}
