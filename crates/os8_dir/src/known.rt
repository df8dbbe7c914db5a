ghost use Rattle.std.specs.Prelude.{◌≡◌, ℕ, ◌||◌, IfOk, OnErr};
ghost use Rattle.os8_dir.specs.Steps.{has_key, is_new_to, is_named};

use crate::DirEntry;
use std::alloc::AllocError;
use std::collections::BTreeSet;

/// Adds the name of a file that has blocks to those known, and says whether it is new.
pub fn add_name(names: &mut BTreeSet<u64>, entry: &DirEntry) -> Result<bool, AllocError>
    ensures new { IfOk result (λ new. new ≡ is_new_to (has_key names.old) entry.now) }
    ensures names { IfOk result (λ new. (q : ℕ) → has_key names.new q
        ≡ (has_key names.old q || is_named q entry.now)) }
    ensures kept { OnErr result ((q : ℕ) → has_key names.new q ≡ has_key names.old q) }
{
    match entry {
        DirEntry::File { name, length, .. } => {
            if *length == 0 {
                return Ok(true);
            }
            let new = names.insert(name.number())?;
            Ok(new)
        }
        DirEntry::Empty { .. } => Ok(true),
    }
}
