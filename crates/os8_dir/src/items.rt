ghost use Rattle.std.specs.Prelude.{◌≡◌, [], ◌∷◌, ◌++◌, ◌-◌, take, vec_len, OnOk};

use std::alloc::AllocError;

/// Adds an item at the end.
pub fn push_item<T: Drop>(items: &mut Vec<T>, item: T) -> Result<(), AllocError>
    ensures { OnOk result (items.new.items ≡ items.old.items ++ item ∷ []) }
{
    items.push(item)?;
    Ok(())
}

/// Takes out the last item.
pub fn drop_last<T: Drop>(items: &mut Vec<T>)
    ensures { items.new.items ≡ take (vec_len items.old - 1) items.old.items }
{
    let _ = items.pop();
}

/// Takes out all items.
pub fn clear_items<T: Drop>(items: &mut Vec<T>)
    ensures { items.new.items ≡ [] }
{
    items.clear();
}
