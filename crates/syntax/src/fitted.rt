//! Lists that take no more memory than their items.

ghost use Rattle.std.specs.Prelude.{◌≡◌, ◌++◌, ◌∷◌, [], OnOk};

use std::alloc::AllocError;

/// Appends an item. The first one gets room for itself only, since most lists of a tree have no second.
pub(crate) fn push<T: Drop>(all: &mut Vec<T>, item: T) -> Result<(), AllocError>
    ensures { OnOk result (all.new.items ≡ all.old.items ++ item ∷ []) }
{
    if all.is_empty() {
        all.reserve_exact(1)?;
    }
    all.push(item)?;
    Ok(())
}

/// Returns the list without room for more items. A list makes room for four with its second item, and most have one
/// or two.
pub(crate) fn shrink<T>(mut all: Vec<T>) -> Vec<T>
    ensures { result.items ≡ all.items }
{
    all.shrink_to_fit();
    all
}
