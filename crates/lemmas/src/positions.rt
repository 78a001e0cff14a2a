//! The positions of keys in a list.

ghost use Rattle.std.specs.Prelude.{◌≡◌, IfOk, OnOk, Some, cond};
ghost use Rattle.std.specs.BTreeMap.{get};
ghost use Rattle.std.specs.Option.{unwrap_or};
ghost use Rattle.std.specs.Ordering.{eq_by_cmp};
ghost use Rattle.lemmas.specs.Places.{first_position};

use std::alloc::{AllocError, Global};
use std::collections::BTreeMap;

/// Returns the first position of each key of the list.
pub fn first_positions<K: Ord + Copy>(
    alloc: Global,
    keys: &[K],
) -> Result<BTreeMap<K, usize>, AllocError>
    ensures { IfOk result (λ m. (k : K) → get K.cmp m k ≡ first_position K.cmp keys.now k) }
{
    let mut positions = BTreeMap::new(alloc);
    for (i, key) in keys.iter().enumerate() {
        enter(&mut positions, *key, i)?;
    }
    Ok(positions)
}

/// Enters a key with this index, unless it already has one.
fn enter<K: Ord + Copy>(
    positions: &mut BTreeMap<K, usize>,
    key: K,
    index: usize,
) -> Result<(), AllocError>
    ensures { OnOk result ((k : K) → get K.cmp positions.new k
        ≡ cond (eq_by_cmp K.cmp key k) (Some (unwrap_or (get K.cmp positions.old key) index)) (get K.cmp positions.old k)) }
{
    positions.entry(key)?.or_insert(index);
    Ok(())
}
