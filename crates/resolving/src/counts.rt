//! How many methods, contracts and structs are before the items of a text.

ghost use Rattle.std.specs.Prelude.{◌≡◌, ◌≤◌, IfOk, length, map};
ghost use Rattle.tree.specs.Trees.{contract_of, definition_tree, item_tree};
ghost use Rattle.program.specs.declared.limits.TheConstants.{MOST_METHODS};
ghost use Rattle.resolving.specs.Callees.{all_methods};
ghost use Rattle.resolving.specs.Counts.{counts, struct_among};

use crate::methods::methods_of;
use std::alloc::{AllocError, Global};
use tree::{Definition, Item};

/// The numbers of methods, contracts and structs before an item in the text.
#[derive(Clone, Copy)]
pub(crate) struct ItemsBefore {
    pub(crate) methods: usize,
    pub(crate) contracts: usize,
    pub(crate) structs: usize,
}

/// Returns these numbers for each of these items.
pub(crate) fn count_items(alloc: Global, items: &[Item]) -> Result<Vec<ItemsBefore>, AllocError>
    requires few { length (all_methods (map item_tree items.now)) ≤ MOST_METHODS }
    ensures { IfOk result (λ before. before.items ≡ counts (map item_tree items.now)) }
{
    let mut before = Vec::new(alloc);
    let mut so_far = ItemsBefore {
        methods: 0,
        contracts: 0,
        structs: 0,
    };
    for item in items {
        before.push(so_far)?;
        so_far.methods += methods_of(&item.definition).len();
        so_far.contracts += contracts_in(&item.definition);
        so_far.structs += structs_in(&item.definition);
    }
    Ok(before)
}

/// Returns 1 if it is a contract, else 0.
fn contracts_in(definition: &Definition) -> usize
    ensures { result ≡ length (contract_of (definition_tree definition.now)) }
{
    match definition {
        Definition::Contract(_) => 1,
        Definition::Struct(_) => 0,
        Definition::Class(_) => 0,
    }
}

/// Returns 1 if it is a struct, else 0.
fn structs_in(definition: &Definition) -> usize
    ensures { result ≡ length (struct_among (definition_tree definition.now)) }
{
    match definition {
        Definition::Contract(_) => 0,
        Definition::Struct(_) => 1,
        Definition::Class(_) => 0,
    }
}
