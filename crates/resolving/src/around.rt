//! The surroundings of a statement.

ghost use Rattle.std.specs.Prelude.{◌≡◌, ◌≤◌, ◌<◌, ◌^◌, length, map};
ghost use Rattle.tree.specs.Trees.{item_tree};
ghost use Rattle.program.specs.declared.limits.TheConstants.{MOST_METHODS};
ghost use Rattle.resolving.specs.Callees.{all_methods};
ghost use Rattle.resolving.specs.Counts.{counts};

use crate::counts::ItemsBefore;
use declarations::Scope;
use program::Resolved;
use std::alloc::Global;
use tree::Item;

/// What types are looked up in: the names of the program, its resolved contracts, and how many methods, contracts and
/// structs are before each item in the text. Contracts are few enough that their numbers fit into 32 bits.
#[derive(Clone, Copy)]
pub(crate) struct Directory<'s, 'a> {
    pub(crate) scope: &'s Scope<'a>,
    pub(crate) resolved: &'s Resolved,
    pub(crate) before: &'s [ItemsBefore],
    ghost room: { length resolved.now.contracts.items < 2 ^ 32 },
}

/// The items of the program, the directory of its types, the indices of the owning fields of each item, and the index
/// of the class around the statement. Methods are few enough that their numbers fit. Lists are allocated with `alloc`.
#[derive(Clone, Copy)]
pub(crate) struct Around<'s, 'a> {
    pub(crate) alloc: Global,
    pub(crate) directory: Directory<'s, 'a>,
    pub(crate) items: &'a [Item],
    pub(crate) owning: &'s [Vec<usize>],
    pub(crate) class: usize,
    ghost counted: { directory.before.now ≡ counts (map item_tree items.now) },
    ghost few: { length (all_methods (map item_tree items.now)) ≤ MOST_METHODS },
}
