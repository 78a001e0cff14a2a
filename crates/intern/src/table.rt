//! The rule of the table, and what a seat learns from each kind of step.

ghost use Rattle.std.specs.Prelude.{[], ◌++◌, false, true};
ghost use Rattle.intern.specs.Rule.{Claimed, Filled, Looked};

use atomic_table::{Join, Play, Split, TableRule};
use std::collections::LinkedList;

/// What a seat knows: slots with their words, and whether it is the only seat of the table. No value of this type is made.
pub type Knowledge = (LinkedList<(u64, u64)>, bool);

/// The rule between any two steps. Its key is the number of slots.
pub struct FilledRule;

impl TableRule<(), Knowledge, usize> for FilledRule {
    ghost holds = { Filled };

    ghost first = { λ _. ([], true) };
}

/// A load of a slot.
pub struct Look;

impl Play<(), Knowledge> for Look {
    ghost then = { Looked };
}

/// An exchange of a slot from 0 to a word.
pub struct Claim;

impl Play<(), Knowledge> for Claim {
    ghost then = { Claimed };
}

/// Both halves of a seat know all that it knew, and a joined seat knows what both knew. They no longer count as the only seat.
pub struct Halves;

impl Split<Knowledge> for Halves {
    ghost left = { λ k. (k.0, false) };

    ghost right = { λ k. (k.0, false) };
}

impl Join<Knowledge> for Halves {
    ghost both = { λ k other. (k.0 ++ other.0, false) };

    ghost spent = { ([], false) };
}
