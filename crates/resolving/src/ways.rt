//! Which ways a condition can go.

ghost use Rattle.std.specs.Prelude.{◌≡◌, Some};
ghost use Rattle.tree.specs.ExpressionTrees.{expression_tree, atom_tree};
ghost use Rattle.resolving.specs.Reads.{atom_ways, ways};

use program::Ways;
use tree::{Atom, Expression, atom_alone};

/// Returns which ways a condition can go: only one if it is just `true` or just `false`.
pub(crate) fn ways_of(condition: &Expression) -> Ways
    ensures { result ≡ ways (expression_tree condition.now) }
{
    match atom_alone(condition) {
        Some(atom) => ways_of_atom(atom),
        None => Ways::Either,
    }
}

/// Returns which ways a condition that is just this atom can go.
fn ways_of_atom(atom: &Atom) -> Ways
    ensures { result ≡ atom_ways (Some (atom_tree atom.now)) }
{
    match atom {
        Atom::True(_) => Ways::Body,
        Atom::False(_) => Ways::Past,
        Atom::Number(_) => Ways::Either,
        Atom::Target(_) => Ways::Either,
        Atom::Parens { .. } => Ways::Either,
    }
}
