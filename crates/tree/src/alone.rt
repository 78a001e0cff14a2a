//! Expressions that are just an atom or just a name.

ghost use Rattle.std.specs.Prelude.{◌≡◌, option_map};
ghost use Rattle.tree.specs.Alone.{lone_atom, atom_name, lone_name};
ghost use Rattle.tree.specs.Expressions as trees;
ghost use Rattle.tree.specs.ExpressionTrees.{expression_tree, disjunction_tree, conjunction_tree, equality_tree, relation_tree};
ghost use Rattle.tree.specs.ExpressionTrees.{sum_tree, unary_tree, prefixed_tree, atom_tree, target_tree};

use crate::expression::{
    Atom, Conjunction, Disjunction, Equality, Expression, Prefixed, Relation, Sum, Target, Unary,
};
use source::Span;

/// Returns the name if an expression is just a name.
pub fn name_alone(expression: &Expression) -> Option<Span>
    ensures { result ≡ lone_name (expression_tree expression.now) }
{
    let atom = atom_alone(expression)?;
    name_of(atom)
}

/// Returns the name if an atom is just a name.
fn name_of(atom: &Atom) -> Option<Span>
    ensures { result ≡ atom_name (atom_tree atom.now) }
{
    match atom {
        Atom::Target(target) => name_of_target(target),
        Atom::Number(_) => None,
        Atom::True(_) => None,
        Atom::False(_) => None,
        Atom::Parens { .. } => None,
    }
}

fn name_of_target(target: &Target) -> Option<Span>
    ensures { result ≡ atom_name (trees.Target (target_tree target.now)) }
{
    match target {
        Target::Variable(name) => Some(*name),
        Target::Field(_) => None,
        Target::Element(_) => None,
    }
}

/// Returns the atom if an expression is just an atom.
pub fn atom_alone(expression: &Expression) -> Option<&Atom>
    ensures { option_map (λ a. atom_tree a.now) result ≡ lone_atom (expression_tree expression.now) }
{
    match expression {
        Expression::Sum(sum) => in_sum(sum),
        Expression::Joined(joined) => in_disjunction(joined),
    }
}

/// Returns the atom if a disjunction is just an atom.
fn in_disjunction(disjunction: &Disjunction) -> Option<&Atom>
    ensures { option_map (λ a. atom_tree a.now) result ≡ lone_atom (disjunction_tree disjunction.now) }
{
    if !disjunction.others.is_empty() {
        return None;
    }
    in_conjunction(&disjunction.first)
}

/// Returns the atom if a conjunction is just an atom.
fn in_conjunction(conjunction: &Conjunction) -> Option<&Atom>
    ensures { option_map (λ a. atom_tree a.now) result ≡ lone_atom (conjunction_tree conjunction.now) }
{
    if !conjunction.others.is_empty() {
        return None;
    }
    in_equality(&conjunction.first)
}

/// Returns the atom if an equality is just an atom.
fn in_equality(equality: &Equality) -> Option<&Atom>
    ensures { option_map (λ a. atom_tree a.now) result ≡ lone_atom (equality_tree equality.now) }
{
    if !equality.others.is_empty() {
        return None;
    }
    in_relation(&equality.first)
}

/// Returns the atom if a relation is just an atom.
fn in_relation(relation: &Relation) -> Option<&Atom>
    ensures { option_map (λ a. atom_tree a.now) result ≡ lone_atom (relation_tree relation.now) }
{
    if !relation.others.is_empty() {
        return None;
    }
    in_sum(&relation.first)
}

/// Returns the atom if a sum is just an atom.
fn in_sum(sum: &Sum) -> Option<&Atom>
    ensures { option_map (λ a. atom_tree a.now) result ≡ lone_atom (sum_tree sum.now) }
{
    match sum {
        Sum::Unary(unary) => in_unary(unary),
        Sum::Factors(_) => None,
    }
}

/// Returns the atom if a unary is just an atom.
fn in_unary(unary: &Unary) -> Option<&Atom>
    ensures { option_map (λ a. atom_tree a.now) result ≡ lone_atom (unary_tree unary.now) }
{
    match unary {
        Unary::Atom(atom) => Some(atom),
        Unary::Prefixed(prefixed) => in_prefixed(prefixed),
    }
}

/// Returns the atom if it has no prefixes.
fn in_prefixed(prefixed: &Prefixed) -> Option<&Atom>
    ensures { option_map (λ a. atom_tree a.now) result ≡ lone_atom (prefixed_tree prefixed.now) }
{
    if !prefixed.prefixes.is_empty() {
        return None;
    }
    Some(&prefixed.atom)
}
