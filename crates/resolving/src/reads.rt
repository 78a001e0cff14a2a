//! The blocks that an expression reads, in order of the text.

ghost use Rattle.std.specs.Prelude.{OnOk};
ghost use Rattle.tree.specs.ExpressionTrees.{expression_tree, disjunction_tree, conjunction_tree, equality_tree, relation_tree};
ghost use Rattle.tree.specs.ExpressionTrees.{sum_tree, factors_tree, unary_tree, prefixed_tree, atom_tree, target_tree};
ghost use Rattle.resolving.specs.Locals.{mention};
ghost use Rattle.resolving.specs.Reads.{reads, atom_reads, target_reads, mention_list};
ghost use Rattle.resolving.specs.Steps.{AddsReads};

use crate::locals::Locals;
use program::Mention;
use source::Span;
use std::alloc::AllocError;
use tree::{
    Atom, Conjunction, Disjunction, Equality, Expression, Factors, Prefixed, Relation, Sum, Target,
    Unary,
};

/// Adds what an expression reads.
#[cycle(expressions)]
pub(crate) fn add_reads(
    text: &[u8],
    locals: &Locals<'_>,
    expression: &Expression,
    found: &mut Vec<Mention>,
) -> Result<(), AllocError>
    ensures { OnOk result (AddsReads text.now locals.now
        (λ f. reads text.now f.locals (expression_tree expression.now)) found.old.items found.new.items) }
{
    match expression {
        Expression::Sum(sum) => add_sum(text, locals, sum, found),
        Expression::Joined(joined) => add_disjunction(text, locals, joined, found),
    }
}

/// Adds what a disjunction reads.
#[cycle(expressions)]
fn add_disjunction(
    text: &[u8],
    locals: &Locals<'_>,
    disjunction: &Disjunction,
    found: &mut Vec<Mention>,
) -> Result<(), AllocError>
    ensures { OnOk result (AddsReads text.now locals.now
        (λ f. reads text.now f.locals (disjunction_tree disjunction.now)) found.old.items found.new.items) }
{
    add_conjunction(text, locals, &disjunction.first, found)?;
    'each: for conjunction in &disjunction.others {
        add_conjunction(text, locals, conjunction, found)?;
    }
    Ok(())
}

/// Adds what a conjunction reads.
#[cycle(expressions)]
fn add_conjunction(
    text: &[u8],
    locals: &Locals<'_>,
    conjunction: &Conjunction,
    found: &mut Vec<Mention>,
) -> Result<(), AllocError>
    ensures { OnOk result (AddsReads text.now locals.now
        (λ f. reads text.now f.locals (conjunction_tree conjunction.now)) found.old.items found.new.items) }
{
    add_equality(text, locals, &conjunction.first, found)?;
    'each: for equality in &conjunction.others {
        add_equality(text, locals, equality, found)?;
    }
    Ok(())
}

/// Adds what an equality reads.
#[cycle(expressions)]
fn add_equality(
    text: &[u8],
    locals: &Locals<'_>,
    equality: &Equality,
    found: &mut Vec<Mention>,
) -> Result<(), AllocError>
    ensures { OnOk result (AddsReads text.now locals.now
        (λ f. reads text.now f.locals (equality_tree equality.now)) found.old.items found.new.items) }
{
    add_relation(text, locals, &equality.first, found)?;
    'each: for step in &equality.others {
        add_relation(text, locals, &step.relation, found)?;
    }
    Ok(())
}

/// Adds what a relation reads.
#[cycle(expressions)]
fn add_relation(
    text: &[u8],
    locals: &Locals<'_>,
    relation: &Relation,
    found: &mut Vec<Mention>,
) -> Result<(), AllocError>
    ensures { OnOk result (AddsReads text.now locals.now
        (λ f. reads text.now f.locals (relation_tree relation.now)) found.old.items found.new.items) }
{
    add_sum(text, locals, &relation.first, found)?;
    'each: for step in &relation.others {
        add_sum(text, locals, &step.sum, found)?;
    }
    Ok(())
}

/// Adds what a sum reads.
#[cycle(expressions)]
fn add_sum(
    text: &[u8],
    locals: &Locals<'_>,
    sum: &Sum,
    found: &mut Vec<Mention>,
) -> Result<(), AllocError>
    ensures { OnOk result (AddsReads text.now locals.now
        (λ f. reads text.now f.locals (sum_tree sum.now)) found.old.items found.new.items) }
{
    match sum {
        Sum::Unary(unary) => add_unary(text, locals, unary, found),
        Sum::Factors(factors) => add_factors(text, locals, factors, found),
    }
}

/// Adds what a sequence of factors reads.
#[cycle(expressions)]
fn add_factors(
    text: &[u8],
    locals: &Locals<'_>,
    factors: &Factors,
    found: &mut Vec<Mention>,
) -> Result<(), AllocError>
    ensures { OnOk result (AddsReads text.now locals.now
        (λ f. reads text.now f.locals (factors_tree factors.now)) found.old.items found.new.items) }
{
    add_unary(text, locals, &factors.first, found)?;
    add_unary(text, locals, &factors.second.unary, found)?;
    'each: for factor in &factors.others {
        add_unary(text, locals, &factor.unary, found)?;
    }
    Ok(())
}

/// Adds what an atom with its prefixes reads.
#[cycle(expressions)]
fn add_unary(
    text: &[u8],
    locals: &Locals<'_>,
    unary: &Unary,
    found: &mut Vec<Mention>,
) -> Result<(), AllocError>
    ensures { OnOk result (AddsReads text.now locals.now
        (λ f. reads text.now f.locals (unary_tree unary.now)) found.old.items found.new.items) }
{
    match unary {
        Unary::Atom(atom) => add_atom(text, locals, atom, found),
        Unary::Prefixed(prefixed) => add_prefixed(text, locals, prefixed, found),
    }
}

/// Adds what an atom with prefixes reads.
#[cycle(expressions)]
fn add_prefixed(
    text: &[u8],
    locals: &Locals<'_>,
    prefixed: &Prefixed,
    found: &mut Vec<Mention>,
) -> Result<(), AllocError>
    ensures { OnOk result (AddsReads text.now locals.now
        (λ f. reads text.now f.locals (prefixed_tree prefixed.now)) found.old.items found.new.items) }
{
    add_atom(text, locals, &prefixed.atom, found)
}

/// Adds what an atom reads.
#[cycle(expressions)]
fn add_atom(
    text: &[u8],
    locals: &Locals<'_>,
    atom: &Atom,
    found: &mut Vec<Mention>,
) -> Result<(), AllocError>
    ensures { OnOk result (AddsReads text.now locals.now
        (λ f. atom_reads text.now f.locals (atom_tree atom.now)) found.old.items found.new.items) }
{
    match atom {
        Atom::Number(_) => Ok(()),
        Atom::True(_) => Ok(()),
        Atom::False(_) => Ok(()),
        Atom::Target(target) => add_target(text, locals, target, found),
        Atom::Parens { inner, .. } => add_reads(text, locals, inner, found),
    }
}

/// Adds what a target within an expression reads.
#[cycle(expressions)]
fn add_target(
    text: &[u8],
    locals: &Locals<'_>,
    target: &Target,
    found: &mut Vec<Mention>,
) -> Result<(), AllocError>
    ensures { OnOk result (AddsReads text.now locals.now
        (λ f. target_reads text.now f.locals (target_tree target.now)) found.old.items found.new.items) }
{
    match target {
        Target::Variable(_) => Ok(()),
        Target::Field(part) => add_mention(text, locals, part.variable, found),
        Target::Element(part) => {
            add_mention(text, locals, part.variable, found)?;
            add_reads(text, locals, &part.index, found)
        }
    }
}

/// Adds the variable of this name, if it is of the exchange heap.
fn add_mention(
    text: &[u8],
    locals: &Locals<'_>,
    name: Span,
    found: &mut Vec<Mention>,
) -> Result<(), AllocError>
    ensures { OnOk result (AddsReads text.now locals.now
        (λ f. mention_list (mention text.now f.locals name)) found.old.items found.new.items) }
{
    if let Some(mention) = locals.mention(text, name) {
        found.push(mention)?;
    }
    Ok(())
}
