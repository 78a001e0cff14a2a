//! Mistakes in the names and types of expressions.

ghost use Rattle.std.specs.Prelude.{◌≡◌, List, OnOk, IfOk};
ghost use Rattle.declarations.specs.declared.mistake.Mistake.{Mistake as MistakeModel};
ghost use Rattle.tree.specs.ExpressionTrees.{expression_tree, disjunction_tree, conjunction_tree, equality_tree, relation_tree};
ghost use Rattle.tree.specs.ExpressionTrees.{sum_tree, factors_tree, factor_tree, unary_tree, prefixed_tree, atom_tree, target_tree};
ghost use Rattle.names.specs.Expressions.{InScope, type_of, expression_mistakes, whole_mistakes};
ghost use Rattle.names.specs.Frames.{IsNameFrame};
ghost use Rattle.names.specs.Operands.{AddsIn, IsOperand, Judges};
ghost use Rattle.declarations.specs.Program.{ProgramText};
ghost use Rattle.declarations.specs.Scopes.{IsScope};
ghost use Rattle.names.specs.Shapes.{Shape, shape, atom_shape, target_shape, with_signs};
ghost use Rattle.names.specs.Terms.{JudgesTerms, TermShapes, with_factor};
ghost use Rattle.names.specs.Variables.{NameFrame};

use crate::mentions;
use crate::operands::{Joint, Operand, join, sign};
use crate::terms::{Terms, joined_terms};
use crate::variables::ScopeVariables;
use crate::wholes::judge_whole_operand;
use declarations::{Mistake, Scope, ValueType};
use source::Memory;
use tree::{
    Atom, Conjunction, Disjunction, Equality, Expression, Factor, FactorOperator, Factors, Prefix,
    Prefixed, Relation, Sum, Target, Unary,
};

/// Returns the type of an expression and where it begins; adds the mistakes in it.
#[cycle(expressions)]
pub(crate) fn judge_operand(
    scope: &Scope<'_>,
    variables: &ScopeVariables<'_>,
    expression: &Expression,
    found: &mut Vec<Mistake>,
) -> Result<Operand, Memory>
    ensures { IfOk result (Judges scope.now variables.now (shape (expression_tree expression.now)) found.old.items found.new.items) }
{
    match expression {
        Expression::Sum(sum) => judge_sum(scope, variables, sum, found),
        Expression::Joined(joined) => judge_disjunction(scope, variables, joined, found),
    }
}

/// Returns the same for a disjunction.
#[cycle(expressions)]
fn judge_disjunction(
    scope: &Scope<'_>,
    variables: &ScopeVariables<'_>,
    disjunction: &Disjunction,
    found: &mut Vec<Mistake>,
) -> Result<Operand, Memory>
    ensures { IfOk result (Judges scope.now variables.now (shape (disjunction_tree disjunction.now)) found.old.items found.new.items) }
{
    let mut left = judge_conjunction(scope, variables, &disjunction.first, found)?;
    'each: for conjunction in &disjunction.others {
        let right = judge_conjunction(scope, variables, conjunction, found)?;
        left = join(Joint::Logic, left, right, found)?;
    }
    Ok(left)
}

/// Returns the same for a conjunction.
#[cycle(expressions)]
fn judge_conjunction(
    scope: &Scope<'_>,
    variables: &ScopeVariables<'_>,
    conjunction: &Conjunction,
    found: &mut Vec<Mistake>,
) -> Result<Operand, Memory>
    ensures { IfOk result (Judges scope.now variables.now (shape (conjunction_tree conjunction.now)) found.old.items found.new.items) }
{
    let mut left = judge_equality(scope, variables, &conjunction.first, found)?;
    'each: for equality in &conjunction.others {
        let right = judge_equality(scope, variables, equality, found)?;
        left = join(Joint::Logic, left, right, found)?;
    }
    Ok(left)
}

/// Returns the same for an equality.
#[cycle(expressions)]
fn judge_equality(
    scope: &Scope<'_>,
    variables: &ScopeVariables<'_>,
    equality: &Equality,
    found: &mut Vec<Mistake>,
) -> Result<Operand, Memory>
    ensures { IfOk result (Judges scope.now variables.now (shape (equality_tree equality.now)) found.old.items found.new.items) }
{
    let mut left = judge_relation(scope, variables, &equality.first, found)?;
    'each: for step in &equality.others {
        let right = judge_relation(scope, variables, &step.relation, found)?;
        left = join(Joint::Likeness, left, right, found)?;
    }
    Ok(left)
}

/// Returns the same for a relation.
#[cycle(expressions)]
fn judge_relation(
    scope: &Scope<'_>,
    variables: &ScopeVariables<'_>,
    relation: &Relation,
    found: &mut Vec<Mistake>,
) -> Result<Operand, Memory>
    ensures { IfOk result (Judges scope.now variables.now (shape (relation_tree relation.now)) found.old.items found.new.items) }
{
    let mut left = judge_sum(scope, variables, &relation.first, found)?;
    'each: for step in &relation.others {
        let right = judge_sum(scope, variables, &step.sum, found)?;
        left = join(Joint::Order, left, right, found)?;
    }
    Ok(left)
}

/// Returns the same for a sum.
#[cycle(expressions)]
fn judge_sum(
    scope: &Scope<'_>,
    variables: &ScopeVariables<'_>,
    sum: &Sum,
    found: &mut Vec<Mistake>,
) -> Result<Operand, Memory>
    ensures { IfOk result (Judges scope.now variables.now (shape (sum_tree sum.now)) found.old.items found.new.items) }
{
    match sum {
        Sum::Unary(unary) => judge_unary(scope, variables, unary, found),
        Sum::Factors(factors) => judge_factors(scope, variables, factors, found),
    }
}

/// Returns the same for a sequence of factors.
#[cycle(expressions)]
fn judge_factors(
    scope: &Scope<'_>,
    variables: &ScopeVariables<'_>,
    factors: &Factors,
    found: &mut Vec<Mistake>,
) -> Result<Operand, Memory>
    ensures { IfOk result (Judges scope.now variables.now (shape (factors_tree factors.now)) found.old.items found.new.items) }
{
    let first = judge_unary(scope, variables, &factors.first, found)?;
    let mut terms = Terms::from_first(first);
    judge_factor(scope, variables, &factors.second, &mut terms, found)?;
    'each: for factor in &factors.others {
        judge_factor(scope, variables, factor, &mut terms, found)?;
    }
    joined_terms(terms, found)
}

/// Adds one more factor to the terms of a sum; adds the mistakes in that.
#[inline(always)]
#[cycle(expressions)]
fn judge_factor(
    scope: &Scope<'_>,
    variables: &ScopeVariables<'_>,
    factor: &Factor,
    terms: &mut Terms,
    found: &mut Vec<Mistake>,
) -> Result<(), Memory>
    ensures { OnOk result ((t : TermShapes) (start : List MistakeModel)
        → JudgesTerms scope.now variables.now t start found.old.items terms.old
        → JudgesTerms scope.now variables.now (with_factor t (factor_tree factor.now)) start found.new.items terms.new) }
{
    match factor.operator {
        FactorOperator::Times => {
            let right = judge_unary(scope, variables, &factor.unary, found)?;
            terms.last = join(Joint::Sum, terms.last, right, found)?;
        }
        FactorOperator::Sum(_) => {
            terms.before = Some(joined_terms(*terms, found)?);
            terms.last = judge_unary(scope, variables, &factor.unary, found)?;
        }
    }
    Ok(())
}

/// Returns the same for an atom with its prefixes.
#[inline(always)]
#[cycle(expressions)]
fn judge_unary(
    scope: &Scope<'_>,
    variables: &ScopeVariables<'_>,
    unary: &Unary,
    found: &mut Vec<Mistake>,
) -> Result<Operand, Memory>
    ensures { IfOk result (Judges scope.now variables.now (shape (unary_tree unary.now)) found.old.items found.new.items) }
{
    match unary {
        Unary::Atom(atom) => judge_atom(scope, variables, atom, found),
        Unary::Prefixed(prefixed) => judge_prefixed(scope, variables, prefixed, found),
    }
}

/// Returns the same for an atom with prefixes.
#[cycle(expressions)]
fn judge_prefixed(
    scope: &Scope<'_>,
    variables: &ScopeVariables<'_>,
    prefixed: &Prefixed,
    found: &mut Vec<Mistake>,
) -> Result<Operand, Memory>
    ensures { IfOk result (Judges scope.now variables.now (shape (prefixed_tree prefixed.now)) found.old.items found.new.items) }
{
    let atom = judge_atom(scope, variables, &prefixed.atom, found)?;
    judge_signs(&prefixed.prefixes, atom, found)
}

/// Returns an operand with all of these signs before it, applied from the last one on; adds the mistakes in that.
fn judge_signs(
    prefixes: &[Prefix],
    inner: Operand,
    found: &mut Vec<Mistake>,
) -> Result<Operand, Memory>
    ensures { IfOk result (λ o. (s : InScope) (e : Shape) (start : List MistakeModel) → IsOperand s e start found.old.items inner
        → IsOperand s (with_signs prefixes.now e) start found.new.items o) }
{
    let mut operand = inner;
    let mut left = prefixes.len();
    while left > 0 {
        left -= 1;
        operand = sign(prefixes[left], operand, found)?;
    }
    Ok(operand)
}

/// Returns the same for an atom.
#[inline(always)]
#[cycle(expressions)]
fn judge_atom(
    scope: &Scope<'_>,
    variables: &ScopeVariables<'_>,
    atom: &Atom,
    found: &mut Vec<Mistake>,
) -> Result<Operand, Memory>
    ensures { IfOk result (Judges scope.now variables.now (atom_shape (atom_tree atom.now)) found.old.items found.new.items) }
{
    match atom {
        Atom::Number(span) => Ok(Operand::number(span.place)),
        Atom::True(span) => Ok(Operand::truth(span.place)),
        Atom::False(span) => Ok(Operand::truth(span.place)),
        Atom::Target(target) => judge_mentioned(scope, variables, target, found),
        Atom::Parens { open, inner } => {
            let inner = judge_operand(scope, variables, inner, found)?;
            Ok(Operand {
                ty: inner.ty,
                place: open.place,
            })
        }
    }
}

/// Returns the same for a target within an expression.
#[cycle(expressions)]
fn judge_mentioned(
    scope: &Scope<'_>,
    variables: &ScopeVariables<'_>,
    target: &Target,
    found: &mut Vec<Mistake>,
) -> Result<Operand, Memory>
    ensures { IfOk result (Judges scope.now variables.now (target_shape (target_tree target.now)) found.old.items found.new.items) }
{
    match target {
        Target::Variable(name) => mentions::judge_mention(scope, variables, *name, found),
        Target::Field(part) => {
            mentions::judge_field_of(scope, variables, part.variable, part.field, found)
        }
        Target::Element(part) => {
            let index = judge_operand(scope, variables, &part.index, found)?;
            mentions::judge_element_of(scope, variables, part.variable, index, found)
        }
    }
}

/// Returns the type of an expression; adds the mistakes in it.
pub(crate) fn judge_expression(
    scope: &Scope<'_>,
    variables: &ScopeVariables<'_>,
    expression: &Expression,
    found: &mut Vec<Mistake>,
) -> Result<ValueType, Memory>
    ensures ty { IfOk result (λ ty. (p : ProgramText) (f : NameFrame) → IsScope p scope.now → IsNameFrame p.text f variables.now
        → ty ≡ type_of (record { program = p; variables = f.variables }) (shape (expression_tree expression.now))) }
    ensures found { AddsIn scope.now variables.now found.old.items found.new.items result
        (λ s. expression_mistakes s (shape (expression_tree expression.now))) }
{
    let operand = judge_operand(scope, variables, expression, found)?;
    Ok(operand.ty)
}

/// Returns the same for an expression that is the whole of a value, an argument or a returned value: it may be a
/// variable of the exchange heap alone.
pub(crate) fn judge_whole(
    scope: &Scope<'_>,
    variables: &ScopeVariables<'_>,
    expression: &Expression,
    found: &mut Vec<Mistake>,
) -> Result<ValueType, Memory>
    ensures ty { IfOk result (λ ty. (p : ProgramText) (f : NameFrame) → IsScope p scope.now → IsNameFrame p.text f variables.now
        → ty ≡ type_of (record { program = p; variables = f.variables }) (shape (expression_tree expression.now))) }
    ensures found { AddsIn scope.now variables.now found.old.items found.new.items result
        (λ s. whole_mistakes s (shape (expression_tree expression.now))) }
{
    let operand = judge_whole_operand(scope, variables, expression, found)?;
    Ok(operand.ty)
}
