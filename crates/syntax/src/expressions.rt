//! Reads expressions level by level, starting from the first unary.

ghost use Rattle.std.specs.Prelude.{◌≡◌, ◌≤◌, ◌++◌, length, map, OnOk};
ghost use Rattle.std.specs.List.{flat_map};
ghost use Rattle.source.specs.declared.kind.Kind.{Kind};
ghost use Rattle.tree.specs.Symbols.{by_kind};
ghost use Rattle.tree.specs.Spelling.{name, within, parens};
ghost use Rattle.syntax.specs.Reading.{Stops, ReadsList, Reads, ReadsEnded, never};
ghost use Rattle.tree.specs.Operators.{Or, And, Equal, Compare, Add, Single, Joined, prefix};
ghost use Rattle.tree.specs.Factors.{factor};
ghost use Rattle.syntax.specs.OperatorReads.{joins, opens_prefix};
ghost use Rattle.tree.specs.Expressions.{level, expression, step, atom, target, dot_name};
ghost use Rattle.syntax.specs.ExpressionReads.{level_on, level_at, step_at, steps_end, factor_at, factors_end, atom_at, target_at};
ghost use Rattle.syntax.specs.ExpressionReads.{target_on, opens_expression};
ghost use Rattle.tree.specs.ExpressionTrees.{expression_tree, disjunction_tree, conjunction_tree, equality_tree, equality_step_tree};
ghost use Rattle.tree.specs.ExpressionTrees.{relation_tree, relation_step_tree, sum_tree, factor_tree, unary_tree, atom_tree, target_tree};
ghost use Rattle.tree.specs.ExpressionTrees.{without_sign};

use crate::cursor::{Cursor, Stuck};
use crate::fitted::{push, shrink};
use crate::operators::{
    equality_operator, factor_operator, goes_on_behind_sum, is_equality, is_factor, is_prefix,
    is_relation, prefix, relation_operator,
};
use source::{Kind, Span};
use std::alloc::Global;
use tree::{
    Atom, Conjunction, Disjunction, ElementTarget, Equality, EqualityStep, Expression, Factor,
    Factors, FieldTarget, Prefix, Prefixed, Relation, RelationStep, Sum, Target, Unary,
};

/// Returns whether an expression begins with this token.
pub fn is_expression(kind: Option<Kind>) -> bool
    ensures { result ≡ opens_expression kind }
{
    matches!(
        kind,
        Some(
            Kind::Bang
                | Kind::Minus
                | Kind::Number
                | Kind::True
                | Kind::False
                | Kind::Name
                | Kind::OpenParen
        )
    )
}

/// expression = conjunction { "||" conjunction } .
#[cycle(expression)]
pub fn read_expression(alloc: Global, cursor: &mut Cursor<'_>) -> Result<Expression, Stuck>
    ensures { Reads expression_tree level (level_on (Joined Or)) level_at cursor.old cursor.new result }
{
    let unary = read_unary(alloc, cursor)?;
    expression_from(alloc, cursor, unary)
}

/// expression = conjunction { "||" conjunction }, given its first unary.
#[cycle(expression)]
pub fn expression_from(
    alloc: Global,
    cursor: &mut Cursor<'_>,
    unary: Unary,
) -> Result<Expression, Stuck>
    requires { Stops (level_at (unary_tree unary)) cursor.old }
    ensures read { Reads expression_tree level (level_on (Joined Or)) level_at (level (unary_tree unary) ++ cursor.old) cursor.new result }
    ensures left { OnOk result (length cursor.new ≤ length cursor.old) }
{
    let sum = sum_from(alloc, cursor, unary)?;
    if !goes_on_behind_sum(cursor.peek()) {
        return Ok(Expression::Sum(sum));
    }
    let disjunction = disjunction_from(alloc, cursor, sum)?;
    Ok(Expression::Joined(Box::new(alloc, disjunction)?))
}

/// Reads an expression with all levels between, given its first sum. Used if an operator follows that sum.
#[cycle(expression)]
fn disjunction_from(alloc: Global, cursor: &mut Cursor<'_>, sum: Sum) -> Result<Disjunction, Stuck>
    requires { Stops (level_at (sum_tree sum)) cursor.old }
    ensures read { Reads disjunction_tree level (level_on (Joined Or)) level_at (level (sum_tree sum) ++ cursor.old) cursor.new result }
    ensures left { OnOk result (length cursor.new ≤ length cursor.old) }
{
    let first = conjunction_from(alloc, cursor, sum)?;
    let others = conjunctions(alloc, cursor)?;
    Ok(Disjunction { first, others })
}

/// { "||" conjunction }
#[cycle(expression)]
fn conjunctions(alloc: Global, cursor: &mut Cursor<'_>) -> Result<Vec<Conjunction>, Stuck>
    ensures { Reads (λ v. map (without_sign conjunction_tree) v.items) (flat_map (step Or)) (level_on (Joined Or)) (steps_end Or)
        cursor.old cursor.new result }
{
    let mut all = Vec::new(alloc);
    'each: while cursor.is_next(Kind::OrOr) {
        push(&mut all, or_conjunction(alloc, cursor)?)?;
    }
    Ok(shrink(all))
}

/// "||" conjunction
#[cycle(expression)]
fn or_conjunction(alloc: Global, cursor: &mut Cursor<'_>) -> Result<Conjunction, Stuck>
    ensures { Reads (without_sign conjunction_tree) (step Or) (level_on (Joined And)) (step_at Or) cursor.old cursor.new result }
{
    cursor.expect(Kind::OrOr)?;
    let sum = read_sum(alloc, cursor)?;
    conjunction_from(alloc, cursor, sum)
}

/// conjunction = equality { "&&" equality }, given its first sum.
#[cycle(expression)]
fn conjunction_from(alloc: Global, cursor: &mut Cursor<'_>, sum: Sum) -> Result<Conjunction, Stuck>
    requires { Stops (level_at (sum_tree sum)) cursor.old }
    ensures read { Reads conjunction_tree level (level_on (Joined And)) level_at
        (level (sum_tree sum) ++ cursor.old) cursor.new result }
    ensures left { OnOk result (length cursor.new ≤ length cursor.old) }
{
    let first = equality_from(alloc, cursor, sum)?;
    let others = equalities(alloc, cursor)?;
    Ok(Conjunction { first, others })
}

/// { "&&" equality }
#[cycle(expression)]
fn equalities(alloc: Global, cursor: &mut Cursor<'_>) -> Result<Vec<Equality>, Stuck>
    ensures { Reads (λ v. map (without_sign equality_tree) v.items) (flat_map (step And)) (level_on (Joined And)) (steps_end And)
        cursor.old cursor.new result }
{
    let mut all = Vec::new(alloc);
    'each: while cursor.is_next(Kind::AndAnd) {
        push(&mut all, and_equality(alloc, cursor)?)?;
    }
    Ok(shrink(all))
}

/// "&&" equality
#[cycle(expression)]
fn and_equality(alloc: Global, cursor: &mut Cursor<'_>) -> Result<Equality, Stuck>
    ensures { Reads (without_sign equality_tree) (step And) (level_on (Joined Equal)) (step_at And) cursor.old cursor.new result }
{
    cursor.expect(Kind::AndAnd)?;
    let sum = read_sum(alloc, cursor)?;
    equality_from(alloc, cursor, sum)
}

/// equality = relation { ( "==" | "!=" ) relation }, given its first sum.
#[cycle(expression)]
fn equality_from(alloc: Global, cursor: &mut Cursor<'_>, sum: Sum) -> Result<Equality, Stuck>
    requires { Stops (level_at (sum_tree sum)) cursor.old }
    ensures read { Reads equality_tree level (level_on (Joined Equal)) level_at (level (sum_tree sum) ++ cursor.old) cursor.new result }
    ensures left { OnOk result (length cursor.new ≤ length cursor.old) }
{
    let first = relation_from(alloc, cursor, sum)?;
    let others = equality_steps(alloc, cursor)?;
    Ok(Equality { first, others })
}

/// { ( "==" | "!=" ) relation }
#[cycle(expression)]
fn equality_steps(alloc: Global, cursor: &mut Cursor<'_>) -> Result<Vec<EqualityStep>, Stuck>
    ensures { Reads (λ v. map equality_step_tree v.items) (flat_map (step Equal)) (level_on (Joined Equal)) (steps_end Equal)
        cursor.old cursor.new result }
{
    let mut all = Vec::new(alloc);
    'each: while is_equality(cursor.peek()) {
        push(&mut all, equality_step(alloc, cursor)?)?;
    }
    Ok(shrink(all))
}

/// ( "==" | "!=" ) relation
#[cycle(expression)]
fn equality_step(alloc: Global, cursor: &mut Cursor<'_>) -> Result<EqualityStep, Stuck>
    ensures { Reads equality_step_tree (step Equal) (level_on (Joined Compare)) (step_at Equal) cursor.old cursor.new result }
{
    let operator = equality_operator(cursor)?;
    let sum = read_sum(alloc, cursor)?;
    let relation = relation_from(alloc, cursor, sum)?;
    Ok(EqualityStep { operator, relation })
}

/// relation = sum { ( "<" | "<=" | ">" | ">=" ) sum }, given its first sum.
#[cycle(expression)]
fn relation_from(alloc: Global, cursor: &mut Cursor<'_>, sum: Sum) -> Result<Relation, Stuck>
    requires { Stops (level_at (sum_tree sum)) cursor.old }
    ensures read { Reads relation_tree level (level_on (Joined Compare)) level_at
        (level (sum_tree sum) ++ cursor.old) cursor.new result }
    ensures left { OnOk result (length cursor.new ≤ length cursor.old) }
{
    let others = relation_steps(alloc, cursor)?;
    Ok(Relation { first: sum, others })
}

/// { ( "<" | "<=" | ">" | ">=" ) sum }
#[cycle(expression)]
fn relation_steps(alloc: Global, cursor: &mut Cursor<'_>) -> Result<Vec<RelationStep>, Stuck>
    ensures { Reads (λ v. map relation_step_tree v.items) (flat_map (step Compare)) (level_on (Joined Compare)) (steps_end Compare)
        cursor.old cursor.new result }
{
    let mut all = Vec::new(alloc);
    'each: while is_relation(cursor.peek()) {
        push(&mut all, relation_step(alloc, cursor)?)?;
    }
    Ok(shrink(all))
}

/// ( "<" | "<=" | ">" | ">=" ) sum
#[cycle(expression)]
fn relation_step(alloc: Global, cursor: &mut Cursor<'_>) -> Result<RelationStep, Stuck>
    ensures { Reads relation_step_tree (step Compare) (level_on (Joined Add)) (step_at Compare) cursor.old cursor.new result }
{
    let operator = relation_operator(cursor)?;
    let sum = read_sum(alloc, cursor)?;
    Ok(RelationStep { operator, sum })
}

/// sum = term { ( "+" | "-" ) term } .
#[cycle(expression)]
fn read_sum(alloc: Global, cursor: &mut Cursor<'_>) -> Result<Sum, Stuck>
    ensures { Reads sum_tree level (level_on (Joined Add)) level_at cursor.old cursor.new result }
{
    let unary = read_unary(alloc, cursor)?;
    sum_from(alloc, cursor, unary)
}

/// sum = term { ( "+" | "-" ) term }, given its first unary.
#[cycle(expression)]
fn sum_from(alloc: Global, cursor: &mut Cursor<'_>, unary: Unary) -> Result<Sum, Stuck>
    requires { Stops (level_at (unary_tree unary)) cursor.old }
    ensures read { Reads sum_tree level (level_on (Joined Add)) level_at (level (unary_tree unary) ++ cursor.old) cursor.new result }
    ensures left { OnOk result (length cursor.new ≤ length cursor.old) }
{
    if !is_factor(cursor.peek()) {
        return Ok(Sum::Unary(unary));
    }
    let second = read_factor(alloc, cursor)?;
    let others = factors(alloc, cursor)?;
    let factors = Factors {
        first: unary,
        second,
        others,
    };
    Ok(Sum::Factors(Box::new(alloc, factors)?))
}

/// { ( "+" | "-" | "*" ) unary }
#[cycle(expression)]
fn factors(alloc: Global, cursor: &mut Cursor<'_>) -> Result<Vec<Factor>, Stuck>
    ensures { Reads (λ v. map factor_tree v.items) (flat_map factor) (level_on (Joined Add)) factors_end cursor.old cursor.new result }
{
    let mut all = Vec::new(alloc);
    'each: while is_factor(cursor.peek()) {
        push(&mut all, read_factor(alloc, cursor)?)?;
    }
    Ok(shrink(all))
}

/// ( "+" | "-" | "*" ) unary
#[inline(always)]
#[cycle(expression)]
fn read_factor(alloc: Global, cursor: &mut Cursor<'_>) -> Result<Factor, Stuck>
    ensures { Reads factor_tree factor (level_on Single) factor_at cursor.old cursor.new result }
{
    let operator = factor_operator(cursor)?;
    let unary = read_unary(alloc, cursor)?;
    Ok(Factor { operator, unary })
}

/// { "!" | "-" }
fn prefixes(alloc: Global, cursor: &mut Cursor<'_>) -> Result<Vec<Prefix>, Stuck>
    ensures { Reads (λ v. v.items) (flat_map prefix) (by_kind opens_prefix) (λ _. by_kind opens_prefix) cursor.old cursor.new result }
{
    let mut all = Vec::new(alloc);
    'each: while is_prefix(cursor.peek()) {
        push(&mut all, prefix(cursor)?)?;
    }
    Ok(shrink(all))
}

/// unary = { "!" | "-" } atom .
#[inline(always)]
#[cycle(expression)]
fn read_unary(alloc: Global, cursor: &mut Cursor<'_>) -> Result<Unary, Stuck>
    ensures { Reads unary_tree level (level_on Single) level_at cursor.old cursor.new result }
{
    if !is_prefix(cursor.peek()) {
        return Ok(Unary::Atom(read_atom(alloc, cursor)?));
    }
    let prefixes = prefixes(alloc, cursor)?;
    let atom = read_atom(alloc, cursor)?;
    let prefixed = Prefixed { prefixes, atom };
    Ok(Unary::Prefixed(Box::new(alloc, prefixed)?))
}

/// atom = NUMBER | "true" | "false" | target | "(" expression ")" .
#[inline(always)]
#[cycle(expression)]
fn read_atom(alloc: Global, cursor: &mut Cursor<'_>) -> Result<Atom, Stuck>
    ensures { Reads atom_tree atom (level_on Single) atom_at cursor.old cursor.new result }
{
    if cursor.is_next(Kind::Name) {
        Ok(Atom::Target(read_target(alloc, cursor)?))
    } else if cursor.is_next(Kind::OpenParen) {
        let (open, inner) = read_parens(alloc, cursor)?;
        let inner = Box::new(alloc, inner)?;
        Ok(Atom::Parens { open, inner })
    } else if cursor.is_next(Kind::True) {
        Ok(Atom::True(cursor.skip()))
    } else if cursor.is_next(Kind::False) {
        Ok(Atom::False(cursor.skip()))
    } else {
        Ok(Atom::Number(cursor.expect_span(Kind::Number)?))
    }
}

/// "(" expression ")"
#[cycle(expression)]
pub fn read_parens(alloc: Global, cursor: &mut Cursor<'_>) -> Result<(Span, Expression), Stuck>
    ensures { ReadsEnded (λ p. (p.0, expression_tree p.1)) (parens expression) cursor.old cursor.new result }
{
    let left = cursor.expect_span(Kind::OpenParen)?;
    let inner = read_expression(alloc, cursor)?;
    cursor.expect(Kind::CloseParen)?;
    Ok((left, inner))
}

/// target = ID | ID "." ID | ID "[" expression "]" .
#[cycle(expression)]
fn read_target(alloc: Global, cursor: &mut Cursor<'_>) -> Result<Target, Stuck>
    ensures { Reads target_tree target target_on target_at cursor.old cursor.new result }
{
    let variable = cursor.name()?;
    target_from(alloc, cursor, variable)
}

/// Reads the rest of a target that begins with this name.
#[inline(always)]
#[cycle(expression)]
pub fn target_from(alloc: Global, cursor: &mut Cursor<'_>, variable: Span) -> Result<Target, Stuck>
    ensures read { Reads target_tree target target_on target_at (name variable ++ cursor.old) cursor.new result }
    ensures left { OnOk result (length cursor.new ≤ length cursor.old) }
{
    if cursor.is_next(Kind::Dot) {
        let field = dot_name(cursor)?;
        let field = FieldTarget { variable, field };
        Ok(Target::Field(Box::new(alloc, field)?))
    } else if cursor.is_next(Kind::OpenBracket) {
        let index = read_index(alloc, cursor)?;
        let element = ElementTarget { variable, index };
        Ok(Target::Element(Box::new(alloc, element)?))
    } else {
        Ok(Target::Variable(variable))
    }
}

/// "." ID
pub fn dot_name(cursor: &mut Cursor<'_>) -> Result<Span, Stuck>
    ensures { ReadsEnded (λ x. x) dot_name cursor.old cursor.new result }
{
    cursor.expect(Kind::Dot)?;
    Ok(cursor.name()?)
}

/// "[" expression "]"
#[cycle(expression)]
pub fn read_index(alloc: Global, cursor: &mut Cursor<'_>) -> Result<Expression, Stuck>
    ensures { ReadsEnded expression_tree (within Kind.OpenBracket expression Kind.CloseBracket) cursor.old cursor.new result }
{
    cursor.expect(Kind::OpenBracket)?;
    let index = read_expression(alloc, cursor)?;
    cursor.expect(Kind::CloseBracket)?;
    Ok(index)
}
