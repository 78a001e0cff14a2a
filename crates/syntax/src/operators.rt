//! Reads operators.

ghost use Rattle.std.specs.Prelude.{◌≡◌};
ghost use Rattle.syntax.specs.Reading.{ReadsWord, ReadsList, ReadsEnded};
ghost use Rattle.tree.specs.Operators.{Or, And, Equal, Compare, prefix, equality_word, relation_word, sum_operator};
ghost use Rattle.tree.specs.Factors.{factor_operator};
ghost use Rattle.syntax.specs.OperatorReads.{behind_sum, joins, joins_factors, equality_of, relation_of, prefix_of, opens_prefix};

use crate::cursor::{Cursor, Stuck};
use source::{Kind, Span};
use tree::{
    EqualityOperator, FactorOperator, Prefix, PrefixOperator, RelationOperator, SumOperator,
};

/// Returns the equality operator that this token is, if it is one.
fn equality_of(kind: Option<Kind>) -> Option<EqualityOperator>
    ensures { result ≡ equality_of kind }
{
    match kind {
        Some(Kind::EqualEqual) => Some(EqualityOperator::Equal),
        Some(Kind::NotEqual) => Some(EqualityOperator::NotEqual),
        _ => None,
    }
}

/// Returns whether this token is an equality.
pub fn is_equality(kind: Option<Kind>) -> bool
    ensures { result ≡ joins Equal kind }
{
    equality_of(kind).is_some()
}

/// Returns whether an expression continues with this token after its first sum.
pub fn goes_on_behind_sum(kind: Option<Kind>) -> bool
    ensures { result ≡ behind_sum kind }
{
    matches!(kind, Some(Kind::AndAnd | Kind::OrOr)) || is_relation(kind) || is_equality(kind)
}

/// "==" | "!="
pub fn equality_operator(cursor: &mut Cursor<'_>) -> Result<EqualityOperator, Stuck>
    ensures { ReadsWord equality_word cursor.old cursor.new result }
{
    let Some(operator) = equality_of(cursor.peek()) else {
        return Err(Stuck::Unexpected);
    };
    cursor.skip();
    Ok(operator)
}

/// Returns the relation operator that this token is, if it is one.
fn relation_of(kind: Option<Kind>) -> Option<RelationOperator>
    ensures { result ≡ relation_of kind }
{
    match kind {
        Some(Kind::Less) => Some(RelationOperator::Less),
        Some(Kind::LessEqual) => Some(RelationOperator::LessEqual),
        Some(Kind::Greater) => Some(RelationOperator::Greater),
        Some(Kind::GreaterEqual) => Some(RelationOperator::GreaterEqual),
        _ => None,
    }
}

/// Returns whether this token is a relation.
pub fn is_relation(kind: Option<Kind>) -> bool
    ensures { result ≡ joins Compare kind }
{
    relation_of(kind).is_some()
}

/// "<" | "<=" | ">" | ">="
pub fn relation_operator(cursor: &mut Cursor<'_>) -> Result<RelationOperator, Stuck>
    ensures { ReadsWord relation_word cursor.old cursor.new result }
{
    let Some(operator) = relation_of(cursor.peek()) else {
        return Err(Stuck::Unexpected);
    };
    cursor.skip();
    Ok(operator)
}

/// Returns whether this token is "*", "+" or "-".
#[inline(always)]
pub fn is_factor(kind: Option<Kind>) -> bool
    ensures { result ≡ joins_factors kind }
{
    matches!(kind, Some(Kind::Star | Kind::Plus | Kind::Minus))
}

/// "*" | "+" | "-"
#[inline(always)]
pub fn factor_operator(cursor: &mut Cursor<'_>) -> Result<FactorOperator, Stuck>
    ensures { ReadsEnded (λ x. x) factor_operator cursor.old cursor.new result }
{
    if cursor.take_if(Kind::Star) {
        Ok(FactorOperator::Times)
    } else {
        Ok(FactorOperator::Sum(sum_operator(cursor)?))
    }
}

/// "+" | "-"
fn sum_operator(cursor: &mut Cursor<'_>) -> Result<SumOperator, Stuck>
    ensures { ReadsEnded (λ x. x) sum_operator cursor.old cursor.new result }
{
    if cursor.is_next(Kind::Minus) {
        Ok(SumOperator::Minus(cursor.expect_span(Kind::Minus)?))
    } else {
        cursor.expect(Kind::Plus)?;
        Ok(SumOperator::Plus)
    }
}

/// Returns the prefix operator that this token is, if it is one.
#[inline(always)]
fn prefix_of(kind: Option<Kind>) -> Option<PrefixOperator>
    ensures { result ≡ prefix_of kind }
{
    match kind {
        Some(Kind::Bang) => Some(PrefixOperator::Not),
        Some(Kind::Minus) => Some(PrefixOperator::Negate),
        _ => None,
    }
}

/// Returns whether this token is a prefix.
pub fn is_prefix(kind: Option<Kind>) -> bool
    ensures { result ≡ opens_prefix kind }
{
    prefix_of(kind).is_some()
}

/// "!" | "-"
pub fn prefix(cursor: &mut Cursor<'_>) -> Result<Prefix, Stuck>
    ensures { ReadsEnded (λ x. x) prefix cursor.old cursor.new result }
{
    let Some(operator) = prefix_of(cursor.peek()) else {
        return Err(Stuck::Unexpected);
    };
    let span = cursor.skip();
    Ok(Prefix { operator, span })
}
