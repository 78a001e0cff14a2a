//! Groups of kinds that a message names by one word.

ghost use Rattle.std.specs.Prelude.{◌≡◌};
ghost use Rattle.expected.specs.Grouping.{has, is_of, word_of_group};

use source::Kind;
use syntax::{begins_expression, begins_statement, begins_value};

/// Kinds of tokens that a message names by one word: those that begin the named thing, or those that are it.
#[derive(Clone, Copy, Debug, PartialEq, Eq)]
pub enum Group {
    Statement,
    Value,
    Expression,
    Operator,
    Scalar,
    Access,
}

/// The groups, in the order in which they are looked for. A group comes before those that it contains.
pub const GROUPS: [Group; 6] = [
    Group::Statement,
    Group::Value,
    Group::Expression,
    Group::Operator,
    Group::Scalar,
    Group::Access,
];

/// Returns what a message calls a group.
pub(crate) fn word_of_group(group: Group) -> &'static str
    ensures { result.now ≡ word_of_group group }
{
    match group {
        Group::Statement => "a statement",
        Group::Value => "a value",
        Group::Expression => "an expression",
        Group::Operator => "an operator",
        Group::Scalar => "a type",
        Group::Access => "an access modifier",
    }
}

static OPERATORS: [Kind; 11] = [
    Kind::Star,
    Kind::EqualEqual,
    Kind::NotEqual,
    Kind::Less,
    Kind::LessEqual,
    Kind::Greater,
    Kind::GreaterEqual,
    Kind::Plus,
    Kind::Minus,
    Kind::AndAnd,
    Kind::OrOr,
];

/// Returns whether a kind is one of these.
pub(crate) fn has(kinds: &[Kind], kind: Kind) -> bool
    ensures { result ≡ has kinds.now kind }
{
    kinds.iter().any(|other| *other == kind)
}

/// Returns whether a kind is of a group.
pub(crate) fn is_of(kind: Kind, group: Group) -> bool
    ensures { result ≡ is_of kind group }
{
    match group {
        Group::Statement => begins_statement(kind),
        Group::Value => begins_value(kind),
        Group::Expression => begins_expression(kind),
        Group::Operator => has(&OPERATORS, kind),
        Group::Scalar => has(&[Kind::Bool, Kind::Byte, Kind::Int], kind),
        Group::Access => has(&[Kind::Internal, Kind::Private, Kind::Public], kind),
    }
}
