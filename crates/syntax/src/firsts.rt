//! The tokens with which parts of a program begin.

ghost use Rattle.std.specs.Prelude.{◌≡◌, Some};
ghost use Rattle.syntax.specs.ExpressionReads.{opens_expression};
ghost use Rattle.syntax.specs.StatementFirsts.{opens_statement};
ghost use Rattle.syntax.specs.ValueReads.{opens_value};

use crate::expressions::is_expression;
use crate::leads::lead_of;
use crate::values::is_value;
use source::Kind;

/// Returns whether a statement begins with a token of this kind.
pub fn begins_statement(kind: Kind) -> bool
    ensures { result ≡ opens_statement (Some kind) }
{
    lead_of(Some(kind)).is_some()
}

/// Returns whether a value, which is an expression, a call or a `new`, begins with a token of this kind.
pub fn begins_value(kind: Kind) -> bool
    ensures { result ≡ opens_value (Some kind) }
{
    is_value(Some(kind))
}

/// Returns whether an expression begins with a token of this kind.
pub fn begins_expression(kind: Kind) -> bool
    ensures { result ≡ opens_expression (Some kind) }
{
    is_expression(Some(kind))
}
