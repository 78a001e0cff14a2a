//! Mistakes in the names and types of exchanges.

ghost use Rattle.std.specs.Prelude.{◌++◌, IfOk};
ghost use Rattle.names.specs.Bodies.{exchanged_type, holder_mistakes, exchange_mistakes};
ghost use Rattle.names.specs.Expressions.{block_asked, field_type, field_mistakes};
ghost use Rattle.names.specs.Mentions.{GivesIn};
ghost use Rattle.names.specs.Operands.{AddsIn};

use crate::mentions::{judge_field, judge_variable};
use crate::operands::ask;
use crate::variables::ScopeVariables;
use declarations::{Demand, Mismatch, Mistake, Scope, ValueType};
use source::{Memory, Span};
use tree::Exchange;

/// Adds the mistakes in an exchange.
pub(crate) fn judge_exchange(
    scope: &Scope<'_>,
    variables: &ScopeVariables<'_>,
    exchange: Exchange,
    found: &mut Vec<Mistake>,
) -> Result<(), Memory>
    ensures { AddsIn scope.now variables.now found.old.items found.new.items result
        (λ s. exchange_mistakes s exchange) }
{
    let held = judge_variable(scope, variables, exchange.holder, found)?;
    let asked = judge_holder(scope, held, exchange.holder, exchange.field, found)?;
    let given = judge_variable(scope, variables, exchange.given, found)?;
    let mismatch = Mismatch::Given(Demand::OfType(asked), given);
    ask(given.agrees(asked), exchange.given.place, mismatch, found)
}

/// Returns the type of the exchanged field; adds the mistakes in the field, or in the variable that holds it.
fn judge_holder(
    scope: &Scope<'_>,
    held: ValueType,
    holder: Span,
    field: Span,
    found: &mut Vec<Mistake>,
) -> Result<ValueType, Memory>
    ensures { IfOk result (GivesIn scope.now (λ s. exchanged_type s held field)
        (λ s. holder_mistakes s held holder field) found.old.items found.new.items) }
{
    match held {
        ValueType::Pointer(_) => judge_owning(scope, held, holder, field, found),
        _ => {
            let mismatch = Mismatch::Given(Demand::Pointer, held);
            ask(held.is_silent(), holder.place, mismatch, found)?;
            Ok(ValueType::Unknown)
        }
    }
}

/// Returns the type of a field of what a variable holds; adds the mistakes in it, and one if the field does not own.
fn judge_owning(
    scope: &Scope<'_>,
    held: ValueType,
    holder: Span,
    field: Span,
    found: &mut Vec<Mistake>,
) -> Result<ValueType, Memory>
    ensures { IfOk result (GivesIn scope.now (λ s. field_type s held field) (λ s. field_mistakes s held holder field
        ++ block_asked (field_type s held field) field.place)
        found.old.items found.new.items) }
{
    let ty = judge_field(scope, held, holder, field, found)?;
    let well = ty.is_silent() || ty.is_block();
    ask(well, field.place, Mismatch::Given(Demand::Block, ty), found)?;
    Ok(ty)
}
