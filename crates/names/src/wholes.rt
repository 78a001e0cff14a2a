//! Expressions that are the whole of a value, an argument or a returned value.

ghost use Rattle.std.specs.Prelude.{IfOk};
ghost use Rattle.tree.specs.ExpressionTrees.{expression_tree};
ghost use Rattle.names.specs.Expressions.{truth_mistakes, number_mistakes};
ghost use Rattle.names.specs.Operands.{AddsIn, JudgesWhole};
ghost use Rattle.names.specs.Shapes.{shape};
ghost use Rattle.names.specs.Values.{asked_mistakes};

use crate::expressions::judge_operand;
use crate::mentions::judge_variable;
use crate::operands::{Operand, ask, ask_number, ask_truth};
use crate::variables::ScopeVariables;
use declarations::{Demand, Mismatch, Mistake, Scope, ValueType};
use source::Memory;
use tree::{Expression, name_alone};

/// Returns the type of an expression that is the whole of something, and where it begins; adds the mistakes in it.
pub(crate) fn judge_whole_operand(
    scope: &Scope<'_>,
    variables: &ScopeVariables<'_>,
    expression: &Expression,
    found: &mut Vec<Mistake>,
) -> Result<Operand, Memory>
    ensures { IfOk result (JudgesWhole scope.now variables.now (shape (expression_tree expression.now)) found.old.items found.new.items) }
{
    match name_alone(expression) {
        Some(name) => {
            let ty = judge_variable(scope, variables, name, found)?;
            Ok(Operand {
                ty,
                place: name.place,
            })
        }
        None => judge_operand(scope, variables, expression, found),
    }
}

/// Adds the mistakes in an expression that must be of this type.
pub(crate) fn judge_asked(
    scope: &Scope<'_>,
    variables: &ScopeVariables<'_>,
    asked: ValueType,
    expression: &Expression,
    found: &mut Vec<Mistake>,
) -> Result<(), Memory>
    ensures { AddsIn scope.now variables.now found.old.items found.new.items result
        (λ s. asked_mistakes s asked (shape (expression_tree expression.now))) }
{
    let operand = judge_whole_operand(scope, variables, expression, found)?;
    let mismatch = Mismatch::Given(Demand::OfType(asked), operand.ty);
    ask(operand.ty.agrees(asked), operand.place, mismatch, found)
}

/// Adds the mistakes in an expression that must be a truth value.
pub(crate) fn judge_truth(
    scope: &Scope<'_>,
    variables: &ScopeVariables<'_>,
    expression: &Expression,
    found: &mut Vec<Mistake>,
) -> Result<(), Memory>
    ensures { AddsIn scope.now variables.now found.old.items found.new.items result
        (λ s. truth_mistakes s (shape (expression_tree expression.now))) }
{
    let operand = judge_operand(scope, variables, expression, found)?;
    ask_truth(operand.ty, operand.place, found)
}

/// Adds the mistakes in an expression that must be a number.
pub(crate) fn judge_number(
    scope: &Scope<'_>,
    variables: &ScopeVariables<'_>,
    expression: &Expression,
    found: &mut Vec<Mistake>,
) -> Result<(), Memory>
    ensures { AddsIn scope.now variables.now found.old.items found.new.items result
        (λ s. number_mistakes s (shape (expression_tree expression.now))) }
{
    let operand = judge_operand(scope, variables, expression, found)?;
    ask_number(operand.ty, operand.place, found)
}
