//! Mistakes in the names and types of targets.

ghost use Rattle.std.specs.Prelude.{IfOk, OnOk};
ghost use Rattle.tree.specs.ExpressionTrees.{expression_tree, target_tree};
ghost use Rattle.names.specs.Expressions.{InScope};
ghost use Rattle.declarations.specs.Mistakes.{Adds};
ghost use Rattle.names.specs.Mentions.{GivesOperand};
ghost use Rattle.declarations.specs.Scopes.{IsScope};
ghost use Rattle.names.specs.Values.{target_type, target_mistakes, length_mistakes};
ghost use Rattle.tree.specs.Expressions.{Element, Field};

use crate::expressions::judge_operand;
use crate::mentions::{is_length, judge_element_of, judge_field, judge_variable, owns};
use crate::operands::ask;
use crate::variables::ScopeVariables;
use declarations::{Mismatch, Mistake, Scope, ValueType};
use source::{Memory, Span};
use tree::{Expression, Target};

/// Returns the type that is asked of a value for this target; adds the mistakes in the target.
pub(crate) fn judge_target(
    scope: &Scope<'_>,
    variables: &ScopeVariables<'_>,
    target: &Target,
    found: &mut Vec<Mistake>,
) -> Result<ValueType, Memory>
    ensures { IfOk result (GivesOperand scope.now variables.now (λ s. target_type s (target_tree target.now))
        (λ s. target_mistakes s (target_tree target.now)) found.old.items found.new.items) }
{
    match target {
        Target::Variable(name) => judge_variable(scope, variables, *name, found),
        Target::Field(part) => {
            judge_field_target(scope, variables, part.variable, part.field, found)
        }
        Target::Element(part) => {
            judge_element_target(scope, variables, part.variable, &part.index, found)
        }
    }
}

/// Returns the same for an element.
fn judge_element_target(
    scope: &Scope<'_>,
    variables: &ScopeVariables<'_>,
    variable: Span,
    index: &Expression,
    found: &mut Vec<Mistake>,
) -> Result<ValueType, Memory>
    ensures { IfOk result (GivesOperand scope.now variables.now
        (λ s. target_type s (Element variable (expression_tree index.now)))
        (λ s. target_mistakes s (Element variable (expression_tree index.now))) found.old.items found.new.items) }
{
    let index = judge_operand(scope, variables, index, found)?;
    let element = judge_element_of(scope, variables, variable, index, found)?;
    Ok(element.ty)
}

/// Returns the same for a field. The length of an array can only be read, and an owning field can only be exchanged.
fn judge_field_target(
    scope: &Scope<'_>,
    variables: &ScopeVariables<'_>,
    variable: Span,
    field: Span,
    found: &mut Vec<Mistake>,
) -> Result<ValueType, Memory>
    ensures { IfOk result (GivesOperand scope.now variables.now
        (λ s. target_type s (Field variable field))
        (λ s. target_mistakes s (Field variable field)) found.old.items found.new.items) }
{
    let held = judge_variable(scope, variables, variable, found)?;
    let ty = judge_field(scope, held, variable, field, found)?;
    judge_written(scope, held, field, found)?;
    let well = !owns(scope, held, field, ty);
    ask(well, field.place, Mismatch::FieldOwns, found)?;
    Ok(ty)
}

/// Adds a mistake if the field is the length of an array.
fn judge_written(
    scope: &Scope<'_>,
    held: ValueType,
    field: Span,
    found: &mut Vec<Mistake>,
) -> Result<(), Memory>
    ensures { (s : InScope) → IsScope s.program scope.now
        → OnOk result (Adds found.old.items found.new.items (length_mistakes s held field)) }
{
    match held {
        ValueType::Array(_) => {
            let well = !is_length(scope.text, field);
            ask(well, field.place, Mismatch::LengthWritten, found)
        }
        _ => Ok(()),
    }
}
