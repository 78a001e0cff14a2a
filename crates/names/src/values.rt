//! Mistakes in the names and types of values.

ghost use Rattle.std.specs.Prelude.{◌≡◌, IfOk};
ghost use Rattle.tree.specs.Values.{value_tree, new_tree, made_tree};
ghost use Rattle.names.specs.Operands.{AddsHere, in_frame, shapes_of};
ghost use Rattle.declarations.specs.Types.{pointer_type};
ghost use Rattle.declarations.specs.Program.{ProgramText, struct_named};
ghost use Rattle.declarations.specs.Scopes.{IsScope};
ghost use Rattle.names.specs.Values.{made_type, made_mistakes, struct_made_mistakes, new_mistakes, value_mistakes};
ghost use Rattle.names.specs.Variables.{NameFrame};
ghost use Rattle.names.specs.Frames.{AddsAround};

use crate::arguments::judge_typed_arguments;
use crate::calls::{Purpose, judge_call, judge_unknown};
use crate::operands::ask;
use crate::surroundings::{NameContext, Surroundings};
use crate::told::judge_count;
use crate::variables::ScopeVariables;
use crate::wholes::{judge_asked, judge_number};
use declarations::{Demand, Mismatch, Mistake, NameSort, Scope, ValueType};
use source::{Memory, Span};
use tree::{Expression, Made, New, Value};

/// Returns the type of a pointer to the struct of this name; adds the name if no struct has it, and the mistakes in
/// the arguments for its owning fields.
fn judge_structure(
    context: &NameContext<'_, '_>,
    name: Span,
    arguments: &[Expression],
    found: &mut Vec<Mistake>,
) -> Result<ValueType, Memory>
    ensures ty { IfOk result (λ ty. (p : ProgramText) → IsScope p context.now.scope.now → ty ≡ pointer_type (struct_named p name)) }
    ensures found { AddsHere context.now found.old.items found.new.items result
        (λ s. struct_made_mistakes s (struct_named s.program name) name
        (shapes_of arguments.now)) }
{
    let NameContext {
        alloc,
        scope,
        variables,
    } = *context;
    match scope.owning_fields(name) {
        Some((index, owning)) => {
            judge_count(owning.len(), arguments.len(), name.place, found)?;
            judge_typed_arguments(alloc, scope, variables, owning, arguments, found)?;
            Ok(ValueType::Pointer(index))
        }
        None => {
            judge_unknown(context, name, NameSort::Struct, arguments, found)?;
            Ok(ValueType::Unknown)
        }
    }
}

/// Returns the type of what `new` makes; adds the mistakes in it.
fn judge_made(
    context: &NameContext<'_, '_>,
    made: &Made,
    found: &mut Vec<Mistake>,
) -> Result<ValueType, Memory>
    ensures ty { IfOk result (λ ty. (p : ProgramText) (f : NameFrame) → IsScope p context.now.scope.now
        → ty ≡ made_type (in_frame p f) (made_tree made.now)) }
    ensures found { AddsHere context.now found.old.items found.new.items result
        (λ s. made_mistakes s (made_tree made.now)) }
{
    match made {
        Made::Struct {
            name,
            arguments,
            ..
        } => {
            let ty = judge_structure(context, *name, arguments, found)?;
            Ok(ty)
        }
        Made::Array { element, length } => {
            judge_number(context.scope, context.variables, length, found)?;
            Ok(ValueType::Array(*element))
        }
    }
}

/// Adds the mistakes in a `new` that must be of this type.
fn judge_new(
    context: &NameContext<'_, '_>,
    asked: ValueType,
    new: &New,
    found: &mut Vec<Mistake>,
) -> Result<(), Memory>
    ensures { AddsHere context.now found.old.items found.new.items result
        (λ s. new_mistakes s asked (new_tree new.now)) }
{
    let ty = judge_made(context, &new.made, found)?;
    let mismatch = Mismatch::Given(Demand::OfType(asked), ty);
    ask(ty.agrees(asked), new.word.place, mismatch, found)
}

/// Adds the mistakes in a value that must be of this type.
pub(crate) fn judge_value<'a>(
    around: &Surroundings<'_, 'a>,
    variables: &ScopeVariables<'a>,
    asked: ValueType,
    value: &Value,
    found: &mut Vec<Mistake>,
) -> Result<(), Memory>
    ensures { AddsAround around.now variables.now found.old.items found.new.items result
        (λ i. value_mistakes i asked (value_tree value.now)) }
{
    match value {
        Value::Expression(e) => { judge_asked(around.scope, variables, asked, e, found) }
        Value::Call(call) => judge_call(around, variables, Purpose::Asked(asked), call, found),
        Value::New(new) => judge_new(&around.context(variables), asked, new, found),
    }
}
