//! Mistakes in the names and types of statements that hold no others.

ghost use Rattle.std.specs.Prelude.{◌≡◌, ◌++◌, ◌∷◌, [], None, Some, OnOk, option_map};
ghost use Rattle.std.specs.Option.{option_map_or};
ghost use Rattle.tree.specs.ExpressionTrees.{expression_tree};
ghost use Rattle.tree.specs.StatementTrees.{declare_tree, assign_tree};
ghost use Rattle.tree.specs.Values.{value_tree};
ghost use Rattle.names.specs.Bodies.{declaration_turn, delete_mistakes, is_end_of, same_end};
ghost use Rattle.names.specs.Bodies.{demand_beside, ends_mistakes, channel_mistakes, return_mistakes};
ghost use Rattle.names.specs.Expressions.{variable_mistakes, type_named};
ghost use Rattle.declarations.specs.Mistakes.{Adds};
ghost use Rattle.names.specs.Frames.{AddsAround, IsNameFrame, Turns};
ghost use Rattle.declarations.specs.Program.{ProgramText, contract_named};
ghost use Rattle.declarations.specs.Scopes.{IsScope};
ghost use Rattle.names.specs.Values.{target_type, target_mistakes, value_mistakes};
ghost use Rattle.names.specs.Variables.{NameFrame};
ghost use Rattle.names.specs.Operands.{AddsHere, AddsIn};

use crate::expressions::judge_whole;
use crate::mentions::judge_variable;
use crate::operands::{add_wrong_type, ask};
use crate::surroundings::{NameContext, Surroundings};
use crate::targets::judge_target;
use crate::values::judge_value;
use crate::variables::{ScopeVariable, ScopeVariables};
use crate::wholes::judge_asked;
use declarations::{
    Demand, Mismatch, Mistake, NameSort, Scope, ValueType, add_unknown, is_heap, judge_type,
};
use program::Side;
use source::{Memory, Span};
use tree::{Assign, Declare, Expression, NewChannel, Type, Value};

/// Adds the mistakes in the value of a declaration, if it has one.
fn judge_given<'a>(
    around: &Surroundings<'_, 'a>,
    variables: &ScopeVariables<'a>,
    asked: ValueType,
    value: &Option<Value>,
    found: &mut Vec<Mistake>,
) -> Result<(), Memory>
    ensures { AddsAround around.now variables.now found.old.items found.new.items result
        (λ i. option_map_or (value_mistakes i asked) (option_map value_tree value.now) []) }
{
    match value {
        Some(value) => judge_value(around, variables, asked, value, found),
        None => Ok(()),
    }
}

/// Adds the mistakes in a declaration, and declares its variable.
pub(crate) fn judge_declare<'a>(
    around: &Surroundings<'_, 'a>,
    variables: &mut ScopeVariables<'a>,
    declare: &Declare,
    found: &mut Vec<Mistake>,
) -> Result<(), Memory>
    ensures { Turns around.now variables.old variables.new found.old.items found.new.items result
        (λ m. declaration_turn m (declare_tree declare.now)) }
{
    let scope = around.scope;
    let ty = scope.type_meant(declare.ty);
    judge_type(scope, declare.ty, found)?;
    judge_given(around, variables, ty, &declare.value, found)?;
    let variable = ScopeVariable {
        name: declare.name,
        ty,
    };
    let heap = is_heap(declare.ty);
    variables.declare(scope.text, variable, heap, found)
}

/// Adds the mistakes in an assignment.
pub(crate) fn judge_assign<'a>(
    around: &Surroundings<'_, 'a>,
    variables: &ScopeVariables<'a>,
    assign: &Assign,
    found: &mut Vec<Mistake>,
) -> Result<(), Memory>
    ensures { AddsAround around.now variables.now found.old.items found.new.items result
        (λ i. target_mistakes i.scope (assign_tree assign.now).target
        ++ value_mistakes i (target_type i.scope (assign_tree assign.now).target)
        (assign_tree assign.now).value) }
{
    let asked = judge_target(around.scope, variables, &assign.target, found)?;
    judge_value(around, variables, asked, &assign.value, found)
}

/// Returns the type of what this name means.
pub(crate) fn held_type(scope: &Scope<'_>, variables: &ScopeVariables<'_>, name: Span) -> ValueType
    ensures { (p : ProgramText) (f : NameFrame) → IsScope p scope.now → IsNameFrame p.text f variables.now
        → result ≡ type_named (record { program = p; variables = f.variables }) name }
{
    match variables.find(scope.text, name) {
        Some(variable) => variable.ty,
        None => ValueType::Unknown,
    }
}

/// Adds the name if no variable in scope has it.
pub(crate) fn judge_use(
    scope: &Scope<'_>,
    variables: &ScopeVariables<'_>,
    name: Span,
    found: &mut Vec<Mistake>,
) -> Result<(), Memory>
    ensures { AddsIn scope.now variables.now found.old.items found.new.items result
        (λ s. variable_mistakes s name) }
{
    judge_variable(scope, variables, name, found)?;
    Ok(())
}

/// Adds the mistakes in deleting the variable of this name.
pub(crate) fn judge_delete(
    scope: &Scope<'_>,
    variables: &ScopeVariables<'_>,
    name: Span,
    found: &mut Vec<Mistake>,
) -> Result<(), Memory>
    ensures { AddsIn scope.now variables.now found.old.items found.new.items result
        (λ s. delete_mistakes s name) }
{
    judge_use(scope, variables, name, found)?;
    let ty = held_type(scope, variables, name);
    let well = ty.is_silent() || ty.is_block();
    ask(well, name.place, Mismatch::Given(Demand::Block, ty), found)
}

/// Returns whether it is an end of the contract that is item `index`.
fn is_end_of(index: usize, ty: ValueType) -> bool
    ensures { result ≡ is_end_of index ty }
{
    match ty {
        ValueType::Endpoint(_, contract) => index == contract,
        _ => false,
    }
}

/// Returns whether both are the same end of a channel.
fn same_end(first: ValueType, second: ValueType) -> bool
    ensures { result ≡ same_end first second }
{
    match (first, second) {
        (ValueType::Endpoint(first, _), ValueType::Endpoint(second, _)) => first == second,
        _ => false,
    }
}

/// Returns what is asked of the second end of a new channel of the contract that is item `index`: the opposite end, if
/// the first one is an end of it.
fn demand_beside(index: usize, first: ValueType) -> Demand
    ensures { result ≡ demand_beside index first }
{
    match first {
        ValueType::Endpoint(Side::Imp, contract) if index == contract => {
            Demand::OfType(ValueType::Endpoint(Side::Exp, index))
        }
        ValueType::Endpoint(Side::Exp, contract) if index == contract => {
            Demand::OfType(ValueType::Endpoint(Side::Imp, index))
        }
        _ => Demand::EndOf(index),
    }
}

/// Adds the mistakes in the types of the two ends of a new channel of a contract.
fn judge_ends(
    index: usize,
    types: (ValueType, ValueType),
    first: Span,
    second: Span,
    found: &mut Vec<Mistake>,
) -> Result<(), Memory>
    ensures { OnOk result (Adds found.old.items found.new.items (ends_mistakes index types.0 types.1 first second)) }
{
    let (left, right) = types;
    let is_left = is_end_of(index, left);
    let first_mismatch = Mismatch::Given(Demand::EndOf(index), left);
    ask(
        left.is_silent() || is_left,
        first.place,
        first_mismatch,
        found,
    )?;
    let apart = !(is_left && same_end(left, right));
    let well = right.is_silent() || (is_end_of(index, right) && apart);
    let second_mismatch = Mismatch::Given(demand_beside(index, left), right);
    ask(well, second.place, second_mismatch, found)
}

/// Adds the mistakes in the contract and in the types of the ends of a new channel.
fn judge_new_ends(
    scope: &Scope<'_>,
    variables: &ScopeVariables<'_>,
    channel: NewChannel,
    found: &mut Vec<Mistake>,
) -> Result<(), Memory>
    ensures { AddsIn scope.now variables.now found.old.items found.new.items result
        (λ s. option_map_or (λ c. ends_mistakes c.0 (type_named s channel.first) (type_named s channel.second) channel.first
        channel.second) (contract_named s.program channel.contract) (Mistake.Unknown channel.contract NameSort.Contract ∷ [])) }
{
    let left = held_type(scope, variables, channel.first);
    let right = held_type(scope, variables, channel.second);
    match scope.contract_index(channel.contract) {
        Some(index) => judge_ends(index, (left, right), channel.first, channel.second, found),
        None => add_unknown(channel.contract, NameSort::Contract, found),
    }
}

/// Adds the mistakes in a new channel.
pub(crate) fn judge_channel(
    scope: &Scope<'_>,
    variables: &ScopeVariables<'_>,
    channel: NewChannel,
    found: &mut Vec<Mistake>,
) -> Result<(), Memory>
    ensures { AddsIn scope.now variables.now found.old.items found.new.items result
        (λ s. channel_mistakes s channel.contract channel.first channel.second) }
{
    judge_new_ends(scope, variables, channel, found)?;
    judge_use(scope, variables, channel.first, found)?;
    judge_use(scope, variables, channel.second, found)
}

/// Adds the mistakes in a value that a void method returns.
fn judge_needless(
    context: &NameContext<'_, '_>,
    word: Span,
    value: &Option<Box<Expression>>,
    found: &mut Vec<Mistake>,
) -> Result<(), Memory>
    ensures { AddsHere context.now found.old.items found.new.items result
        (λ s. return_mistakes s None word (option_map (λ e. expression_tree e.value) value.now)) }
{
    match value {
        Some(value) => {
            judge_whole(context.scope, context.variables, value, found)?;
            add_wrong_type(word.place, Mismatch::ValueReturned, found)
        }
        None => Ok(()),
    }
}

/// Adds the mistakes in a `return` of a method that gives a value.
fn judge_returned(
    context: &NameContext<'_, '_>,
    asked: Type,
    word: Span,
    value: &Option<Box<Expression>>,
    found: &mut Vec<Mistake>,
) -> Result<(), Memory>
    ensures { AddsHere context.now found.old.items found.new.items result
        (λ s. return_mistakes s (Some asked) word
        (option_map (λ e. expression_tree e.value) value.now)) }
{
    let NameContext {
        scope,
        variables,
        ..
    } = *context;
    let ty = scope.type_meant(asked);
    match value {
        Some(value) => judge_asked(scope, variables, ty, value, found),
        None => add_wrong_type(word.place, Mismatch::NoValue(ty), found),
    }
}

/// Adds the mistakes in a `return`.
pub(crate) fn judge_return(
    context: &NameContext<'_, '_>,
    asked: Option<Type>,
    word: Span,
    value: &Option<Box<Expression>>,
    found: &mut Vec<Mistake>,
) -> Result<(), Memory>
    ensures { AddsHere context.now found.old.items found.new.items result
        (λ s. return_mistakes s asked word (option_map (λ e. expression_tree e.value) value.now)) }
{
    match asked {
        Some(asked) => judge_returned(context, asked, word, value, found),
        None => judge_needless(context, word, value, found),
    }
}
