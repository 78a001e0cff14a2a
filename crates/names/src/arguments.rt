//! Mistakes in the names and types of arguments.

ghost use Rattle.std.specs.Prelude.{◌≡◌, map, take, IfOk, slice_get};
ghost use Rattle.tree.specs.ExpressionTrees.{expression_tree};
ghost use Rattle.tree.specs.declared.types.«Type».{«Type» as TypeModel};
ghost use Rattle.declarations.specs.Types.{type_meant};
ghost use Rattle.declarations.specs.Program.{ProgramText};
ghost use Rattle.declarations.specs.Scopes.{IsScope};
ghost use Rattle.names.specs.Shapes.{shape};
ghost use Rattle.names.specs.Values.{argument_asked, argument_mistakes};
ghost use Rattle.names.specs.Operands.{AddsIn, shapes_of};

use crate::expressions::judge_whole;
use crate::variables::ScopeVariables;
use crate::wholes::judge_asked;
use declarations::{Mistake, Scope, ValueType};
use source::Memory;
use std::alloc::Global;
use tree::{Expression, Field, MessageParameter, Parameter, Type};

/// Adds the mistakes in an argument. `asked` is the type of its parameter, if there is one.
fn judge_argument(
    scope: &Scope<'_>,
    variables: &ScopeVariables<'_>,
    asked: Option<ValueType>,
    argument: &Expression,
    found: &mut Vec<Mistake>,
) -> Result<(), Memory>
    ensures { AddsIn scope.now variables.now found.old.items found.new.items result
        (λ s. argument_asked s asked (shape (expression_tree argument.now))) }
{
    match asked {
        Some(ty) => judge_asked(scope, variables, ty, argument, found),
        None => {
            judge_whole(scope, variables, argument, found)?;
            Ok(())
        }
    }
}

fn type_at(types: &[ValueType], index: usize) -> Option<ValueType>
    ensures { result ≡ slice_get types.now index }
{
    types.get(index).copied()
}

/// Adds the mistakes in arguments for parameters of these types.
pub(crate) fn judge_arguments(
    scope: &Scope<'_>,
    variables: &ScopeVariables<'_>,
    asked: &[ValueType],
    arguments: &[Expression],
    found: &mut Vec<Mistake>,
) -> Result<(), Memory>
    ensures { AddsIn scope.now variables.now found.old.items found.new.items result
        (λ s. argument_mistakes s asked.now (shapes_of arguments.now)) }
{
    for (index, argument) in arguments.iter().enumerate() {
        let ty = type_at(asked, index);
        judge_argument(scope, variables, ty, argument, found)?;
    }
    Ok(())
}

/// Something that has a type in a text: a parameter of a method or of a message, or a field.
pub(crate) trait Typed {
    /// Its type.
    ghost as_written: { Self → TypeModel };

    /// Returns its type.
    fn written_type(&self) -> Type
        ensures { result ≡ as_written self.now };
}

impl Typed for Parameter {
    ghost as_written = { λ x. x.ty };

    fn written_type(&self) -> Type {
        self.ty
    }
}

impl Typed for MessageParameter {
    ghost as_written = { λ x. x.ty };

    fn written_type(&self) -> Type {
        self.ty
    }
}

impl Typed for Field {
    ghost as_written = { λ x. x.ty };

    fn written_type(&self) -> Type {
        self.ty
    }
}

/// Returns the types of the first `most` of these parameters or fields.
fn types_of<T: Typed>(
    alloc: Global,
    scope: &Scope<'_>,
    typed: &[T],
    most: usize,
) -> Result<Vec<ValueType>, Memory>
    ensures { IfOk result (λ types. (p : ProgramText) → IsScope p scope.now
        → types.items ≡ map (λ x. type_meant p (T.as_written x)) (take most typed.now)) }
{
    let mut types = Vec::new(alloc);
    for one in &typed[..most.min(typed.len())] {
        types.push(scope.type_meant(one.written_type()))?;
    }
    Ok(types)
}

/// Adds the mistakes in arguments for these parameters or fields.
pub(crate) fn judge_typed_arguments<T: Typed>(
    alloc: Global,
    scope: &Scope<'_>,
    variables: &ScopeVariables<'_>,
    typed: &[T],
    arguments: &[Expression],
    found: &mut Vec<Mistake>,
) -> Result<(), Memory>
    ensures { AddsIn scope.now variables.now found.old.items found.new.items result
        (λ s. argument_mistakes s (map (λ x. type_meant s.program (T.as_written x)) typed.now)
        (shapes_of arguments.now)) }
{
    let types = types_of(alloc, scope, typed, arguments.len())?;
    judge_arguments(scope, variables, &types, arguments, found)
}
