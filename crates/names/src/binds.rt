//! Mistakes in what the cases of a switch bind.

ghost use Rattle.std.specs.Prelude.{◌≡◌, ◌++◌, List, Option, OnOk, false, option_map, slice_get};
ghost use Rattle.std.specs.Option.{option_map_or};
ghost use Rattle.tree.specs.Trees.{message_tree};
ghost use Rattle.program.specs.declared.types.Side.{Side};
ghost use Rattle.tree.specs.declared.contract.MessageParameter.{MessageParameter};
ghost use Rattle.names.specs.Cases.{bind_turn, binds_turn};
ghost use Rattle.declarations.specs.Types.{brought_type};
ghost use Rattle.declarations.specs.Mistakes.{Adds};
ghost use Rattle.names.specs.Frames.{IsNameFrame, Turned};
ghost use Rattle.declarations.specs.Types.{is_heap, type_meant, type_unknown};
ghost use Rattle.names.specs.Expressions.{type_asked};
ghost use Rattle.declarations.specs.Program.{ProgramText};
ghost use Rattle.declarations.specs.Scopes.{IsScope};
ghost use Rattle.names.specs.Variables.{NameFrame, declared_variable};

use crate::operands::ask;
use crate::variables::{ScopeVariable, ScopeVariables};
use declarations::{Demand, Mismatch, Mistake, Scope, ValueType, is_heap, judge_type};
use source::{Memory, Span};
use tree::{Bind, MessageParameter, Type};

/// Returns the type of what a message brings for this parameter; unknown if there is no parameter.
fn brought_type(scope: &Scope<'_>, parameter: Option<&MessageParameter>) -> ValueType
    ensures { (p : ProgramText) → IsScope p scope.now → result ≡ brought_type p (option_map (λ x. x.now) parameter.entry) }
{
    match parameter {
        Some(parameter) => scope.type_meant(parameter.ty),
        None => ValueType::Unknown,
    }
}

/// Returns whether a message brings something of the exchange heap for this parameter.
fn brings_heap(parameter: Option<&MessageParameter>) -> bool
    ensures { result ≡ option_map_or (λ x. is_heap x.ty) (option_map (λ x. x.now) parameter.entry) false }
{
    match parameter {
        Some(parameter) => is_heap(parameter.ty),
        None => false,
    }
}

/// Adds the mistakes in the written type of a name that is bound to something of type `brought`.
fn judge_bound_type(
    scope: &Scope<'_>,
    written: Type,
    brought: ValueType,
    name: Span,
    found: &mut Vec<Mistake>,
) -> Result<(), Memory>
    ensures { (p : ProgramText) → IsScope p scope.now → OnOk result
        (Adds found.old.items found.new.items (type_unknown p written ++ type_asked brought (type_meant p written) name.place)) }
{
    judge_type(scope, written, found)?;
    let bound = scope.type_meant(written);
    let mismatch = Mismatch::Given(Demand::OfType(brought), bound);
    ask(bound.agrees(brought), name.place, mismatch, found)
}

/// Declares a variable in the scope of a program unless one in scope has its name, and adds the mistakes in the declaration.
fn declare_in<'a>(
    scope: &Scope<'a>,
    variables: &mut ScopeVariables<'a>,
    variable: ScopeVariable,
    heap: bool,
    found: &mut Vec<Mistake>,
) -> Result<(), Memory>
    ensures { (p : ProgramText) (f : NameFrame) → IsScope p scope.now → IsNameFrame p.text f variables.old
        → OnOk result (Turned p.text found.old.items found.new.items variables.new
        (declared_variable p.text variable.name variable.ty heap f)) }
{
    variables.declare(scope.text, variable, heap, found)
}

/// Adds the mistakes in a name that a case binds, and declares it.
fn judge_bind<'a>(
    scope: &Scope<'a>,
    variables: &mut ScopeVariables<'a>,
    parameter: Option<&MessageParameter>,
    bind: Bind,
    found: &mut Vec<Mistake>,
) -> Result<(), Memory>
    ensures { (p : ProgramText) (f : NameFrame) → IsScope p scope.now → IsNameFrame p.text f variables.old → OnOk result
        (Turned p.text found.old.items found.new.items variables.new
        (bind_turn p (option_map (λ x. x.now) parameter.entry) bind.name bind.ty f)) }
{
    let brought = brought_type(scope, parameter);
    match bind.ty {
        Some(written) => {
            judge_bound_type(scope, written, brought, bind.name, found)?;
            let variable = ScopeVariable {
                name: bind.name,
                ty: scope.type_meant(written),
            };
            declare_in(scope, variables, variable, is_heap(written), found)
        }
        None => {
            let variable = ScopeVariable {
                name: bind.name,
                ty: brought,
            };
            let heap = brings_heap(parameter);
            declare_in(scope, variables, variable, heap, found)
        }
    }
}

fn parameter_at(parameters: &[MessageParameter], index: usize) -> Option<&MessageParameter>
    ensures { option_map (λ x. x.now) result ≡ slice_get parameters.now index }
{
    parameters.get(index)
}

/// Adds the mistakes in the names that a case binds for these parameters, and declares them.
pub(crate) fn judge_bound<'a>(
    scope: &Scope<'a>,
    variables: &mut ScopeVariables<'a>,
    parameters: &[MessageParameter],
    binds: &[Bind],
    found: &mut Vec<Mistake>,
) -> Result<(), Memory>
    ensures { (p : ProgramText) (f : NameFrame) → IsScope p scope.now → IsNameFrame p.text f variables.old
        → OnOk result (Turned p.text found.old.items found.new.items variables.new (binds_turn p parameters.now binds.now f)) }
{
    for (index, bind) in binds.iter().enumerate() {
        let parameter = parameter_at(parameters, index);
        judge_bind(scope, variables, parameter, *bind, found)?;
    }
    Ok(())
}
