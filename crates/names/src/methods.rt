//! Mistakes in the names and types of classes.

ghost use Rattle.std.specs.Prelude.{OnOk, []};
ghost use Rattle.std.specs.List.{flat_map};
ghost use Rattle.std.specs.Option.{option_map_or};
ghost use Rattle.tree.specs.Trees.{ClassTree, method_tree};
ghost use Rattle.declarations.specs.Mistakes.{Adds};
ghost use Rattle.names.specs.Frames.{IsNameFrame, Turned};
ghost use Rattle.declarations.specs.Types.{type_unknown};
ghost use Rattle.names.specs.Methods.{parameter_turn, parameters_turn, method_turn, class_mistakes};
ghost use Rattle.declarations.specs.Program.{ProgramText};
ghost use Rattle.declarations.specs.Scopes.{IsScope, AreMethods};
ghost use Rattle.names.specs.Variables.{NameFrame};

use crate::statements::judge_block;
use crate::surroundings::Surroundings;
use crate::variables::{ScopeVariable, ScopeVariables};
use declarations::{ClassMethods, Mistake, Scope, is_heap, judge_method_names, judge_type};
use source::Memory;
use std::alloc::Global;
use tree::{Method, Parameter, Type};

/// Adds the mistakes in the names and types of a class.
pub(crate) fn judge_class<'a>(
    alloc: Global,
    scope: &Scope<'a>,
    methods: &ClassMethods<'a>,
    found: &mut Vec<Mistake>,
) -> Result<(), Memory>
    ensures { (p : ProgramText) (c : ClassTree) → IsScope p scope.now → AreMethods p.text c methods.now
        → OnOk result (Adds found.old.items found.new.items (class_mistakes p c)) }
{
    judge_method_names(alloc, scope, methods, found)?;
    judge_methods(alloc, scope, methods, found)
}

/// Adds the mistakes in the names and types of each method of a class.
fn judge_methods<'a>(
    alloc: Global,
    scope: &Scope<'a>,
    methods: &ClassMethods<'a>,
    found: &mut Vec<Mistake>,
) -> Result<(), Memory>
    ensures { (p : ProgramText) (c : ClassTree) → IsScope p scope.now → AreMethods p.text c methods.now
        → OnOk result (Adds found.old.items found.new.items (flat_map (λ m. (method_turn p c m).found) c.methods)) }
{
    for method in methods.list() {
        judge_method(alloc, scope, methods, method, found)?;
    }
    Ok(())
}

/// Adds the mistakes in the names and types of a method.
fn judge_method<'a>(
    alloc: Global,
    scope: &Scope<'a>,
    methods: &ClassMethods<'a>,
    method: &Method,
    found: &mut Vec<Mistake>,
) -> Result<(), Memory>
    ensures { (p : ProgramText) (c : ClassTree) → IsScope p scope.now → AreMethods p.text c methods.now
        → OnOk result (Adds found.old.items found.new.items (method_turn p c (method_tree method.now)).found) }
{
    judge_result(scope, method.result, found)?;
    let mut variables = ScopeVariables::new(alloc, scope.seed);
    judge_parameters(scope, &mut variables, &method.params, found)?;
    let around = Surroundings {
        alloc,
        scope,
        methods,
        result: method.result,
        breaks: false,
        continues: false,
    };
    judge_block(&around, &mut variables, &method.body, found)
}

/// Adds the undeclared names in the result type of a method, if it has one.
fn judge_result(
    scope: &Scope<'_>,
    written: Option<Type>,
    found: &mut Vec<Mistake>,
) -> Result<(), Memory>
    ensures { (p : ProgramText) → IsScope p scope.now → OnOk result (Adds found.old.items found.new.items
        (option_map_or (type_unknown p) written [])) }
{
    match written {
        Some(written) => judge_type(scope, written, found),
        None => Ok(()),
    }
}

/// Declares the parameters of a method, and adds the mistakes in them.
fn judge_parameters<'a>(
    scope: &Scope<'a>,
    variables: &mut ScopeVariables<'a>,
    params: &[Parameter],
    found: &mut Vec<Mistake>,
) -> Result<(), Memory>
    ensures { (p : ProgramText) (f : NameFrame) → IsScope p scope.now → IsNameFrame p.text f variables.old
        → OnOk result (Turned p.text found.old.items found.new.items variables.new (parameters_turn p params.now f)) }
{
    for parameter in params {
        judge_parameter(scope, variables, *parameter, found)?;
    }
    Ok(())
}

/// Declares a parameter, and adds the mistakes in it.
fn judge_parameter<'a>(
    scope: &Scope<'a>,
    variables: &mut ScopeVariables<'a>,
    parameter: Parameter,
    found: &mut Vec<Mistake>,
) -> Result<(), Memory>
    ensures { (p : ProgramText) (f : NameFrame) → IsScope p scope.now → IsNameFrame p.text f variables.old
        → OnOk result (Turned p.text found.old.items found.new.items variables.new (parameter_turn p parameter f)) }
{
    judge_type(scope, parameter.ty, found)?;
    let ty = scope.type_meant(parameter.ty);
    let heap = is_heap(parameter.ty);
    let variable = ScopeVariable {
        name: parameter.name,
        ty,
    };
    variables.declare(scope.text, variable, heap, found)
}
