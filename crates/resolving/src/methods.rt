//! The methods of a program.

ghost use Rattle.std.specs.Prelude.{◌≡◌, ◌≤◌, ◌<◌, ◌^◌, ◌++◌, ℕ, List, [], length, map, IfOk, OnOk};
ghost use Rattle.tree.specs.Trees.{ItemTree, contracts_of, program_tree, item_tree, definition_tree, method_tree};
ghost use Rattle.declarations.specs.ItemMistakes.{items_mistakes, methods_in};
ghost use Rattle.declarations.specs.Program as model;
ghost use Rattle.declarations.specs.Program.{program_of};
ghost use Rattle.program.specs.Parts.{contract_model};
ghost use Rattle.declarations.specs.Resolution.{resolved_contracts};
ghost use Rattle.program.specs.declared.limits.TheConstants.{MOST_METHODS};
ghost use Rattle.program.specs.Methods.{method_model};
ghost use Rattle.declarations.specs.Scopes.{IsScope};
ghost use Rattle.resolving.specs.Around.{IsAround, program_in};
ghost use Rattle.resolving.specs.Brought.{payload_types, messages_told};
ghost use Rattle.program.specs.Programs.{type_lists};
ghost use Rattle.resolving.specs.Callees.{all_methods};
ghost use Rattle.resolving.specs.Fields.{structs_told};
ghost use Rattle.resolving.specs.Frames.{IsLocalFrame};
ghost use Rattle.resolving.specs.Locals.{LocalFrame};
ghost use Rattle.resolving.specs.Methods.{methods_told, role_of, parameter_declaration, parameters_frame, method_told, takes_some};

use crate::around::{Around, Directory};
use crate::brought::add_brought;
use crate::counts::count_items;
use crate::fields::fields_of;
use crate::locals::{Declaration, Locals};
use crate::statements::tell_statements;
use crate::staying::Staying;
use crate::types::{result_held, type_held};
use declarations::Scope;
use program::{HeapType, Method, Resolved, Role};
use source::Memory;
use std::alloc::{AllocError, Global};
use tree::{Definition, Item, Parameter, Tree};

/// Returns the role of a parameter in its method.
fn role_of(parameter: Parameter) -> Role
    ensures { result ≡ role_of parameter }
{
    if parameter.claims {
        Role::Claimed
    } else {
        Role::Lent
    }
}

/// Returns what a parameter declares.
fn parameter_declaration(around: &Around<'_, '_>, parameter: Parameter) -> Declaration
    ensures { (p : model.ProgramText) (own : ℕ) → IsAround p own around.now → result ≡ parameter_declaration p parameter }
{
    Declaration {
        name: parameter.name,
        ty: around.directory.scope.type_meant(parameter.ty),
        held: type_held(&around.directory, parameter.ty),
        role: role_of(parameter),
    }
}

/// Returns whether a method with these parameters takes something.
fn takes_some(params: &[Parameter]) -> bool
    ensures { result ≡ takes_some params.now }
{
    match params {
        [] => false,
        [_, ..] => true,
    }
}

/// Declares the parameters of a method.
fn declare_parameters<'a>(
    text: &'a [u8],
    around: &Around<'_, '_>,
    locals: &mut Locals<'a>,
    params: &[Parameter],
) -> Result<(), AllocError>
    ensures { (items : List ItemTree) (own : ℕ) (f : LocalFrame) → IsAround (program_in text.now items) own around.now
        → IsLocalFrame text.now f locals.old → OnOk result
        (IsLocalFrame text.now (parameters_frame (program_in text.now items) params.now f) locals.new) }
{
    for parameter in params {
        locals.declare(
            around.alloc,
            text,
            parameter_declaration(around, *parameter),
        )?;
    }
    Ok(())
}

/// Returns a method with a number for each variable of the exchange heap.
fn resolve_method(
    text: &[u8],
    around: &Around<'_, '_>,
    method: &tree::Method,
) -> Result<Method, AllocError>
    ensures { (items : List ItemTree) (own : ℕ) → IsAround (program_in text.now items) own around.now
        → IfOk result (λ m. method_model m ≡ method_told (program_in text.now items) own (method_tree method.now)) }
{
    let mut locals = Locals::new(around.alloc, around.directory.scope.seed);
    declare_parameters(text, around, &mut locals, &method.params)?;
    let stays = Staying::here(locals.last());
    let body = &method.body.statements;
    let statements = tell_statements(text, around, &mut locals, stays, body)?;
    let scope = locals.last();
    Ok(Method {
        name: method.name.place,
        takes: takes_some(&method.params),
        gives: method.result.is_some(),
        result: result_held(&around.directory, method.result),
        variables: locals.into_variables(),
        statements,
        scope,
        close: method.body.close.place,
    })
}

/// Returns the methods of a class; none for any other definition.
pub(crate) fn methods_of(definition: &Definition) -> &[tree::Method]
    ensures { map method_tree result.now ≡ methods_in (definition_tree definition.now) }
{
    match definition {
        Definition::Class(class) => &class.methods,
        _ => &[],
    }
}

/// Resolves these methods and adds them.
fn add_methods(
    text: &[u8],
    around: &Around<'_, '_>,
    methods: &[tree::Method],
    resolved: &mut Vec<Method>,
) -> Result<(), AllocError>
    ensures { (items : List ItemTree) (own : ℕ) → IsAround (program_in text.now items) own around.now
        → OnOk result (map method_model resolved.new.items ≡ map method_model resolved.old.items
        ++ map (method_told (program_in text.now items) own) (map method_tree methods.now)) }
{
    for method in methods {
        resolved.push(resolve_method(text, around, method)?)?;
    }
    Ok(())
}

/// The messages, structs and methods of a program, in order of the text: what a message brings for each of its
/// parameters of the exchange heap, what a struct holds in its owning fields, and each method with its names resolved.
#[derive(Drop)]
pub struct ResolvedProgram {
    pub messages: Vec<Vec<HeapType>>,
    pub structs: Vec<Vec<HeapType>>,
    pub methods: Vec<Method>,
}

/// Returns the messages, structs and methods of these items, in order of the text.
fn resolve_items<'a>(
    alloc: Global,
    text: &[u8],
    scope: &Scope<'a>,
    contracts: &Resolved,
    items: &'a [Item],
) -> Result<ResolvedProgram, AllocError>
    requires contracts { map contract_model contracts.now.contracts.items
        ≡ resolved_contracts text.now (contracts_of (map item_tree items.now)) }
    requires room { length contracts.now.contracts.items < 2 ^ 32 }
    requires scope { IsScope (program_in text.now (map item_tree items.now)) scope.now }
    requires few { length (all_methods (map item_tree items.now)) ≤ MOST_METHODS }
    ensures messages { IfOk result (λ program. type_lists program.messages.items
        ≡ messages_told (program_in text.now (map item_tree items.now))) }
    ensures structs { IfOk result (λ program. type_lists program.structs.items
        ≡ structs_told (program_in text.now (map item_tree items.now))) }
    ensures methods { IfOk result (λ program. map method_model program.methods.items
        ≡ methods_told (program_in text.now (map item_tree items.now))) }
{
    let before = count_items(alloc, items)?;
    let directory = Directory {
        scope,
        resolved: contracts,
        before: &before,
    };
    let fields = fields_of(alloc, &directory, items)?;
    let mut messages = Vec::new(alloc);
    let mut resolved = Vec::new(alloc);
    for (class, item) in items.iter().enumerate() {
        let around = Around {
            alloc,
            directory,
            items,
            owning: &fields.indices,
            class,
        };
        let methods = methods_of(&item.definition);
        add_brought(alloc, &directory, &item.definition, &mut messages)?;
        add_methods(text, &around, methods, &mut resolved)?;
    }
    Ok(ResolvedProgram {
        messages,
        structs: fields.structs,
        methods: resolved,
    })
}

/// Returns the messages, structs and methods of a program, in order of the text. Each variable of the exchange heap
/// becomes a number, and scalars are dropped. A use means the variable of its name in scope.
///
/// The names of the items must be without mistakes, and `contracts` are the resolved contracts of the program.
///
/// # Errors
/// `Memory` if an allocation fails.
pub fn resolve_methods(
    alloc: Global,
    tree: &Tree,
    text: &[u8],
    contracts: &Resolved,
) -> Result<ResolvedProgram, Memory>
    requires contracts { map contract_model contracts.now.contracts.items
        ≡ resolved_contracts text.now (contracts_of (program_tree tree.now)) }
    requires room { length contracts.now.contracts.items < 2 ^ 32 }
    requires clean { items_mistakes (program_of text.now tree.now) ≡ [] }
    ensures messages { IfOk result (λ program. type_lists program.messages.items ≡ messages_told (program_of text.now tree.now)) }
    ensures structs { IfOk result (λ program. type_lists program.structs.items ≡ structs_told (program_of text.now tree.now)) }
    ensures resolved { IfOk result (λ program. map method_model program.methods.items
        ≡ methods_told (program_of text.now tree.now)) }
    ensures few { IfOk result (λ program. length program.methods.items ≤ MOST_METHODS) }
{
    let scope = Scope::of(alloc, text, &tree.items)?;
    let program = resolve_items(alloc, text, &scope, contracts, &tree.items)?;
    Ok(program)
}
