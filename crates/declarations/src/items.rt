//! Mistakes in the names of items, and within structs.

ghost use Rattle.std.specs.Prelude.{◌≡◌, ◌++◌, map, IfOk, OnOk};
ghost use Rattle.std.specs.List.{flat_map};
ghost use Rattle.tree.specs.Trees.{ClassTree, StructTree, item_tree, definition_tree, method_tree};
ghost use Rattle.declarations.specs.Mistakes.{Adds};
ghost use Rattle.declarations.specs.ItemMistakes.{struct_mistakes, items_mistakes, methods_in};
ghost use Rattle.declarations.specs.Types.{type_unknown};
ghost use Rattle.declarations.specs.Listed.{twice_among};
ghost use Rattle.declarations.specs.Program.{ProgramText};
ghost use Rattle.declarations.specs.Scopes.{IsScope, AreFieldsOf, AreMethods};

use crate::fields::{Fields, names_of_fields};
use crate::judging::{judge_limit, judge_twice};
use crate::members::{ClassMethods, names_of_methods};
use crate::mistake::{Limit, Mistake};
use crate::scope::{Scope, names_of_items};
use crate::types::judge_type;
use source::{Memory, Span};
use std::alloc::{AllocError, Global};
use tree::{Definition, Field, Item, Method};

/// Adds a mistake for each item whose name an earlier one has, and one at the first method past the limit.
///
/// # Errors
/// `Memory` if an allocation fails.
pub fn judge_items(alloc: Global, scope: &Scope<'_>, found: &mut Vec<Mistake>) -> Result<(), Memory>
    ensures { (p : ProgramText) → IsScope p scope.now → OnOk result (Adds found.old.items found.new.items (items_mistakes p)) }
{
    let names = names_of_items(alloc, scope.items)?;
    judge_twice(scope.text, &scope.names, &names, found)?;
    let methods = all_method_names(alloc, scope.items)?;
    judge_limit(Limit::Methods, &methods, found)
}

/// Adds the mistakes in a struct: each field whose name an earlier one has, the undeclared names in the types of its
/// fields, and the first owning field past the limit.
///
/// # Errors
/// `Memory` if an allocation fails.
pub fn judge_struct(
    alloc: Global,
    scope: &Scope<'_>,
    fields: &Fields<'_>,
    found: &mut Vec<Mistake>,
) -> Result<(), Memory>
    ensures { (p : ProgramText) (s : StructTree) → IsScope p scope.now → AreFieldsOf p.text s fields.now
        → OnOk result (Adds found.old.items found.new.items (struct_mistakes p s)) }
{
    let names = names_of_fields(alloc, fields.list)?;
    judge_twice(scope.text, &fields.table, &names, found)?;
    judge_types(scope, fields.list, found)?;
    let owning = names_of_fields(alloc, &fields.owning)?;
    judge_limit(Limit::Fields, &owning, found)
}

fn judge_types(scope: &Scope<'_>, fields: &[Field], found: &mut Vec<Mistake>) -> Result<(), Memory>
    ensures { (p : ProgramText) → IsScope p scope.now
        → OnOk result (Adds found.old.items found.new.items (flat_map (λ f. type_unknown p f.ty) fields.now)) }
{
    for field in fields {
        judge_type(scope, field.ty, found)?;
    }
    Ok(())
}

/// Adds a mistake for each method of a class whose name an earlier one has.
///
/// # Errors
/// `Memory` if an allocation fails.
pub fn judge_method_names(
    alloc: Global,
    scope: &Scope<'_>,
    methods: &ClassMethods<'_>,
    found: &mut Vec<Mistake>,
) -> Result<(), Memory>
    ensures { (p : ProgramText) (c : ClassTree) → IsScope p scope.now → AreMethods p.text c methods.now
        → OnOk result (Adds found.old.items found.new.items (twice_among p.text (map (λ m. m.name) c.methods))) }
{
    let names = names_of_methods(alloc, methods.list)?;
    judge_twice(scope.text, &methods.table, &names, found)
}

/// Returns the names of all methods in these items, in order.
fn all_method_names(alloc: Global, items: &[Item]) -> Result<Vec<Span>, AllocError>
    ensures { IfOk result (λ names. names.items ≡ map (λ m. m.name) (flat_map (λ i. methods_in i.definition) (map item_tree items.now))) }
{
    let mut names = Vec::new(alloc);
    for item in items {
        add_names(&mut names, methods_of(&item.definition))?;
    }
    Ok(names)
}

fn add_names(names: &mut Vec<Span>, methods: &[Method]) -> Result<(), AllocError>
    ensures { OnOk result (names.new.items ≡ names.old.items ++ map (λ m. m.name) (map method_tree methods.now)) }
{
    for method in methods {
        names.push(method.name)?;
    }
    Ok(())
}

/// Returns the methods of a class; none for any other definition.
fn methods_of(definition: &Definition) -> &[Method]
    ensures { map method_tree result.now ≡ methods_in (definition_tree definition.now) }
{
    match definition {
        Definition::Class(class) => &class.methods,
        _ => &[],
    }
}
