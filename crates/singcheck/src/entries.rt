//! Methods by their names, and the names of structs.

ghost use Rattle.std.specs.Prelude.{◌≡◌, ◌≢◌, ◌++◌, ◌<◌, ◌^◌, ℕ, List, IfNone, IfOk, IfSome, OnOk, length, map, string_bytes, true, false};
ghost use Rattle.program.specs.Lists.{Each};
ghost use Rattle.tree.specs.Trees.{definition_tree, method_tree, program_tree};
ghost use Rattle.singcheck.specs.Replays.{IsFirstAt, full_name, method_names, names_in, struct_in, struct_names};

use source::{Memory, Span};
use std::alloc::Global;
use tree::{Class, Definition, Method, Tree};

/// Whether the entry is the name of a class, a dot and the name of a method of it.
fn is_named(text: &[u8], class: Span, method: &Method, entry: &[u8]) -> bool
    ensures yes { result ≡ true → full_name text.now class (method_tree method.now) ≡ entry.now }
    ensures no { result ≡ false → full_name text.now class (method_tree method.now) ≢ entry.now }
{
    let Some(rest) = entry.strip_prefix(class.slice(text)) else {
        return false;
    };
    let Some(name) = rest.strip_prefix(b".") else {
        return false;
    };
    name == method.name.slice(text)
}

/// Returns the index, among the methods of a class, of the first that has this name.
fn index_among(text: &[u8], class: Span, methods: &[Method], entry: &[u8]) -> Option<usize>
    ensures some { IfSome result (IsFirstAt (map (full_name text.now class) (map method_tree methods.now)) entry.now) }
    ensures none { IfNone result (Each (λ x. x ≢ entry.now) (map (full_name text.now class) (map method_tree methods.now))) }
{
    for (index, method) in methods.iter().enumerate() {
        if is_named(text, class, method, entry) {
            return Some(index);
        }
    }
    None
}

/// Returns the index, among the methods of an item, of the first that has this name. `None` if the item is no class.
pub(crate) fn index_in(text: &[u8], definition: &Definition, entry: &[u8]) -> Option<usize>
    ensures some { IfSome result (IsFirstAt (names_in text.now (definition_tree definition.now)) entry.now) }
    ensures none { IfNone result (Each (λ x. x ≢ entry.now) (names_in text.now (definition_tree definition.now))) }
{
    match definition {
        Definition::Class(class) => index_among(text, class.name, &class.methods, entry),
        Definition::Contract(_) | Definition::Struct(_) => None,
    }
}

/// Returns the number of methods of an item.
fn methods_of(definition: &Definition) -> usize
    ensures { (text : List ℕ) → result ≡ length (names_in text (definition_tree definition.now)) }
{
    match definition {
        Definition::Class(class) => class.methods.len(),
        Definition::Contract(_) | Definition::Struct(_) => 0,
    }
}

/// Returns the index, among all methods of the text, of the first that has this name.
pub(crate) fn entry_index(text: &[u8], tree: &Tree, entry: &[u8]) -> Option<usize>
    requires few { length (method_names text.now (program_tree tree.now)) < 2 ^ 32 }
    ensures some { IfSome result (IsFirstAt (method_names text.now (program_tree tree.now)) entry.now) }
    ensures none { IfNone result (Each (λ x. x ≢ entry.now) (method_names text.now (program_tree tree.now))) }
{
    let mut before = 0;
    for item in &tree.items {
        if let Some(index) = index_in(text, &item.definition, entry) {
            return Some(before + index);
        }
        before += methods_of(&item.definition);
    }
    None
}

/// Returns the name of a method with that of its class: `Class.Method`.
pub(crate) fn method_name(
    alloc: Global,
    text: &[u8],
    class: Span,
    method: &Method,
) -> Result<Vec<u8>, Memory>
    ensures { IfOk result (λ name. name.items ≡ full_name text.now class (method_tree method.now)) }
{
    let mut name = Vec::new(alloc);
    name.extend_from_slice(class.slice(text))?;
    name.extend_from_slice(b".")?;
    name.extend_from_slice(method.name.slice(text))?;
    Ok(name)
}

/// Adds the names of the methods of a class.
fn add_methods_of(
    alloc: Global,
    text: &[u8],
    class: &Class,
    names: &mut Vec<Vec<u8>>,
) -> Result<(), Memory>
    ensures { OnOk result (map (λ name. name.items) names.new.items
        ≡ map (λ name. name.items) names.old.items ++ map (full_name text.now class.now.name) (map method_tree class.now.methods.items)) }
{
    for method in &class.methods {
        names.push(method_name(alloc, text, class.name, method)?)?;
    }
    Ok(())
}

/// Adds the names of the methods of an item, if it is a class.
fn add_methods(
    alloc: Global,
    text: &[u8],
    definition: &Definition,
    names: &mut Vec<Vec<u8>>,
) -> Result<(), Memory>
    ensures { OnOk result (map (λ name. name.items) names.new.items
        ≡ map (λ name. name.items) names.old.items ++ names_in text.now (definition_tree definition.now)) }
{
    match definition {
        Definition::Class(class) => add_methods_of(alloc, text, class, names),
        Definition::Contract(_) | Definition::Struct(_) => Ok(()),
    }
}

/// Returns the names of the methods of a text, `Class.Method`, in order.
pub(crate) fn method_names(alloc: Global, text: &[u8], tree: &Tree) -> Result<Vec<Vec<u8>>, Memory>
    ensures { IfOk result (λ names. map (λ name. name.items) names.items ≡ method_names text.now (program_tree tree.now)) }
{
    let mut names = Vec::new(alloc);
    for item in &tree.items {
        add_methods(alloc, text, &item.definition, &mut names)?;
    }
    Ok(names)
}

/// Adds the printed name of an item, if it is a struct.
fn add_struct(
    alloc: Global,
    text: &[u8],
    definition: &Definition,
    names: &mut Vec<String>,
) -> Result<(), Memory>
    ensures { OnOk result (map string_bytes names.new.items
        ≡ map string_bytes names.old.items ++ struct_in text.now (definition_tree definition.now)) }
{
    if let Definition::Struct(told) = definition {
        names.push(String::from_utf8_lossy(alloc, told.name.slice(text))?)?;
    }
    Ok(())
}

/// Returns the printed names of the structs of a text, in order.
pub(crate) fn struct_names(alloc: Global, text: &[u8], tree: &Tree) -> Result<Vec<String>, Memory>
    ensures { IfOk result (λ names. map string_bytes names.items ≡ struct_names text.now (program_tree tree.now)) }
{
    let mut names = Vec::new(alloc);
    for item in &tree.items {
        add_struct(alloc, text, &item.definition, &mut names)?;
    }
    Ok(names)
}
