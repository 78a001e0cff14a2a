//! The items of a program by name.

ghost use Rattle.std.specs.Prelude.{◌≡◌, IfOk, map, Option, option_map, option_and_then, slice_get};
ghost use Rattle.std.specs.Option.{option_copied};
ghost use Rattle.tree.specs.Trees.{item_tree, definition_tree, defined_name};
ghost use Rattle.declarations.specs.Declarations.{first_among};
ghost use Rattle.declarations.specs.Program.{ProgramText, contract_named, struct_named, class_named, item_at};
ghost use Rattle.declarations.specs.Program.{item_names, as_contract, as_struct, as_class};
ghost use Rattle.declarations.specs.Named.{field_named};
ghost use Rattle.declarations.specs.Owning.{owning_named};
ghost use Rattle.declarations.specs.Scopes.{AllMembers};

use crate::fields::Fields;
use crate::members::{ClassMethods, Declared, Members};
use crate::noted::NotedTypes;
use source::Span;
use std::alloc::{AllocError, Global};
use tables::{Seed, Table};
use tree::{Field, Item};

/// The items of a text by name: what they declare, in order, and where each of their names is declared first. A name
/// means the first item that declares it.
#[derive(Drop)]
pub struct Scope<'a> {
    /// The text of the items.
    pub text: &'a [u8],
    /// The seed of the text.
    pub seed: Seed,
    pub(crate) items: &'a [Item],
    pub(crate) names: Table<'a>,
    pub(crate) members: Vec<Members<'a>>,
    pub(crate) noted: NotedTypes,
}

impl<'a> Scope<'a> {
    ghost use Rattle.declarations.specs.Scopes.{IsScope, IsContract, IsStruct, IsClass, as_declared, as_fields, as_methods};

    /// Returns the scope of these items.
    ///
    /// # Errors
    /// `AllocError` if an allocation fails.
    pub fn of(alloc: Global, text: &'a [u8], items: &'a [Item]) -> Result<Scope<'a>, AllocError>
        ensures { IfOk result (IsScope (record { text = text.now; items = map item_tree items.now })) }
    {
        let names = names_of_items(alloc, items)?;
        let seed = Seed::of(text);
        let names = Table::of(alloc, seed, text, &names)?;
        let members = members_of_items(alloc, seed, text, items)?;
        let mut scope = Scope {
            text,
            seed,
            items,
            names,
            members,
            noted: NotedTypes::new(alloc),
        };
        scope.noted = NotedTypes::of(alloc, &scope)?;
        Ok(scope)
    }

    /// Returns what each item declares, in order.
    pub fn members(&self) -> &[Members<'a>]
        ensures { result.now ≡ self.now.members.items }
    {
        &self.members
    }

    /// Returns the first item of this name, if it is a contract: its index among the items, and what it declares.
    pub(crate) fn contract(&self, name: Span) -> Option<(usize, &Declared<'a>)>
        ensures { (p : ProgramText) → IsScope p self.now
            → IsContract p.text (contract_named p name) (option_map (λ c. (c.0, c.1.now)) result) }
    {
        let index = self.index_of(name)?;
        let declared = self.contract_at(index)?;
        Some((index, declared))
    }

    /// Returns what the item at this index declares, if it is a contract.
    pub(crate) fn contract_at(&self, index: usize) -> Option<&Declared<'a>>
        ensures { (p : ProgramText) → IsScope p self.now
            → IsContract p.text (item_at as_contract p index) (option_map (λ d. (index, d.now)) result) }
    {
        self.declared_at(index)
    }

    /// Returns the first item of this name, if it is a struct: its index among the items, and its fields.
    pub(crate) fn structure(&self, name: Span) -> Option<(usize, &Fields<'a>)>
        ensures { (p : ProgramText) → IsScope p self.now → IsStruct p.text (struct_named p name) (option_map (λ s. (s.0, s.1.now)) result) }
    {
        let index = self.index_of(name)?;
        let fields = self.structure_at(index)?;
        Some((index, fields))
    }

    /// Returns the first item of this name, if it is a struct: its index among the items, and its owning fields, in order.
    pub fn owning_fields(&self, name: Span) -> Option<(usize, &[Field])>
        ensures { (p : ProgramText) → IsScope p self.now → owning_named p name ≡ option_map (λ s. (s.0, s.1.now)) result }
    {
        match self.structure(name) {
            Some((index, fields)) => Some((index, &fields.owning)),
            None => None,
        }
    }

    /// Returns the fields of the item at this index, if it is a struct.
    pub fn structure_at(&self, index: usize) -> Option<&Fields<'a>>
        ensures { (p : ProgramText) → IsScope p self.now
            → IsStruct p.text (item_at as_struct p index) (option_map (λ f. (index, f.now)) result) }
    {
        self.fields_at(index)
    }

    /// Returns the first field of this name in the struct that is the item at this index.
    pub fn field(&self, index: usize, name: Span) -> Option<Field>
        ensures { (p : ProgramText) → IsScope p self.now
            → result ≡ option_and_then (λ s. field_named p.text s.1 name) (item_at as_struct p index) }
    {
        let fields = self.fields_at(index)?;
        fields.find(self.text, name)
    }

    /// Returns the index of the first field of this name in the struct that is item `structure`.
    pub fn field_index(&self, structure: usize, name: Span) -> Option<usize>
        ensures { (p : ProgramText) → IsScope p self.now
            → result ≡ option_and_then (λ s. first_among p.text (map (λ f. f.name) s.1.fields) name) (item_at as_struct p structure) }
    {
        let fields = self.fields_at(structure)?;
        fields.index_of(self.text, name)
    }

    /// Returns the methods of the first item of this name, if it is a class.
    pub fn class(&self, name: Span) -> Option<&ClassMethods<'a>>
        ensures { (p : ProgramText) → IsScope p self.now → IsClass p.text (class_named p name) (option_map (λ m. m.now) result) }
    {
        let index = self.index_of(name)?;
        self.methods_at(index)
    }

    /// Returns the index of the first item of this name, if it is a class.
    pub fn class_index(&self, name: Span) -> Option<usize>
        ensures { (p : ProgramText) → IsScope p self.now → result ≡ option_map (λ c. c.0) (class_named p name) }
    {
        let index = self.index_of(name)?;
        let _methods = self.methods_at(index)?;
        Some(index)
    }

    /// Returns the index of the first method of this name in the class that is item `class`.
    pub fn method_index(&self, class: usize, name: Span) -> Option<usize>
        ensures { (p : ProgramText) → IsScope p self.now
            → result ≡ option_and_then (λ c. first_among p.text (map (λ m. m.name) c.1.methods) name) (item_at as_class p class) }
    {
        let methods = self.methods_at(class)?;
        methods.index_of(self.text, name)
    }

    /// Returns the index of the first item of this name.
    fn index_of(&self, name: Span) -> Option<usize>
        ensures { (p : ProgramText) → IsScope p self.now → result ≡ first_among p.text (item_names p) name }
    {
        self.names.find(name.slice(self.text))
    }

    fn declared_at(&self, index: usize) -> Option<&Declared<'a>>
        ensures { option_copied result ≡ option_and_then as_declared (slice_get self.now.members.items index) }
    {
        self.members.get(index)?.contract()
    }

    fn fields_at(&self, index: usize) -> Option<&Fields<'a>>
        ensures { option_copied result ≡ option_and_then as_fields (slice_get self.now.members.items index) }
    {
        self.members.get(index)?.fields()
    }

    fn methods_at(&self, index: usize) -> Option<&ClassMethods<'a>>
        ensures { option_copied result ≡ option_and_then as_methods (slice_get self.now.members.items index) }
    {
        self.members.get(index)?.methods()
    }
}

/// Returns the names of these items, in order.
pub(crate) fn names_of_items(alloc: Global, items: &[Item]) -> Result<Vec<Span>, AllocError>
    ensures { IfOk result (λ names. names.items ≡ map (λ i. defined_name (definition_tree i.definition)) items.now) }
{
    let mut names = Vec::new(alloc);
    for item in items {
        names.push(item.definition.name())?;
    }
    Ok(names)
}

/// Returns what these items declare, in order.
fn members_of_items<'a>(
    alloc: Global,
    seed: Seed,
    text: &'a [u8],
    items: &'a [Item],
) -> Result<Vec<Members<'a>>, AllocError>
    ensures { IfOk result (λ members. AllMembers text.now (map item_tree items.now) members.items) }
{
    let mut members = Vec::new(alloc);
    for item in items {
        members.push(Members::of(alloc, seed, text, &item.definition)?)?;
    }
    Ok(members)
}
