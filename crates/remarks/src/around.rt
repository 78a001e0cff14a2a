//! The item and the method around a place of the text, and items by what they declare.

ghost use Rattle.std.specs.Prelude.{◌≡◌, find, map, option_and_then, option_map, reverse};
ghost use Rattle.std.specs.Prelude.{slice_get};
ghost use Rattle.declarations.specs.Declarations.{first_among};
ghost use Rattle.declarations.specs.Program.{as_class, as_contract, as_struct, item_names};
ghost use Rattle.nearest.specs.Locals.{is_before};
ghost use Rattle.remarks.specs.Candidates.{class_meant, contract_meant, item_around, item_meant};
ghost use Rattle.remarks.specs.Candidates.{method_around, struct_meant};
ghost use Rattle.remarks.specs.Listings.{program_model};
ghost use Rattle.tree.specs.Trees.{class_tree, contract_tree, definition_tree, item_tree};
ghost use Rattle.tree.specs.Trees.{method_tree, struct_tree};

use crate::listing::ItemListing;
use nearest::is_before;
use source::{Place, Span};
use tree::{Class, Contract, Definition, Item, Method, Struct};

impl<'a> ItemListing<'a> {
    /// Returns the contract that is the item of this number, or without a number the one around a place.
    pub(crate) fn contract_meant(&self, place: Place, number: Option<usize>) -> Option<&'a Contract>
        ensures { option_map (λ c. contract_tree c.now) result
            ≡ contract_meant (program_model self.now) place number }
    {
        as_contract(&self.item_meant(place, number)?.definition)
    }

    /// Returns the struct that is the item of this number, or without a number the one around a place.
    pub(crate) fn struct_meant(&self, place: Place, number: Option<usize>) -> Option<&'a Struct>
        ensures { option_map (λ s. struct_tree s.now) result
            ≡ struct_meant (program_model self.now) place number }
    {
        as_struct(&self.item_meant(place, number)?.definition)
    }

    /// Returns the class of this name, or without a name the one around a place.
    pub(crate) fn class_meant(&self, place: Place, name: Option<Span>) -> Option<&'a Class>
        ensures { option_map (λ c. class_tree c.now) result
            ≡ class_meant (program_model self.now) place name }
    {
        match name {
            Some(name) => as_class(&self.item_named(name)?.definition),
            None => as_class(&self.item_around(place)?.definition),
        }
    }

    /// Returns the method around a place: the last of its class that is named before it.
    pub(crate) fn method_around(&self, place: Place) -> Option<&'a Method>
        ensures { option_map (λ m. method_tree m.now) result
            ≡ method_around (program_model self.now) place }
    {
        last_method(&self.class_meant(place, None)?.methods, place)
    }

    /// Returns the item of this number, which counts the items before it, or without a number the one around a place.
    fn item_meant(&self, place: Place, number: Option<usize>) -> Option<&'a Item>
        ensures { option_map (λ i. item_tree i.now) result
            ≡ item_meant (program_model self.now) place number }
    {
        match number {
            Some(number) => self.items.get(number),
            None => self.item_around(place),
        }
    }

    /// Returns the item around a place: the last that is named before it.
    fn item_around(&self, place: Place) -> Option<&'a Item>
        ensures { option_map (λ i. item_tree i.now) result
            ≡ item_around (program_model self.now) place }
    {
        self.items
            .iter()
            .rev()
            .find(|item| is_before(item.definition.name().place, place))
    }

    /// Returns the first item of this name.
    fn item_named(&self, name: Span) -> Option<&'a Item>
        ensures { option_map (λ i. item_tree i.now) result
            ≡ option_and_then (slice_get (program_model self.now).items)
            (first_among self.now.text.now (item_names (program_model self.now)) name) }
    {
        let word = name.slice(self.text);
        self.items
            .iter()
            .find(|item| word == item.definition.name().slice(self.text))
    }
}

/// Returns the last of these methods that is named before a place.
fn last_method(methods: &[Method], place: Place) -> Option<&Method>
    ensures { option_map (λ m. method_tree m.now) result
        ≡ find (λ m. is_before m.name.place place) (reverse (map method_tree methods.now)) }
{
    methods
        .iter()
        .rev()
        .find(|method| is_before(method.name.place, place))
}

/// Returns a definition as a contract, if it is one.
fn as_contract(definition: &Definition) -> Option<&Contract>
    ensures { option_map (λ c. contract_tree c.now) result
        ≡ as_contract (definition_tree definition.now) }
{
    match definition {
        Definition::Contract(contract) => Some(contract),
        _ => None,
    }
}

/// Returns a definition as a struct, if it is one.
fn as_struct(definition: &Definition) -> Option<&Struct>
    ensures { option_map (λ s. struct_tree s.now) result
        ≡ as_struct (definition_tree definition.now) }
{
    match definition {
        Definition::Struct(structure) => Some(structure),
        _ => None,
    }
}

/// Returns a definition as a class, if it is one.
fn as_class(definition: &Definition) -> Option<&Class>
    ensures { option_map (λ c. class_tree c.now) result
        ≡ as_class (definition_tree definition.now) }
{
    match definition {
        Definition::Class(class) => Some(class),
        _ => None,
    }
}
