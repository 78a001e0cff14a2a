//! The names that could be meant by one that nothing declares.

ghost use Rattle.std.specs.Prelude.{◌≡◌, ◌++◌, [], IfOk, OnOk, map, option_map};
ghost use Rattle.std.specs.Prelude.{option_to_list};
ghost use Rattle.std.specs.List.{flat_map};
ghost use Rattle.std.specs.Option.{option_map_or};
ghost use Rattle.declarations.specs.Declarations.{message_among, messages_of, names_of_messages};
ghost use Rattle.declarations.specs.Declarations.{names_of_states, state_among, states_of};
ghost use Rattle.remarks.specs.Candidates.{candidates, variables_at};
ghost use Rattle.remarks.specs.Listings.{name_of_sort, program_model};
ghost use Rattle.tree.specs.Trees.{class_tree, contract_tree, definition_tree, member_tree};
ghost use Rattle.tree.specs.Trees.{struct_tree};

use crate::listing::ItemListing;
use declarations::NameSort;
use nearest::names_before;
use source::{Memory, Place, Span};
use std::alloc::Global;
use tree::{Class, Contract, Definition, Member, Struct};

/// A sort of items.
#[derive(Clone, Copy)]
pub(crate) enum ItemSort {
    Contract,
    Struct,
    Class,
}

impl ItemListing<'_> {
    /// Returns the names of a sort that are declared for a place. Returns `Memory` if an allocation was refused.
    pub(crate) fn candidates(
        &self,
        alloc: Global,
        place: Place,
        sort: NameSort,
    ) -> Result<Vec<Span>, Memory>
        ensures { IfOk result (λ names. names.items
            ≡ candidates (program_model self.now) place sort) }
    {
        match sort {
            NameSort::Variable(count) => self.variables_at(alloc, place, count),
            NameSort::Front(count) => self.fronts_at(alloc, place, count),
            NameSort::Contract => self.item_names(alloc, ItemSort::Contract),
            NameSort::Struct => self.item_names(alloc, ItemSort::Struct),
            NameSort::Method(class) => method_names(alloc, self.class_meant(place, class)),
            NameSort::State(item) => state_names(alloc, self.contract_meant(place, item)),
            NameSort::Message(item) => message_names(alloc, self.contract_meant(place, item)),
            NameSort::Sent(item) => message_names(alloc, self.contract_meant(place, Some(item))),
            NameSort::Field(item) => field_names(alloc, self.struct_meant(place, Some(item))),
            NameSort::Length => Ok(Vec::new(alloc)),
        }
    }

    /// Returns the `count` variables in scope at a place. Returns `Memory` if an allocation was refused.
    fn variables_at(&self, alloc: Global, place: Place, count: usize) -> Result<Vec<Span>, Memory>
        ensures { IfOk result (λ names. names.items
            ≡ variables_at (program_model self.now) place count) }
    {
        let Some(method) = self.method_around(place) else {
            return Ok(Vec::new(alloc));
        };
        let mut names = names_before(alloc, method, place)?;
        names.truncate(count);
        Ok(names)
    }

    /// Returns the `count` variables in scope at a place, and the classes. Returns `Memory` if an allocation
    /// was refused.
    fn fronts_at(&self, alloc: Global, place: Place, count: usize) -> Result<Vec<Span>, Memory>
        ensures { IfOk result (λ names. names.items
            ≡ variables_at (program_model self.now) place count
            ++ flat_map (λ i. name_of_sort ItemSort.Class i.definition)
            (program_model self.now).items) }
    {
        let mut names = self.variables_at(alloc, place, count)?;
        self.add_items(&mut names, ItemSort::Class)?;
        Ok(names)
    }

    /// Returns the names of the items of a sort. Returns `Memory` if an allocation was refused.
    fn item_names(&self, alloc: Global, sort: ItemSort) -> Result<Vec<Span>, Memory>
        ensures { IfOk result (λ names. names.items
            ≡ flat_map (λ i. name_of_sort sort i.definition) (program_model self.now).items) }
    {
        let mut names = Vec::new(alloc);
        self.add_items(&mut names, sort)?;
        Ok(names)
    }

    /// Appends the names of the items of a sort. Returns `Memory` if an allocation was refused.
    fn add_items(&self, names: &mut Vec<Span>, sort: ItemSort) -> Result<(), Memory>
        ensures { OnOk result (names.new.items ≡ names.old.items
            ++ flat_map (λ i. name_of_sort sort i.definition) (program_model self.now).items) }
    {
        for item in self.items {
            if let Some(name) = name_of_sort(&item.definition, sort) {
                names.push(name)?;
            }
        }
        Ok(())
    }
}

/// Returns the name that a definition declares, if it is of this sort.
fn name_of_sort(definition: &Definition, sort: ItemSort) -> Option<Span>
    ensures { option_to_list result ≡ name_of_sort sort (definition_tree definition.now) }
{
    match (sort, definition) {
        (ItemSort::Contract, Definition::Contract(contract)) => Some(contract.name),
        (ItemSort::Struct, Definition::Struct(structure)) => Some(structure.name),
        (ItemSort::Class, Definition::Class(class)) => Some(class.name),
        _ => None,
    }
}

/// Returns the names of the methods of a class, if there is one. Returns `Memory` if an allocation was refused.
fn method_names(alloc: Global, class: Option<&Class>) -> Result<Vec<Span>, Memory>
    ensures { IfOk result (λ names. names.items
        ≡ option_map_or (λ c. map (λ m. m.name) c.methods)
        (option_map (λ c. class_tree c.now) class.entry) []) }
{
    let mut names = Vec::new(alloc);
    let Some(class) = class else {
        return Ok(names);
    };
    for method in &class.methods {
        names.push(method.name)?;
    }
    Ok(names)
}

/// Returns the names of the fields of a struct, if there is one. Returns `Memory` if an allocation was refused.
fn field_names(alloc: Global, structure: Option<&Struct>) -> Result<Vec<Span>, Memory>
    ensures { IfOk result (λ names. names.items
        ≡ option_map_or (λ s. map (λ f. f.name) s.fields)
        (option_map (λ s. struct_tree s.now) structure.entry) []) }
{
    let mut names = Vec::new(alloc);
    let Some(structure) = structure else {
        return Ok(names);
    };
    for field in &structure.fields {
        names.push(field.name)?;
    }
    Ok(names)
}

/// Returns the names of the states of a contract, if there is one. Returns `Memory` if an allocation was refused.
fn state_names(alloc: Global, contract: Option<&Contract>) -> Result<Vec<Span>, Memory>
    ensures { IfOk result (λ names. names.items
        ≡ option_map_or (λ c. names_of_states (states_of c))
        (option_map (λ c. contract_tree c.now) contract.entry) []) }
{
    let mut names = Vec::new(alloc);
    let Some(contract) = contract else {
        return Ok(names);
    };
    names.push(contract.state.name)?;
    add_states(&mut names, &contract.members)?;
    Ok(names)
}

/// Appends the names of the states among these members. Returns `Memory` if an allocation was refused.
fn add_states(names: &mut Vec<Span>, members: &[Member]) -> Result<(), Memory>
    ensures { OnOk result (names.new.items ≡ names.old.items
        ++ names_of_states (flat_map state_among (map member_tree members.now))) }
{
    for member in members {
        if let Member::State(state) = member {
            names.push(state.name)?;
        }
    }
    Ok(())
}

/// Returns the names of the messages of a contract, if there is one. Returns `Memory` if an allocation was refused.
fn message_names(alloc: Global, contract: Option<&Contract>) -> Result<Vec<Span>, Memory>
    ensures { IfOk result (λ names. names.items
        ≡ option_map_or (λ c. names_of_messages (messages_of c))
        (option_map (λ c. contract_tree c.now) contract.entry) []) }
{
    let mut names = Vec::new(alloc);
    let Some(contract) = contract else {
        return Ok(names);
    };
    for message in &contract.messages {
        names.push(message.name)?;
    }
    add_messages(&mut names, &contract.members)?;
    Ok(names)
}

/// Appends the names of the messages among these members. Returns `Memory` if an allocation was refused.
fn add_messages(names: &mut Vec<Span>, members: &[Member]) -> Result<(), Memory>
    ensures { OnOk result (names.new.items ≡ names.old.items
        ++ names_of_messages (flat_map message_among (map member_tree members.now))) }
{
    for member in members {
        if let Member::Message(message) = member {
            names.push(message.name)?;
        }
    }
    Ok(())
}
